//! Appends VALUE lines with their data, and rows of counters.
//!
//! Hits with little data are composed: the buffer grows once for all of them, and each byte is
//! written to its final place. If a hit has more data, or the reply is large, `pieces.rt` appends
//! it.
ghost use Rattle.std.specs.Prelude.{◌≡◌, ◌+◌, ◌≤◌, ◌++◌, take, length, vec_len, vec_capacity, OnOk, OnErr, IfSome};
ghost use Rattle.tc_session.specs.Replies.{cas_text, value_line, value_text, values_text, stats_text};
ghost use Rattle.tc_session.specs.Room.{most_of, room_of};

use crate::text::{put_bytes, put_number};
use tc_grammar::Form;
use tc_item::NoMemory;
use tc_stats::{Counters, Hit};

/// The most data, in bytes, of a hit that is composed.
const MOST_COMPOSED: usize = 1_024;

/// A reply is composed only if all hits but the last need at most this much room, in bytes.
pub(crate) const MOST_COPIED: usize = 1_048_576;

/// The most own bytes of a hit beside its key and its data: its VALUE line and a line end.
pub(crate) const BESIDE: usize = 73;

/// The end of a VALUE line, and of the data.
pub(crate) const LINE_END: &[u8] = b"\r\n";

/// The end of the reply, behind the last hit.
pub(crate) const END: &[u8] = b"END\r\n";

/// Writes a space and the cas number of a VALUE line at `at` if the form shows it. Returns where
/// they end.
fn put_cas(text: &mut [u8], at: usize, form: Form, cas: u64) -> usize
    requires room { at + 21 ≤ length text.old }
    ensures written { take result text.new ≡ take at text.old ++ cas_text form cas }
    ensures near { result ≤ at + 21 }
{
    match form {
        Form::Bare => at,
        Form::WithCas => put_number(text, at, cas),
    }
}

/// Writes the VALUE line of a hit with `size` bytes of data at `at`. Returns where it ends.
#[tactic(auto, unfolding(crate::specs::Replies::value_line))]
pub(crate) fn put_value_line(
    text: &mut [u8],
    at: usize,
    form: Form,
    hit: &Hit,
    size: usize,
) -> usize
    requires size { size ≡ length hit.now.blob }
    requires room { at + (length hit.now.key + 71) ≤ length text.old }
    ensures written { take result text.new ≡ take at text.old ++ value_line form hit.now }
    ensures near { result ≤ at + (length hit.now.key + 71) }
{
    let at = put_bytes(text, at, b"VALUE ");
    let at = put_bytes(text, at, hit.key.as_bytes());
    let at = put_number(text, at, u64::from(hit.flags));
    let at = put_number(text, at, size as u64);
    let at = put_cas(text, at, form, hit.cas);
    put_bytes(text, at, LINE_END)
}

/// Writes a hit at `at`. Returns where it ends.
#[tactic(auto, unfolding(crate::specs::Replies::value_text))]
fn put_hit(text: &mut [u8], at: usize, form: Form, hit: &Hit) -> usize
    requires room { at + most_of hit.now ≤ length text.old }
    ensures written { take result text.new ≡ take at text.old ++ value_text form hit.now }
    ensures near { result ≤ at + most_of hit.now }
{
    let bytes = hit.blob.as_slice();
    let at = put_value_line(text, at, form, hit, bytes.len());
    let at = put_bytes(text, at, bytes);
    put_bytes(text, at, LINE_END)
}

/// Writes all hits and END at `at`. Returns where they end.
#[tactic(auto, unfolding(crate::specs::Replies::values_text))]
fn put_hits(text: &mut [u8], at: usize, form: Form, hits: &[Hit]) -> usize
    requires { at + room_of hits.now ≤ length text.old }
    ensures written { take result text.new ≡ take at text.old ++ values_text form hits.now }
    ensures near { result ≤ at + room_of hits.now }
{
    let mut end = at;
    for hit in hits {
        end = put_hit(text, end, form, hit);
    }
    put_bytes(text, end, END)
}

/// Returns the room, in bytes, for all hits and END, or `None` if the reply is not composed.
pub(crate) fn room_to_compose(hits: &[Hit]) -> Option<usize>
    ensures { IfSome result (λ room. room ≡ room_of hits.now) }
{
    let mut room = END.len();
    for hit in hits {
        let data = hit.blob.len();
        if data > MOST_COMPOSED || room > MOST_COPIED {
            return None;
        }
        room += hit.key.as_bytes().len() + data + BESIDE;
    }
    Some(room)
}

/// Appends all hits and END. `room` is what they may need, and must be there.
pub(crate) fn compose(to: &mut Vec<u8>, room: usize, form: Form, hits: &[Hit])
    requires room { room ≡ room_of hits.now }
    requires fits { vec_len to.old + room ≤ vec_capacity to.old }
    ensures bytes { to.new.items ≡ to.old.items ++ values_text form hits.now }
    ensures longer { vec_len to.new ≤ vec_len to.old + room }
    ensures capacity { vec_capacity to.old ≤ vec_capacity to.new }
{
    let start = to.len();
    let _ = to.resize(start + room, 0);
    let end = put_hits(to.as_mut_slice(), start, form, hits);
    to.truncate(end);
}

/// Appends all hits and END, after making room for them. If memory is refused, nothing changes.
pub(crate) fn append_composed(
    to: &mut Vec<u8>,
    room: usize,
    form: Form,
    hits: &[Hit],
) -> Result<(), NoMemory>
    requires { room ≡ room_of hits.now }
    ensures bytes { OnOk result (to.new.items ≡ to.old.items ++ values_text form hits.now) }
    ensures unchanged_on_err { OnErr result (to.new.items ≡ to.old.items) }
    ensures capacity { vec_capacity to.old ≤ vec_capacity to.new }
{
    to.reserve(room)?;
    compose(to, room, form, hits);
    Ok(())
}

/// Appends the rows of counters and END. If memory is refused, nothing changes.
#[tactic(auto, unfolding(crate::specs::Replies::stats_text))]
pub(crate) fn append_stats(to: &mut Vec<u8>, counters: &Counters) -> Result<(), NoMemory>
    ensures bytes { OnOk result (to.new.items ≡ to.old.items ++ stats_text counters.now) }
    ensures unchanged_on_err { OnErr result (to.new.items ≡ to.old.items) }
    ensures capacity { vec_capacity to.old ≤ vec_capacity to.new }
{
    let mark = to.len();
    counters.render(to)?;
    if to.extend_from_slice(END).is_err() {
        to.truncate(mark);
        return Err(NoMemory);
    }
    Ok(())
}
