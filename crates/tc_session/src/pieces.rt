//! Appends VALUE lines of a reply with much data, hit by hit.
//!
//! Large data is shared: it stays in its block, and a piece of a chain says how many own bytes
//! precede it.
ghost use Rattle.std.specs.Prelude.{◌≡◌, ◌+◌, ◌≤◌, ◌<◌, ◌++◌, drop, take, length, vec_len, vec_capacity, OnOk, OnErr, IfOk};
ghost use Rattle.tc_item.specs.Bounds.{longest_key};
ghost use Rattle.tc_session.specs.Replies.{value_line, value_text, values_text};
ghost use Rattle.tc_session.specs.Unsent.{IsSpliced, joined, reach};

use crate::chain::Chain;
use crate::values::{BESIDE, END, LINE_END, MOST_COPIED, put_value_line};
use tc_grammar::Form;
use tc_item::{LONGEST_KEY, NoMemory};
use tc_stats::Hit;

/// Data of at least this many bytes is shared. A shared piece costs half a system call, which is
/// dearer than copying less.
const SHARED: usize = 16_384;

/// In a reply of more than `MOST_COPIED` own bytes, data of at least this many bytes is shared.
const SHARED_IN_LARGE: usize = 256;

/// The room, in bytes, that suffices for a VALUE line.
const LINE_ROOM: usize = LONGEST_KEY + BESIDE;

/// The needs of a reply.
#[derive(Clone, Copy)]
struct Plan {
    /// Data of at least this many bytes is shared.
    least: usize,
    /// The most own bytes.
    own: usize,
    /// The number of shared pieces.
    pieces: usize,
}

impl Plan {
    /// Returns the needs of the reply to a look-up.
    fn of(hits: &[Hit]) -> Plan
        ensures { 0 < result.least }
    {
        let plan = Plan::sharing(SHARED, hits);
        if plan.own <= MOST_COPIED {
            return plan;
        }
        Plan::sharing(SHARED_IN_LARGE, hits)
    }

    /// Returns the needs if data of at least `least` bytes is shared.
    fn sharing(least: usize, hits: &[Hit]) -> Plan
        ensures { result.least ≡ least }
    {
        let mut own = END.len();
        let mut pieces = 0usize;
        for hit in hits {
            let data = hit.blob.len();
            own = own.saturating_add(hit.key.as_bytes().len() + BESIDE);
            if data < least {
                own = own.saturating_add(data);
            } else {
                pieces = pieces.saturating_add(1);
            }
        }
        Plan { least, own, pieces }
    }
}

/// Appends the VALUE line of a hit with `size` bytes of data. There must be room for it.
fn append_value_line(to: &mut Vec<u8>, form: Form, hit: &Hit, size: usize)
    requires size { size ≡ length hit.now.blob }
    requires room { vec_len to.old + (length hit.now.key + 71) ≤ vec_capacity to.old }
    requires short { length hit.now.key ≤ longest_key }
    ensures bytes { to.new.items ≡ to.old.items ++ value_line form hit.now }
    ensures longer { vec_len to.new ≤ vec_len to.old + (length hit.now.key + 71) }
    ensures capacity { vec_capacity to.old ≤ vec_capacity to.new }
{
    let mut text = [0; LINE_ROOM];
    let end = put_value_line(&mut text, 0, form, hit, size);
    let _ = to.extend_from_slice(&text[..end]);
}

/// Appends a hit and copies its data. If memory is refused, no bytes are appended.
#[tactic(auto, unfolding(crate::specs::Replies::value_text))]
fn append_copied(to: &mut Vec<u8>, form: Form, hit: &Hit) -> Result<(), NoMemory>
    ensures bytes { OnOk result (to.new.items ≡ to.old.items ++ value_text form hit.now) }
    ensures unchanged_on_err { OnErr result (to.new.items ≡ to.old.items) }
    ensures capacity { vec_capacity to.old ≤ vec_capacity to.new }
{
    let bytes = hit.blob.as_slice();
    to.reserve(hit.key.as_bytes().len() + bytes.len() + BESIDE)?;
    append_value_line(to, form, hit, bytes.len());
    let _ = to.extend_from_slice(bytes);
    let _ = to.extend_from_slice(LINE_END);
    Ok(())
}

/// Appends a hit and shares its data: a VALUE line, a piece, and a line end. If memory is refused,
/// some of these may be left behind the old bytes.
#[tactic(auto, unfolding(crate::specs::Replies::value_text))]
fn append_shared(
    to: &mut Vec<u8>,
    chain: &mut Chain,
    from: usize,
    form: Form,
    hit: &Hit,
) -> Result<(), NoMemory>
    requires some { 0 < length hit.now.blob }
    requires within { from + reach chain.old ≤ vec_len to.old }
    ensures bytes { OnOk result (joined (drop from to.new.items) chain.new
        ≡ joined (drop from to.old.items) chain.old ++ value_text form hit.now) }
    ensures within { OnOk result (from + reach chain.new ≤ vec_len to.new) }
    ensures front { take (length to.old.items) to.new.items ≡ to.old.items }
    ensures capacity { vec_capacity to.old ≤ vec_capacity to.new }
{
    let data = hit.blob.copy()?;
    to.reserve(hit.key.as_bytes().len() + BESIDE)?;
    append_value_line(to, form, hit, hit.blob.len());
    chain.push(to.len() - from - chain.reach(), data)?;
    to.extend_from_slice(LINE_END)?;
    Ok(())
}

/// Appends a hit. Shares its data if that has at least `least` bytes.
fn append_piece(
    to: &mut Vec<u8>,
    chain: &mut Chain,
    from: usize,
    least: usize,
    form: Form,
    hit: &Hit,
) -> Result<(), NoMemory>
    requires least { 0 < least }
    requires within { from + reach chain.old ≤ vec_len to.old }
    ensures bytes { OnOk result (joined (drop from to.new.items) chain.new
        ≡ joined (drop from to.old.items) chain.old ++ value_text form hit.now) }
    ensures within { OnOk result (from + reach chain.new ≤ vec_len to.new) }
    ensures front { take (length to.old.items) to.new.items ≡ to.old.items }
    ensures capacity { vec_capacity to.old ≤ vec_capacity to.new }
{
    if hit.blob.len() >= least {
        return append_shared(to, chain, from, form, hit);
    }
    append_copied(to, form, hit)?;
    Ok(())
}

/// Appends all hits and END. Returns the pieces of shared data, the first of which counts own bytes
/// from `from` on.
#[tactic(auto, unfolding(crate::specs::Replies::values_text))]
fn append_pieces(to: &mut Vec<u8>, from: usize, form: Form, hits: &[Hit]) -> Result<Chain, NoMemory>
    requires within { from ≤ vec_len to.old }
    ensures says { IfOk result (λ chain. joined (drop from to.new.items) chain
        ≡ drop from to.old.items ++ values_text form hits.now) }
    ensures within { IfOk result (λ chain. from + reach chain ≤ vec_len to.new) }
    ensures front { take (length to.old.items) to.new.items ≡ to.old.items }
    ensures capacity { vec_capacity to.old ≤ vec_capacity to.new }
{
    let plan = Plan::of(hits);
    let mut chain = Chain::with_capacity(*to.allocator(), plan.pieces)?;
    to.reserve(plan.own)?;
    for hit in hits {
        append_piece(to, &mut chain, from, plan.least, form, hit)?;
    }
    to.extend_from_slice(END)?;
    Ok(chain)
}

/// Appends all hits and END, and the pieces of shared data to `chain`. If memory is refused, the
/// chain is unchanged, but bytes may be left behind the old ones.
fn append_spliced(
    to: &mut Vec<u8>,
    chain: &mut Chain,
    from: usize,
    form: Form,
    hits: &[Hit],
) -> Result<(), NoMemory>
    requires within { from ≤ vec_len to.old }
    ensures says { OnOk result (IsSpliced (drop from to.old.items) (drop from to.new.items)
        chain.old chain.new (values_text form hits.now)) }
    ensures front { take (length to.old.items) to.new.items ≡ to.old.items }
    ensures capacity { vec_capacity to.old ≤ vec_capacity to.new }
    ensures chain_on_err { OnErr result (chain.new ≡ chain.old) }
{
    let behind = append_pieces(to, from, form, hits)?;
    chain.append(behind)?;
    Ok(())
}

/// Truncates to `len` bytes, and frees room beyond a capacity of `room`.
fn cut_back(to: &mut Vec<u8>, len: usize, room: usize)
    ensures items { to.new.items ≡ take len to.old.items }
    ensures capacity { room ≤ vec_capacity to.old → room ≤ vec_capacity to.new }
{
    to.truncate(len);
    to.shrink_to(room);
}

/// Appends all hits and END, and the pieces of shared data to `chain`. If memory is refused,
/// nothing changes, and the room made for them is freed.
pub(crate) fn splice_values(
    to: &mut Vec<u8>,
    chain: &mut Chain,
    from: usize,
    form: Form,
    hits: &[Hit],
) -> Result<(), NoMemory>
    requires within { from ≤ vec_len to.old }
    ensures says { OnOk result (IsSpliced (drop from to.old.items) (drop from to.new.items)
        chain.old chain.new (values_text form hits.now)) }
    ensures front { OnOk result (take (length to.old.items) to.new.items ≡ to.old.items) }
    ensures unchanged_on_err { OnErr result (to.new.items ≡ to.old.items) }
    ensures chain_on_err { OnErr result (chain.new ≡ chain.old) }
    ensures capacity_on_err { OnErr result (vec_capacity to.old ≤ vec_capacity to.new) }
{
    let (len, room) = (to.len(), to.capacity());
    let spliced = append_spliced(to, chain, from, form, hits);
    if spliced.is_err() {
        cut_back(to, len, room);
    }
    spliced
}
