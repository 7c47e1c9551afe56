//! The bytes that wait to be sent. `answering.rt` and `replies.rt` decide what they say.
ghost use Rattle.std.specs.Prelude.{◌≡◌, ◌+◌, ◌-◌, ◌<◌, ◌≤◌, ◌++◌, [], decimal, drop, length, vec_len, vec_capacity};
ghost use Rattle.std.specs.Prelude.{OnOk, OnErr};
ghost use Rattle.tc_session.specs.Replies.{values_text, stats_text};
ghost use Rattle.tc_session.specs.Room.{room_of};

use crate::chain::Chain;
use crate::parts::Parts;
use crate::pieces::splice_values;
use crate::values::{append_composed, append_stats, compose, room_to_compose};
use itoa::Buffer;
use std::alloc::Global;
use std::marker::Model;
use tc_grammar::Form;
use tc_item::NoMemory;
use tc_stats::{Counters, Hit};

/// The most room, in bytes, that stays once all bytes are sent.
const KEPT_ROOM: usize = 65_536;

/// Bytes that wait to be sent, and room for more: own bytes, with shared data between them.
#[derive(Drop)]
pub(crate) struct Output {
    own: Vec<u8>,
    /// The number of sent own bytes in front that no piece counts.
    start: usize,
    /// The shared data. Each piece counts the own bytes since the piece before it, the first one
    /// those from `start` on.
    chain: Chain,
    /// Of the first piece and the own bytes before it, this many bytes were sent.
    sent: usize,
}

impl Model for Output {
    ghost use Rattle.std.specs.Prelude.{vec_capacity, vec_len, ◌+◌, ◌-◌, ◌≤◌, drop};
    ghost use Rattle.tc_session.specs.Unsent.{Unsent, joined, reach, IsBegun};

    ghost Value = { Unsent };

    ghost view = { λ o. record {
      bytes = drop o.sent (joined (drop o.start o.own.items) o.chain);
      room = vec_capacity o.own - vec_len o.own;
    } };

    ghost invariant = { λ o. (o.start + reach o.chain ≤ vec_len o.own) × IsBegun o.sent o.chain };
}

/// Empties the vector, and frees its room if that is over `KEPT_ROOM`.
fn clear_bytes(bytes: &mut Vec<u8>)
    ensures { bytes.new.items ≡ [] }
{
    bytes.clear();
    if bytes.capacity() > KEPT_ROOM {
        bytes.shrink_to(0);
    }
}

/// Frees the room of the first `sent` bytes, once they outnumber those that wait. Returns how many
/// sent bytes are left in front.
fn compact(bytes: &mut Vec<u8>, sent: usize) -> usize
    requires { sent ≤ vec_len bytes.old }
    ensures waiting { drop result bytes.new.items ≡ drop sent bytes.old.items }
    ensures long { result + (vec_len bytes.old - sent) ≡ vec_len bytes.new }
{
    if sent <= bytes.len() - sent {
        return sent;
    }
    bytes.drain(..sent);
    0
}

impl Output {
    /// Returns an empty output.
    pub fn new(alloc: Global) -> Output
        ensures { result.bytes ≡ [] }
    {
        Output {
            own: Vec::new(alloc),
            start: 0,
            chain: Chain::new(alloc),
            sent: 0,
        }
    }

    /// Makes room for `n` bytes. Fails only if there was less room and memory was refused.
    pub fn reserve(&mut self, n: usize) -> Result<(), NoMemory>
        ensures bytes { self.new.bytes ≡ self.old.bytes }
        ensures room { OnOk result (n ≤ self.new.room) }
        ensures kept { self.old.room ≤ self.new.room }
        ensures refused { OnErr result (self.old.room < n) }
    {
        self.own.reserve(n)?;
        Ok(())
    }

    /// Returns for how many bytes there is room.
    pub fn room(&self) -> usize
        ensures { result ≡ self.now.room }
    {
        self.own.capacity() - self.own.len()
    }

    /// Appends bytes, for which there must be room.
    #[tactic(auto, using(crate::proofs::Waiting::written))]
    pub fn write(&mut self, text: &[u8])
        requires { length text.now ≤ self.old.room }
        ensures bytes { self.new.bytes ≡ self.old.bytes ++ text.now }
        ensures room { self.old.room ≤ self.new.room + length text.now }
    {
        let _ = self.own.extend_from_slice(text);
    }

    /// Appends a number, for which there must be room: 20 bytes.
    pub fn write_number(&mut self, number: u64)
        requires { 20 ≤ self.old.room }
        ensures bytes { self.new.bytes ≡ self.old.bytes ++ decimal number }
        ensures room { self.old.room ≤ self.new.room + 20 }
    {
        let mut buffer = Buffer::new();
        self.write(buffer.format(number).as_bytes());
    }

    /// Appends the rows of counters and END. If memory is refused, nothing changes.
    #[tactic(auto, using(crate::proofs::Waiting::written))]
    pub fn write_stats(&mut self, counters: &Counters) -> Result<(), NoMemory>
        ensures bytes { OnOk result (self.new.bytes ≡ self.old.bytes ++ stats_text counters.now) }
        ensures unchanged_on_err { OnErr result (self.new.bytes ≡ self.old.bytes) }
        ensures room_on_err { OnErr result (self.old.room ≤ self.new.room) }
    {
        append_stats(&mut self.own, counters)
    }

    /// Appends all hits and END. Large data is shared, not copied. If memory is refused, nothing
    /// changes, and the room made for them is freed.
    #[tactic(auto, using(crate::proofs::Waiting::written))]
    pub fn write_values(&mut self, form: Form, hits: &[Hit]) -> Result<(), NoMemory>
        ensures bytes { OnOk result (self.new.bytes
            ≡ self.old.bytes ++ values_text form hits.now) }
        ensures unchanged_on_err { OnErr result (self.new.bytes ≡ self.old.bytes) }
        ensures room_on_err { OnErr result (self.old.room ≤ self.new.room) }
    {
        if let Some(room) = room_to_compose(hits) {
            return append_composed(&mut self.own, room, form, hits);
        }
        let from = self.start + self.chain.reach();
        splice_values(&mut self.own, &mut self.chain, from, form, hits)?;
        Ok(())
    }

    /// Appends all hits and END, for which there must be room.
    #[tactic(auto, using(crate::proofs::Waiting::written))]
    pub fn write_composed(&mut self, room: usize, form: Form, hits: &[Hit])
        requires room { room ≡ room_of hits.now }
        requires fits { room ≤ self.old.room }
        ensures bytes { self.new.bytes ≡ self.old.bytes ++ values_text form hits.now }
        ensures room { self.old.room ≤ self.new.room + room }
    {
        compose(&mut self.own, room, form, hits);
    }

    /// Returns the bytes that wait.
    pub fn parts(&self) -> Parts<'_>
        ensures { result ≡ self.now.bytes }
    {
        Parts::new(&self.own[self.start..], &self.chain, self.sent)
    }

    /// Returns the number of bytes that wait.
    #[tactic(auto, using(crate::proofs::Waiting::length_waiting, crate::proofs::Waiting::begun_le))]
    pub fn len(&self) -> usize
        ensures { result ≡ length self.now.bytes }
    {
        self.own.len() - self.start + self.chain.weight() - self.sent
    }

    /// Drops the first `n` bytes, which were sent. Frees their room once they outnumber the rest,
    /// and large room once all are sent.
    pub fn sent(&mut self, n: usize)
        ensures { self.new.bytes ≡ drop n self.old.bytes }
    {
        if n >= self.len() {
            self.clear();
            return;
        }
        let mut left = n;
        while left > 0 {
            left = self.pass(left);
        }
    }

    /// Drops all bytes, which were sent.
    fn clear(&mut self)
        ensures { self.new.bytes ≡ [] }
    {
        clear_bytes(&mut self.own);
        self.chain.clear();
        self.start = 0;
        self.sent = 0;
    }

    /// Drops some of the first `n` bytes, which were sent: up to the end of the first shared data.
    /// Returns how many are left to drop.
    #[tactic(auto, using(crate::proofs::Waiting::own_sent, crate::proofs::Waiting::piece_sent))]
    fn pass(&mut self, n: usize) -> usize
        requires { n < length self.old.bytes }
        ensures bytes { self.new.bytes ≡ drop (n - result) self.old.bytes }
        ensures less { 0 < n → result < n }
        ensures within { result ≤ n }
    {
        let Some(piece) = self.chain.get(0) else {
            self.start = compact(&mut self.own, self.start + n);
            return 0;
        };
        let before = piece.before;
        let whole = before + piece.blob.len() - self.sent;
        if n < whole {
            self.sent += n;
            return 0;
        }
        self.chain.pop();
        self.start = compact(&mut self.own, self.start + before);
        self.sent = 0;
        n - whole
    }
}
