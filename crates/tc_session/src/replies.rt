//! Replies: the written ones, and behind them those that are owed.
//!
//! A caller that others wait for, such as a worker that holds a user's lock, owes the replies to
//! look-ups and writes them later. Owing a reply makes room for it, so writing it takes no memory.
//! Contracts see what waits to be sent as if all of it were written.
ghost use Rattle.std.specs.Prelude.{◌≡◌, ◌+◌, ◌<◌, ◌≤◌, ◌++◌, ◌-◌, ◌↔◌, [], drop, take, length};
ghost use Rattle.std.specs.Prelude.{IsOk, IsTrue, OnOk, OnErr, IfOk, true, false};
ghost use Rattle.tc_session.specs.SessionView.{reply_room};
ghost use Rattle.tc_session.specs.Texts.{fault_line};
ghost use Rattle.tc_session.specs.Replies.{can_end, render, is_long, values_text};
ghost use Rattle.tc_session.specs.Room.{room_of};
ghost use Rattle.tc_session.specs.Owing.{owed_text, owed_room, AreMeasured};

use crate::answering::{write_fault, write_reply};
use crate::output::Output;
use crate::parts::Parts;
use crate::values::{append_composed, room_to_compose};
use std::alloc::Global;
use std::marker::Model;
use tc_grammar::{Command, Fault, Form};
use tc_item::{NoMemory, have_read};
use tc_stats::{Hits, Outcome};

/// The reply to a look-up that is not written yet, and the room made for it in bytes.
#[derive(Drop)]
pub(crate) struct Owed {
    form: Form,
    room: usize,
    hits: Hits,
}

/// Bytes that wait to be sent, and behind them replies that are owed.
#[derive(Drop)]
pub(crate) struct Replies {
    written: Output,
    owed: Vec<Owed>,
    /// The part of the room behind the written bytes that is for owed replies.
    taken: usize,
}

impl Model for Replies {
    ghost use Rattle.std.specs.Prelude.{◌≡◌, ◌-◌, ◌≤◌, ◌++◌, length};
    ghost use Rattle.tc_session.specs.Owing.{Waiting, owed_text, owed_room, AreMeasured};

    ghost Value = { Waiting };

    ghost view = { λ r. record {
      bytes = r.written.bytes ++ owed_text r.owed.items;
      unwritten = length (owed_text r.owed.items);
      room = r.written.room - r.taken;
    } };

    ghost invariant = { λ r. (r.taken ≡ owed_room r.owed.items)
        × (r.taken ≤ r.written.room)
        × AreMeasured r.owed.items };
}

/// Reads the data of all owed hits, so that they wait for memory together. Their look-up may be
/// long ago if many others followed.
fn read_data(owed: &[Owed]) {
    let mut sum: u64 = 0;
    for reply in owed {
        for hit in reply.hits.as_slice() {
            sum = sum.wrapping_add(hit.blob.read_ends());
        }
    }
    have_read(sum);
}

/// Writes all owed replies, for which there must be room.
fn write_owed(written: &mut Output, owed: &mut Vec<Owed>)
    requires fits { owed_room owed.old.items ≤ written.old.room }
    requires measured { AreMeasured owed.old.items }
    ensures bytes { written.new.bytes ≡ written.old.bytes ++ owed_text owed.old.items }
    ensures room { written.old.room ≤ written.new.room + owed_room owed.old.items }
    ensures owed { owed.new.items ≡ [] }
{
    read_data(owed.as_slice());
    for reply in owed.iter() {
        written.write_composed(reply.room, reply.form, reply.hits.as_slice());
    }
    owed.clear();
}

/// Appends an owed reply. If memory is refused, nothing changes.
#[tactic(auto, using(crate::proofs::Owing::text_behind, crate::proofs::Owing::room_behind, crate::proofs::Owing::measured_behind))]
fn push_owed(owed: &mut Vec<Owed>, form: Form, room: usize, hits: Hits) -> Result<(), NoMemory>
    requires room { room ≡ room_of hits }
    requires measured { AreMeasured owed.old.items }
    ensures text { OnOk result (owed_text owed.new.items
        ≡ owed_text owed.old.items ++ values_text form hits) }
    ensures room { OnOk result (owed_room owed.new.items ≡ owed_room owed.old.items + room) }
    ensures measured { OnOk result (AreMeasured owed.new.items) }
    ensures unchanged_on_err { OnErr result (owed.new.items ≡ owed.old.items) }
{
    owed.push(Owed { form, room, hits })?;
    Ok(())
}

/// Whether a reply is owed.
#[tactic(auto, using(crate::proofs::Owing::owed_some, crate::proofs::Owing::owed_none))]
fn owes(owed: &Vec<Owed>) -> bool
    ensures { IsTrue result ↔ (0 < length (owed_text owed.now.items)) }
{
    owed.len() > 0
}

impl Replies {
    /// Returns empty replies.
    pub fn new(alloc: Global) -> Replies
        ensures { result.bytes ≡ [] }
    {
        Replies {
            written: Output::new(alloc),
            owed: Vec::new(alloc),
            taken: 0,
        }
    }

    /// Makes room for `n` bytes beside what is owed. Fails only if there was less room and memory
    /// was refused.
    pub fn reserve(&mut self, n: usize) -> Result<(), NoMemory>
        ensures bytes { self.new.bytes ≡ self.old.bytes }
        ensures room { OnOk result (n ≤ self.new.room) }
        ensures refused { OnErr result (self.old.room < n) }
    {
        if n <= self.written.room() - self.taken {
            return Ok(());
        }
        let Some(all) = self.taken.checked_add(n) else {
            return Err(NoMemory);
        };
        self.written.reserve(all)
    }

    /// Appends bytes, for which there must be room.
    pub fn write(&mut self, text: &[u8])
        requires { length text.now ≤ self.old.room }
        ensures bytes { self.new.bytes ≡ self.old.bytes ++ text.now }
        ensures room { self.old.room ≤ self.new.room + length text.now }
    {
        self.settle();
        self.written.write(text);
    }

    /// Appends a fault's line.
    pub fn write_fault(&mut self, fault: Fault)
        requires { reply_room ≤ self.old.room }
        ensures bytes { self.new.bytes ≡ self.old.bytes ++ fault_line fault }
        ensures room { self.old.room ≤ self.new.room + reply_room }
    {
        self.settle();
        write_fault(&mut self.written, fault);
    }

    /// Appends the reply to a command. If memory is refused, nothing changes.
    #[tactic(auto, using(crate::proofs::Owing::owed_room_none))]
    pub fn write_reply(&mut self, command: &Command, outcome: &Outcome) -> Result<(), NoMemory>
        requires room { reply_room ≤ self.old.room }
        requires can_end { can_end command.now outcome.now ≡ true }
        ensures bytes { OnOk result (self.new.bytes
            ≡ self.old.bytes ++ render command.now outcome.now) }
        ensures unchanged_on_err { OnErr result (self.new.bytes ≡ self.old.bytes) }
        ensures room_on_err { OnErr result (self.old.room ≤ self.new.room) }
        ensures short { is_long outcome.now ≡ false → IsOk result }
    {
        self.settle();
        write_reply(&mut self.written, command, outcome)
    }

    /// Owes the reply to a look-up and makes room for it. A reply that is not composed
    /// (`values.rt`) is written at once. If memory is refused, nothing changes.
    #[tactic(auto, using(crate::proofs::Owing::owed_room_none))]
    pub fn owe(&mut self, form: Form, hits: Hits) -> Result<(), NoMemory>
        ensures bytes { OnOk result (self.new.bytes ≡ self.old.bytes ++ values_text form hits) }
        ensures unchanged_on_err { OnErr result (self.new.bytes ≡ self.old.bytes) }
        ensures room_on_err { OnErr result (self.old.room ≤ self.new.room) }
    {
        let Some(room) = room_to_compose(hits.as_slice()) else {
            self.settle();
            return self.written.write_values(form, hits.as_slice());
        };
        let Some(all) = self.taken.checked_add(room) else {
            return Err(NoMemory);
        };
        self.written.reserve(all)?;
        push_owed(&mut self.owed, form, room, hits)?;
        self.taken = all;
        Ok(())
    }

    /// Writes all owed replies.
    pub fn settle(&mut self)
        ensures bytes { self.new.bytes ≡ self.old.bytes }
        ensures written { self.new.unwritten ≡ 0 }
        ensures room { self.old.room ≤ self.new.room }
    {
        write_owed(&mut self.written, &mut self.owed);
        self.taken = 0;
    }

    /// Returns the bytes that wait and are written.
    pub fn parts(&self) -> Parts<'_>
        ensures parts { result ≡ take (length self.now.bytes - self.now.unwritten) self.now.bytes }
        ensures whole { self.now.unwritten ≡ 0 → result ≡ self.now.bytes }
    {
        self.written.parts()
    }

    /// Returns a copy of all bytes that wait, owed replies included.
    pub fn to_vec(&self, alloc: Global) -> Result<Vec<u8>, NoMemory>
        ensures { IfOk result (λ bytes. bytes.items ≡ self.now.bytes) }
    {
        let mut bytes = self.written.parts().to_vec(alloc)?;
        for reply in &self.owed {
            append_composed(&mut bytes, reply.room, reply.form, reply.hits.as_slice())?;
        }
        Ok(bytes)
    }

    /// Estimates how many bytes wait: the written ones and the room made for owed replies. No
    /// clause promises it.
    pub fn about(&self) -> usize {
        self.written.len().saturating_add(self.taken)
    }

    /// Whether bytes wait, written or owed.
    pub fn has_some(&self) -> bool
        ensures { IsTrue result ↔ (0 < length self.now.bytes) }
    {
        owes(&self.owed) || self.written.len() > 0
    }

    /// Drops the first `n` bytes, which were sent, and writes owed replies first. Frees room as
    /// `Output::sent` does.
    #[tactic(auto, using(crate::proofs::Owing::owed_room_none))]
    pub fn sent(&mut self, n: usize)
        ensures { self.new.bytes ≡ drop n self.old.bytes }
    {
        self.settle();
        self.written.sent(n);
    }
}
