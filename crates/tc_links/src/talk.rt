//! A connection as its worker keeps it, with its history since it was opened.
ghost use Rattle.std.specs.Prelude.{◌≡◌, ◌≢◌, ◌≤◌, ℕ, List, [], true};
ghost use Rattle.tc_users.specs.declared.users.UserSpec.{UserSpec};
ghost use Rattle.tc_links.specs.Talks.{Talks, Carries};
ghost use Rattle.tc_links.specs.Lives.{IsOpened, IsOpen, HasTalk};
ghost use Rattle.tc_links.specs.Turns.{most_kept};

use crate::admitted::Admitted;
use crate::ahead::Ahead;
use crate::desk::Desk;
use crate::gate::Gate;
use crate::holding::Holding;
use crate::homes::Homes;
use crate::link::Link;
use crate::pace::{Onward, Pace};
use crate::service::Service;
use crate::wire::{Change, Wire};
use http_server::Log;
use std::alloc::Global;
use std::marker::Model;
use std::sync::Wait;
use tc_item::Moment;
use tc_locked::{Lease, Naming};
use tc_plain::Cache;
use tc_users::{UserNo, Users};

/// A connection. Contracts see its link, the users' tables by which it was served, and how often it
/// was done; both lists exist in proofs alone. While it goes on and one table serves it, its moves
/// say all: what its wire gave and took since it was opened, and what was said to it.
#[derive(Drop)]
pub struct Talk<W: Wire + Drop> {
    link: Link<W>,
    /// The users' table of each turn.
    tables: Log<Users, ()>,
    /// An entry for each time that it was done.
    ends: Log<(), ()>,
}

impl<W: Wire + Drop> Model for Talk<W> {
    ghost use Rattle.std.specs.Prelude.{length};
    ghost use Rattle.tc_links.specs.Lives.{TalkState, HasTalk, tables_in};

    ghost Value = { TalkState };

    ghost view = { λ t. record {
      link = t.link;
      tables = tables_in t.tables.items;
      ends = length t.ends.items;
    } };

    ghost invariant = { λ t. HasTalk (record {
      link = t.link;
      tables = tables_in t.tables.items;
      ends = length t.ends.items;
    }) };
}

impl<W: Wire + Drop> Talk<W> {
    /// Opens a connection.
    pub fn new(alloc: Global, conn: u32, wire: W) -> Talk<W>
        ensures { IsOpened conn (W.gave wire) (W.took wire) result }
    {
        Talk {
            link: Link::new(alloc, conn, wire),
            tables: Log::new(),
            ends: Log::new(),
        }
    }

    /// Returns the wire of a connection that is given up.
    pub fn into_wire(self) -> W {
        let Talk {
            link,
            tables: _,
            ends: _,
        } = self;
        link.into_wire()
    }

    /// States that it is a talk since it was opened, while it goes on and one table serves it. It
    /// does nothing.
    pub fn is_talk(&self)
        ensures { HasTalk self.now }
    {
        let _ = &self.link;
    }

    /// Makes an inlet's change to its wire, when the inlet passes it on or takes it over. Returns
    /// whether the change succeeded.
    pub fn change_wire<C: Change<W>>(&mut self, change: C) -> bool
        ensures { self.new ≡ self.old }
    {
        self.link.change_wire(change)
    }

    /// Returns its number.
    pub fn conn(&self) -> u32
        ensures { result ≡ self.now.link.conn }
    {
        self.link.conn
    }

    /// Returns the worker that must serve it, if that is another one; `None` before its login.
    pub fn leaves_for(&mut self, homes: &Homes) -> Option<usize>
        ensures { self.new ≡ self.old }
    {
        self.link.leaves_for(homes)
    }

    /// Notes that it is on its worker's list, and returns whether it was not.
    pub fn note_listed(&mut self) -> bool
        ensures { self.new ≡ self.old }
    {
        self.link.note_listed()
    }

    /// Notes its pace. A connection that rests leaves the list.
    pub fn note_pace(&mut self, pace: Pace)
        ensures { self.new ≡ self.old }
    {
        self.link.note_pace(pace);
    }

    /// Returns whose account it is on (`Link::user`).
    pub fn user(&self) -> usize {
        self.link.user()
    }

    /// Admits it to a turn.
    pub fn admit(&mut self, admitted: Admitted)
        ensures { self.new ≡ self.old }
    {
        self.link.admit(admitted);
    }

    /// Sets with how many bytes that wait to be sent it is not full yet.
    pub fn set_most_out(&mut self, most_out: usize)
        ensures { self.new ≡ self.old }
    {
        self.link.set_most_out(most_out);
    }

    /// Returns whose account it is on, and how many of its bytes are kept.
    pub fn holding(&self) -> Holding {
        self.link.holding()
    }

    /// Makes its wire end, since it holds up others of its user.
    pub fn give_up<R: Wait>(&mut self, rt: &R)
        ensures { self.new ≡ self.old }
    {
        self.link.give_up(rt);
    }

    /// Returns the work of the last part of a turn, in quarters of a microsecond.
    pub fn work(&self) -> u64 {
        self.link.work()
    }

    /// Passes its key to the wire.
    pub fn set_key(&mut self, key: usize)
        ensures { self.new ≡ self.old }
    {
        self.link.set_key(key);
    }

    /// Returns the user of its login.
    pub fn bound(&self) -> Option<UserNo> {
        self.link.bound()
    }

    /// Adds the keys that its next requests seem to ask for, if it is this user's. Returns whether
    /// it is.
    pub fn look_ahead(&self, user: UserNo, ahead: &mut Ahead) -> bool {
        self.link.look_ahead(user, ahead)
    }

    /// Returns how many of its bytes are unread.
    pub fn unread_len(&self) -> usize
        ensures most { result ≤ most_kept }
        ensures talk { HasTalk self.now }
    {
        self.link.unread_len()
    }

    /// The first part of a turn (`Link::take_in`). Returns whether the connection goes on.
    pub fn take_in<R: Wait>(&mut self, rt: &R, alloc: Global, buffer: &mut [u8]) -> bool
        ensures moved { (lost : List ℕ) × Carries [] lost self.old.link self.new.link
            × (result ≡ true → lost ≡ []) }
        ensures stays { result ≡ true
            → (rows : List UserSpec) → IsOpen rows self.old → IsOpen rows self.new }
    {
        if self.link.take_in(rt, alloc, buffer) {
            return true;
        }
        self.ends = self.ends.and(&(), &());
        false
    }

    /// The second part of a turn (`Link::do_requests`). Returns whether the connection goes on.
    pub fn do_requests<'a, R: Wait, C: Cache, N: Naming, G: Gate>(
        &mut self,
        service: &Service<'a, R, C, N, G>,
        desk: &mut Desk<N>,
        lease: &mut Lease<'a, C, N>,
    ) -> bool
        ensures moved { (sent : List ℕ)
            × Talks 16 service.now.users.now sent []
            self.old.link self.new.link desk.old desk.new }
        ensures stays { result ≡ true
            → IsOpen service.now.users.now self.old → IsOpen service.now.users.now self.new }
    {
        self.tables = self.tables.and(service.users, &());
        if self.link.do_requests(service, desk, lease) {
            return true;
        }
        self.ends = self.ends.and(&(), &());
        false
    }

    /// The last part of a turn (`Link::give_out`).
    pub fn give_out(&mut self, now: Moment, buffer: &mut [u8]) -> Onward
        ensures moved { (sent lost : List ℕ) × Carries sent lost self.old.link self.new.link
            × (result ≢ Onward.Done → lost ≡ []) }
        ensures stays { result ≢ Onward.Done
            → (rows : List UserSpec) → IsOpen rows self.old → IsOpen rows self.new }
    {
        match self.link.give_out(now, buffer) {
            Onward::GoesOn(pace) => Onward::GoesOn(pace),
            Onward::Done => {
                self.ends = self.ends.and(&(), &());
                Onward::Done
            }
        }
    }
}
