//! A turn of a worker over those of its connections that may have something to do.
ghost use Rattle.std.specs.Prelude.{◌≡◌, ◌*◌, List, IfSome, IfNone};
ghost use Rattle.std.specs.Prelude.{Some, None};
ghost use Rattle.tc_users.specs.declared.users.UserSpec.{UserSpec};
ghost use Rattle.tc_links.specs.Turns.{Serves, GoesOnOrEnds, goes_on};
ghost use Rattle.tc_workers.specs.SilentTurns.{ServesSilently};

use crate::listed::{Leaving, Listed};
use crate::worker::Worker;
use std::sync::Wait;
use tc_fairness::Reads;
use tc_item::Moment;
use tc_links::{Admitted, Gate, Holding, Onward, Pace, Patience, Service, Wire};
use tc_locked::{Clock, Hall, Lease, Naming};
use tc_plain::Cache;
use tc_users::{UserNo, Users};

impl<W: Wire + Drop, N: Naming> Worker<W, N> {
    /// Goes over the listed connections three times: each reads, each does requests, and each
    /// writes. Those left out of the last turn come first, and then the others by number.
    ///
    /// Done connections are dropped. Those that another worker must serve wait for `pass_on`. A
    /// connection goes first in the next turn if its user had its share, or has much deferred work
    /// in a new second.
    ///
    /// Returns how long the inlet may wait: not at all if a connection got on or was left out, and
    /// a moment if one must be tried again. Each command is one call of the hall, and a connection
    /// has 16 at most.
    pub fn turn<R: Wait, C: Cache, G: Gate>(
        &mut self,
        rt: &R,
        hall: &Hall<C, N>,
        users: &Users,
        clock: &Clock,
        gate: &G,
    ) -> Patience
        ensures serves { Serves (16 * self.old.due) users.now self.old self.new }
    {
        let service = Service {
            rt,
            alloc: self.alloc,
            hall,
            users,
            clock,
            gate,
        };
        self.begin_turn(users.rows().len());
        self.order();
        self.take_all_in(&service);
        self.do_all(&service);
        self.give_all_out(clock.now())
    }

    /// Begins a turn among `users` users.
    fn begin_turn(&mut self, users: usize)
        ensures { self.new ≡ self.old }
    {
        self.ahead.begin(0);
        let sole = self.sole_user();
        self.accounts.begin(users, sole);
    }

    /// Returns the user to whom all listed connections belong, if there is one.
    fn sole_user(&self) -> Option<usize> {
        let first = self.user_of(self.listed.first()?.key);
        for listed in &self.listed {
            if self.user_of(listed.key) != first {
                return None;
            }
        }
        Some(first)
    }

    /// Returns the user of a key's connection, 0 before its login.
    fn user_of(&self, key: usize) -> usize {
        match self.links.get(key) {
            Some(link) => link.user(),
            None => 0,
        }
    }

    /// Orders the listed connections by number, behind those that were left out. The connections of
    /// one client mostly have consecutive numbers. So replies to it follow one another, and a
    /// sleeping thread of it wakes once for several.
    fn order(&mut self)
        ensures { self.new ≡ self.old }
    {
        self.listed.sort_unstable_by_key(|listed| listed.rank());
    }

    /// The first part of the turn of each listed connection.
    fn take_all_in<R: Wait, C: Cache, G: Gate>(&mut self, service: &Service<'_, R, C, N, G>)
        ensures listed { self.new.due ≡ self.old.due }
        ensures serves { ServesSilently self.old self.new }
    {
        let now = service.clock.now();
        for at in 0..self.listed.len() {
            self.begin_visit(service, now, at);
        }
    }

    /// The first part of the turn of the connection at a place of the list, unless its user must
    /// wait.
    fn begin_visit<R: Wait, C: Cache, G: Gate>(
        &mut self,
        service: &Service<'_, R, C, N, G>,
        now: Moment,
        at: usize,
    )
        ensures listed { self.new.due ≡ self.old.due }
        ensures serves { ServesSilently self.old self.new }
    {
        let Some((key, before)) = self.admit(service, now, at) else {
            return;
        };
        self.take_in(service.rt, now, key, before);
    }

    /// The second part of the turn of each listed connection.
    fn do_all<'a, R: Wait, C: Cache, G: Gate>(&mut self, service: &Service<'a, R, C, N, G>)
        ensures serves { Serves (16 * self.old.due) service.now.users.now self.old self.new }
    {
        let mut lease = Lease::none();
        for at in 0..self.listed.len() {
            self.visit(service, &mut lease, at);
        }
        lease.release();
    }

    /// The second part of the turn of the connection at a place of the list. Before it, memory is
    /// read ahead for this connection and some behind it.
    fn visit<'a, R: Wait, C: Cache, G: Gate>(
        &mut self,
        service: &Service<'a, R, C, N, G>,
        lease: &mut Lease<'a, C, N>,
        at: usize,
    )
        ensures listed { self.new.due ≡ self.old.due }
        ensures serves { Serves 16 service.now.users.now self.old self.new }
    {
        self.read_ahead(service, lease, at);
        self.do_admitted(service, lease, at);
    }

    /// Reads ahead the memory of the keys that the next requests seem to ask for. It covers the
    /// connections from a place of the list up to the first of another user, unless that was done
    /// already.
    fn read_ahead<'a, R: Wait, C: Cache, G: Gate>(
        &mut self,
        service: &Service<'a, R, C, N, G>,
        lease: &mut Lease<'a, C, N>,
        at: usize,
    )
        ensures { self.new ≡ self.old }
    {
        if self.ahead.is_seen(at) {
            return;
        }
        let Some(user) = self.bound_at(at) else {
            return;
        };
        self.look_ahead(user, at);
        let hashes = self.ahead.hashes();
        if hashes.len() > 1 {
            service.hall.read_ahead(service.rt, lease, user, hashes);
        }
    }

    /// Returns the user of the login of the connection at a place of the list.
    fn bound_at(&self, at: usize) -> Option<UserNo> {
        let listed = self.listed.get(at)?;
        self.links.get(listed.key)?.bound()
    }

    /// Collects the keys that a user's connections seem to ask for, as far as there is room. It
    /// begins at a place of the list and ends before the first connection of another user.
    fn look_ahead(&mut self, user: UserNo, from: usize)
        ensures { self.new ≡ self.old }
    {
        self.ahead.begin(from);
        for at in from..self.listed.len() {
            if !self.look_at(user, at) {
                break;
            }
        }
    }

    /// Collects the keys of the connection at a place of the list. Returns whether it is this
    /// user's or is left out of the turn, and there was room.
    fn look_at(&mut self, user: UserNo, at: usize) -> bool
        ensures { self.new ≡ self.old }
    {
        if self.ahead.is_full() {
            return false;
        }
        if let Some(listed) = self.listed.get(at)
            && listed.is_admitted()
            && let Some(link) = self.links.get(listed.key)
            && !link.look_ahead(user, &mut self.ahead)
        {
            return false;
        }
        self.ahead.note_seen(at);
        true
    }

    /// Does the requests of the connection at a place of the list, unless its user must wait.
    fn do_admitted<'a, R: Wait, C: Cache, G: Gate>(
        &mut self,
        service: &Service<'a, R, C, N, G>,
        lease: &mut Lease<'a, C, N>,
        at: usize,
    )
        ensures listed { self.new.due ≡ self.old.due }
        ensures serves { Serves 16 service.now.users.now self.old self.new }
    {
        let Some((key, before)) = self.admit_again(at) else {
            return;
        };
        self.do_requests(service, lease, key, before);
    }

    /// Returns the key of the connection at a place of the list, and what is kept for it. `None` if
    /// it was not admitted to this turn, or if its user has no share left and the turn leaves it
    /// out.
    fn admit_again(&mut self, at: usize) -> Option<(usize, Holding)>
        ensures { self.new ≡ self.old }
    {
        let listed = self.listed.get_mut(at)?;
        if !listed.is_admitted() {
            return None;
        }
        let link = self.links.get_mut(listed.key)?;
        let holding = link.holding();
        let is_served = self.accounts.has_share(holding.user);
        listed.note(is_served, self.accounts.turn());
        if !is_served {
            return None;
        }
        link.set_most_out(self.accounts.most_out(holding));
        Some((listed.key, holding))
    }

    /// Admits the connection at a place of the list, and returns its key and what is kept for it.
    /// `None` if the turn leaves it out. A connection that held it up must end.
    fn admit<R: Wait, C: Cache, G: Gate>(
        &mut self,
        service: &Service<'_, R, C, N, G>,
        now: Moment,
        at: usize,
    ) -> Option<(usize, Holding)>
        ensures { self.new ≡ self.old }
    {
        let listed = self.listed.get_mut(at)?;
        let key = listed.key;
        let link = self.links.get_mut(key)?;
        let holding = link.holding();
        let is_served = self.accounts.serves(service, holding.user, now);
        listed.admit(is_served, self.accounts.turn());
        if !is_served {
            return None;
        }
        let reads = self.accounts.reads(key, holding, now);
        link.admit(Admitted {
            user: holding.user,
            now,
            most_out: self.accounts.most_out(holding),
            is_read: reads != Reads::No,
        });
        if let Reads::For(other) = reads {
            self.give_up(service, other);
        }
        Some((key, holding))
    }

    /// Makes a key's connection end, since it holds up others of its user.
    fn give_up<R: Wait, C: Cache, G: Gate>(&mut self, service: &Service<'_, R, C, N, G>, key: usize)
        ensures { self.new ≡ self.old }
    {
        if let Some(link) = self.links.get_mut(key) {
            link.give_up(service.rt);
        }
    }

    /// The last part of the turn of each listed connection. Returns how long the inlet may wait.
    fn give_all_out(&mut self, now: Moment) -> Patience
        ensures serves { ServesSilently self.old self.new }
    {
        let mut one_got_on = false;
        let mut at = 0;
        for _ in 0..self.listed.len() {
            if at >= self.listed.len() {
                break;
            }
            let listed = self.listed[at];
            match self.end_visit(now, listed) {
                Onward::GoesOn(Pace::GetsOn) => {
                    one_got_on = true;
                    at += 1;
                }
                Onward::GoesOn(Pace::Tries) => at += 1,
                Onward::GoesOn(Pace::Rests) | Onward::Done => {
                    let _ = self.listed.swap_remove(at);
                }
            }
        }
        match (one_got_on, self.listed.is_empty()) {
            (true, _) => Patience::Hurried,
            (false, false) => Patience::Brief,
            (false, true) => Patience::Long,
        }
    }

    /// The first part of one connection's turn. A connection that is over is dropped.
    fn take_in<R: Wait>(&mut self, rt: &R, now: Moment, key: usize, before: Holding)
        ensures listed { self.new.due ≡ self.old.due }
        ensures serves { ServesSilently self.old self.new }
    {
        if !self.read(rt, now, key, before) {
            self.let_go(key);
        }
    }

    /// Reads on one connection, for which `before` was kept. Returns whether it goes on.
    fn read<R: Wait>(&mut self, rt: &R, now: Moment, key: usize, before: Holding) -> bool
        ensures listed { self.new.due ≡ self.old.due }
        ensures serves { (rows : List UserSpec) → GoesOnOrEnds 0 rows key result self.old self.new }
    {
        match self.links.get_mut(key) {
            Some(link) => {
                let goes_on = link.take_in(rt, self.alloc, self.buffer.as_mut_slice());
                self.accounts
                    .note(key, before, link.holding(), link.work(), now);
                goes_on
            }
            None => true,
        }
    }

    /// The second part of one connection's turn. A connection that is over is dropped.
    fn do_requests<'a, R: Wait, C: Cache, G: Gate>(
        &mut self,
        service: &Service<'a, R, C, N, G>,
        lease: &mut Lease<'a, C, N>,
        key: usize,
        before: Holding,
    )
        ensures listed { self.new.due ≡ self.old.due }
        ensures serves { Serves 16 service.now.users.now self.old self.new }
    {
        if !self.serve(service, lease, key, before) {
            self.let_go(key);
        }
    }

    /// Does requests on one connection, for which `before` was kept, and writes if much waits to be
    /// sent. Returns whether it goes on.
    fn serve<'a, R: Wait, C: Cache, G: Gate>(
        &mut self,
        service: &Service<'a, R, C, N, G>,
        lease: &mut Lease<'a, C, N>,
        key: usize,
        before: Holding,
    ) -> bool
        ensures listed { self.new.due ≡ self.old.due }
        ensures serves { GoesOnOrEnds 16 service.now.users.now key result self.old self.new }
    {
        match self.links.get_mut(key) {
            Some(link) => {
                let goes_on = link.do_requests(service, &mut self.desk, lease);
                let now = service.clock.now();
                self.accounts
                    .note(key, before, link.holding(), link.work(), now);
                goes_on
            }
            None => true,
        }
    }

    /// The last part of the turn of a listed connection. One that was left out gets on in the next
    /// turn.
    fn end_visit(&mut self, now: Moment, listed: Listed) -> Onward
        ensures listed { self.new.due ≡ self.old.due }
        ensures serves { ServesSilently self.old self.new }
    {
        if self.waits(listed) {
            return Onward::GoesOn(Pace::GetsOn);
        }
        self.give_out(now, listed.key)
    }

    /// Whether a listed connection was left out of the turn. A connection that the turn dropped was
    /// not.
    fn waits(&self, listed: Listed) -> bool {
        listed.waits() && self.links.contains(listed.key)
    }

    /// The last part of one connection's turn. A done connection is dropped, one that rests leaves
    /// the list, and one that another worker must serve is done here.
    fn give_out(&mut self, now: Moment, key: usize) -> Onward
        ensures listed { self.new.due ≡ self.old.due }
        ensures serves { ServesSilently self.old self.new }
    {
        let Some(onward) = self.write(now, key) else {
            return Onward::Done;
        };
        match onward {
            Onward::GoesOn(pace) => self.leave_or_stay(key, pace),
            Onward::Done => {
                self.let_go(key);
                Onward::Done
            }
        }
    }

    /// Writes on one connection, and looks at it once more; `None` if the key has none.
    fn write(&mut self, now: Moment, key: usize) -> Option<Onward>
        ensures listed { self.new.due ≡ self.old.due }
        ensures serves { IfSome result (λ onward. (rows : List UserSpec)
            → GoesOnOrEnds 0 rows key (goes_on onward) self.old self.new) }
        ensures none { IfNone result (self.new ≡ self.old) }
    {
        let Some(link) = self.links.get_mut(key) else {
            return None;
        };
        let before = link.holding();
        let onward = link.give_out(now, self.buffer.as_mut_slice());
        self.accounts
            .note(key, before, link.holding(), link.work(), now);
        Some(onward)
    }

    /// Decides whether a connection that goes on leaves for another worker or stays with this pace.
    fn leave_or_stay(&mut self, key: usize, pace: Pace) -> Onward
        ensures listed { self.new.due ≡ self.old.due }
        ensures serves { ServesSilently self.old self.new }
    {
        let Some(link) = self.links.get_mut(key) else {
            return Onward::Done;
        };
        if let Some(to) = link.leaves_for(&self.homes)
            && self.leaving.push(Leaving { key, to }).is_ok()
        {
            return Onward::Done;
        }
        link.note_pace(pace);
        Onward::GoesOn(pace)
    }
}
