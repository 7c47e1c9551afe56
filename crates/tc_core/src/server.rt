//! A server in memory: users, their caches, the clock and all connections.
ghost use Rattle.std.specs.Prelude.{◌≡◌, ℕ, List, [], map, OnOk, OnErr, IfOk};
ghost use Rattle.tc_model.specs.Connection.{user_at};
ghost use Rattle.tc_model.specs.Server.{step as machine_step, maintained, On};
ghost use Rattle.tc_core.specs.ServerMachine.{State, server_machine};
ghost use Rattle.tc_core.specs.Steps.{step_of, numbered_of, happening_of};
ghost use Rattle.tc_core.specs.Refused.{IsRefusedStep};
ghost use Rattle.tc_core.specs.Sending.{output_of};

use crate::doing::numbered_step;
use crate::outputs::{Outputs, outputs_of};
use crate::step::{ConnectionNo, Happening, Step};
use std::alloc::Global;
use std::collections::BTreeMap;
use std::marker::Model;
use tc_item::{Moment, NoMemory};
use tc_plain::Cache;
use tc_session::Session;
use tc_users::Users;

/// The users, their caches, the clock and all connections.
#[derive(Drop)]
pub struct Server<C: Cache> {
    users: Users,
    caches: Vec<C>,
    clock: Moment,
    sessions: BTreeMap<u32, Session>,
}

impl<C: Cache> Model for Server<C> {
    ghost use Rattle.std.specs.Prelude.{map};
    ghost use Rattle.tc_core.specs.ServerMachine.{State};
    ghost use Rattle.tc_core.specs.Steps.{numbered_of};

    ghost Value = { State };

    ghost view = { λ s. record {
      users = s.users;
      world = record {
        clock = s.clock;
        caches = map C.settled s.caches.items;
        connections = map numbered_of s.sessions.entries;
      };
    } };
}

/// Does up to `limit` pieces of deferred work in a user's cache. An unknown user is left alone.
fn maintain<C: Cache>(caches: &mut Vec<C>, clock: Moment, user: u32, limit: u32)
    ensures { map C.settled caches.new.items
        ≡ maintained server_machine clock (map C.settled caches.old.items) user
        (user_at (map C.settled caches.old.items) user) }
{
    if user == 0 || user as usize > caches.len() {
        return;
    }
    let cache = &mut caches[user as usize - 1];
    cache.maintain(clock, limit);
}

impl<C: Cache> Server<C> {
    /// Returns a server of these users, each with the cache at the same position. No connection is
    /// open, and the clock is at 0.
    pub fn new(alloc: Global, users: Users, caches: Vec<C>) -> Server<C>
        ensures { result ≡ record {
          users = users;
          world = record { clock = 0; caches = map C.settled caches.items; connections = [] };
        } }
    {
        Server {
            users,
            caches,
            clock: Moment::FIRST,
            sessions: BTreeMap::new(alloc),
        }
    }

    /// Does one step of the machine. Only a connection's step can be refused memory. Then the
    /// users, the clock, and all other connections and caches are unchanged.
    ///
    /// A refused opening or piece changes nothing. A refused act may leave its request unread, and
    /// changes nothing. Otherwise its request was a call, and is spent. Its reply is `SERVER_ERROR
    /// out of memory`, unless its line has `noreply`. Either the cache refused the command and is
    /// unchanged, or the reply to a look-up or to `stats` was refused, and the command is done.
    pub fn step(&mut self, alloc: Global, step: &Step) -> Result<(), NoMemory>
        ensures users { self.new.users ≡ self.old.users }
        ensures world { OnOk result (self.new.world
            ≡ machine_step server_machine self.old.users self.old.world (step_of step.now)) }
        ensures refused { OnErr result (IsRefusedStep self.old self.new (step_of step.now)) }
    {
        match step {
            Step::On(number, happening) => self.connection_step(alloc, *number, *happening),
            Step::Tick(moment) => {
                self.clock = self.clock.later(*moment);
                Ok(())
            }
            Step::Maintain(user, limit) => {
                maintain(&mut self.caches, self.clock, *user, *limit);
                Ok(())
            }
        }
    }

    /// Does a step of a connection.
    fn connection_step(
        &mut self,
        alloc: Global,
        number: ConnectionNo,
        happening: Happening,
    ) -> Result<(), NoMemory>
        ensures users { self.new.users ≡ self.old.users }
        ensures world { OnOk result (self.new.world ≡ machine_step server_machine self.old.users
            self.old.world (On number (happening_of happening.entry))) }
        ensures refused { OnErr result (IsRefusedStep self.old self.new
            (On number (happening_of happening.entry))) }
    {
        numbered_step(
            alloc,
            &self.users,
            &mut self.caches,
            self.clock,
            &mut self.sessions,
            number,
            happening,
        )
    }

    /// Returns all that each opened connection was sent, by rising number.
    pub fn outputs(&self, alloc: Global) -> Result<Outputs, NoMemory>
        ensures { IfOk result (λ outputs. outputs ≡ map output_of self.now.world.connections) }
    {
        outputs_of(alloc, &self.sessions)
    }
}
