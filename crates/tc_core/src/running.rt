//! All steps of a server, and the promise about them.
ghost use Rattle.std.specs.Prelude.{◌≡◌, map, IfOk};
ghost use Rattle.tc_fresh.specs.Beginning.{fresh_cache};
ghost use Rattle.tc_core.specs.Steps.{step_of};
ghost use Rattle.tc_core.specs.Sending.{IsRun, IsIsolatedRun, IsUntouchedRun, IsIndifferentRun, IsFreshRun};

use crate::outputs::Outputs;
use crate::server::Server;
use crate::step::Step;
use std::alloc::Global;
use tc_item::NoMemory;
use tc_plain::{Cache, advancing, freshness};
use tc_users::Users;

/// Does all steps from the beginning, and returns all that each connection was sent. It stops, and
/// fails, at the first refusal of memory.
///
/// The clauses hold for any users, cache and steps, if each user's cache is fresh:
///
/// - `sent`: connections are sent what the machine of the protocol and the plain cache sends.
/// - `isolated`: each user's connections are sent what the machine of that user alone sends on
///   the steps of those connections and of the clock.
/// - `untouched`: what a connection bound to nobody is sent depends on its own steps alone.
/// - `indifferent`: a user with the same row in another table, and the same steps there, is sent
///   the same.
/// - `fresh`: each hit shown to a user's connections is what the user's earlier commands last
///   left under its key, never an expired, deleted or flushed item.
pub fn run<C: Cache>(
    alloc: Global,
    users: Users,
    caches: Vec<C>,
    steps: &[Step],
) -> Result<Outputs, NoMemory>
    requires { map C.settled caches.items ≡ map fresh_cache users }
    ensures sent { IfOk result (λ outputs. IsRun users (map step_of steps.now) outputs) }
    ensures isolated { IfOk result (λ outputs. IsIsolatedRun users
        (map step_of steps.now) outputs) }
    ensures untouched { IfOk result (λ outputs. IsUntouchedRun users
        (map step_of steps.now) outputs) }
    ensures indifferent { IfOk result (λ outputs. IsIndifferentRun users
        (map step_of steps.now) outputs) }
    ensures fresh { IfOk result (λ outputs. IsFreshRun users (map step_of steps.now) outputs) }
{
    advancing();
    freshness();
    let mut server = Server::new(alloc, users, caches);
    for step in steps {
        server.step(alloc, step)?;
    }
    server.outputs(alloc)
}
