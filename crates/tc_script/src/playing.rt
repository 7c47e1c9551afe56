//! Does the actions of a script.
ghost use Rattle.std.specs.Prelude.{◌≡◌, ℕ, ◌∷◌, [], IfOk, OnOk, replicate};
ghost use Rattle.std.specs.List.{flat_map};
ghost use Rattle.tc_model.specs.Connection.{Act as ActHappening};
ghost use Rattle.tc_model.specs.Server.{steps_from, On};
ghost use Rattle.tc_core.specs.ServerMachine.{server_machine};
ghost use Rattle.tc_core.specs.Sending.{IsPromised};
ghost use Rattle.tc_script.specs.Playing.{steps_of, plan_steps, outputs_for};

use crate::action::Action;
use crate::script::Script;
use std::alloc::Global;
use std::hash::RandomState;
use tc_core::{Happening, Outputs, Server, Step};
use tc_item::NoMemory;
use tc_kinds::{Kind, begin_all};
use tc_plain::{Cache, advancing, freshness};

/// Returns a byte repeated `count` times.
fn filled(alloc: Global, count: u32, byte: u8) -> Result<Vec<u8>, NoMemory>
    ensures { IfOk result (λ bytes. bytes.items ≡ replicate count byte) }
{
    let mut bytes = Vec::new(alloc);
    bytes.resize(count as usize, byte)?;
    Ok(bytes)
}

/// Does the next `count` requests of a connection.
fn act_often<C: Cache>(
    server: &mut Server<C>,
    alloc: Global,
    connection: u32,
    count: u32,
) -> Result<(), NoMemory>
    ensures users { server.new.users ≡ server.old.users }
    ensures world { OnOk result (server.new.world ≡ steps_from server_machine server.old.users
        server.old.world (replicate count (On connection ActHappening))) }
{
    for _ in 0..count {
        server.step(alloc, &Step::On(connection, Happening::Act))?;
    }
    Ok(())
}

/// Does one action.
fn perform<C: Cache>(server: &mut Server<C>, alloc: Global, action: &Action) -> Result<(), NoMemory>
    ensures users { server.new.users ≡ server.old.users }
    ensures world { OnOk result (server.new.world
        ≡ steps_from server_machine server.old.users server.old.world (steps_of action.now)) }
{
    match action {
        Action::Open(connection) => server.step(alloc, &Step::On(*connection, Happening::Open)),
        Action::Piece(connection, bytes) => {
            server.step(
                alloc,
                &Step::On(*connection, Happening::Piece(bytes.as_bytes())),
            )
        }
        Action::Fill(connection, count, byte) => {
            let bytes = filled(alloc, *count, *byte)?;
            server.step(alloc, &Step::On(*connection, Happening::Piece(&bytes)))
        }
        Action::Act(connection, count) => act_often(server, alloc, *connection, *count),
        Action::Shut(connection) => server.step(alloc, &Step::On(*connection, Happening::Shut)),
        Action::Tick(moment) => server.step(alloc, &Step::Tick(*moment)),
        Action::Keep(user, limit) => server.step(alloc, &Step::Maintain(*user, *limit)),
    }
}

/// Does all actions, in order.
fn perform_all<C: Cache>(
    server: &mut Server<C>,
    alloc: Global,
    actions: &[Action],
) -> Result<(), NoMemory>
    ensures users { server.new.users ≡ server.old.users }
    ensures world { OnOk result (server.new.world ≡ steps_from server_machine server.old.users
        server.old.world (flat_map steps_of actions.now)) }
{
    for action in actions {
        perform(server, alloc, action)?;
    }
    Ok(())
}

/// Does all of a script's steps, from the beginning, and returns what connections were sent.
fn play_all<C: Kind>(
    alloc: Global,
    hasher: RandomState,
    script: Script,
) -> Result<Outputs, NoMemory>
    ensures { IfOk result (λ outputs. outputs ≡ outputs_for script) }
{
    let (users, actions) = script.into_parts();
    let caches = begin_all::<C>(alloc, &users, hasher)?;
    let mut server = Server::new(alloc, users, caches);
    perform_all(&mut server, alloc, &actions)?;
    server.outputs(alloc)
}

/// Does a script from the beginning, each user with an empty cache of the kind, and returns what
/// each connection was sent. It stops, and fails, at the first refusal of memory.
///
/// `promised` is all that `tc_core::run` promises about steps. The output is what the server's
/// machine sends (`sent`), each user's connections are sent what that user's machine alone sends
/// (`isolated`), and so on.
pub fn play<C: Kind>(
    alloc: Global,
    hasher: RandomState,
    script: Script,
) -> Result<Outputs, NoMemory>
    ensures promised { IfOk result (λ outputs. IsPromised script.users
        (plan_steps script) outputs) }
{
    advancing();
    freshness();
    play_all::<C>(alloc, hasher, script)
}
