//! All steps of a server over any cache: connections, the clock and maintenance.
//!
//! The machine is in `specs/ServerMachine.antt`: the protocol of tc_session over the cache of
//! tc_plain. `Server::step` does one step of it. Its contract says for each kind of step what a
//! refusal of memory leaves (`specs/Refused.antt`).
//!
//! `run` does all steps, and its contract is the server's promise. Connections are sent what the
//! machine sends. Each user's connections are sent what the machine of that user alone sends. The
//! premises are that each user begins with a fresh cache, and that no memory is refused.
#![tactic(auto)]

mod doing;
mod outputs;
mod running;
mod server;
mod step;

pub use outputs::{Output, Outputs, Sent};
pub use running::run;
pub use server::Server;
pub use step::{ConnectionNo, Happening, Step};
pub use tc_fresh::fresh_caches;
