//! Scripts of steps: each runs on a server of its own, from the beginning, and prints what
//! connections were sent.
//!
//! `Script::read` returns the plan that a text has line by line, or the number of its first refused
//! line (`specs/Plans.antt` over `specs/ScriptLines.antt`). `play` does a plan on the server's
//! machine (`specs/Playing.antt`), and promises about what connections were sent all that
//! `tc_core::run` promises. `print` makes text of it (`specs/Printing.antt`).
//!
//! The contract of `run_script` is in `specs/Answering.antt`. It applies if the reader and the
//! writer say what they hold. Then the output is the text of such a run of the script that was
//! read, or a front part of it after a failed write. No clause says that memory suffices, or when a
//! read or a write fails.
#![tactic(auto)]

mod action;
mod fields;
mod line;
mod playing;
mod printing;
mod running;
mod script;
mod step_line;
mod unescape;

pub use action::{Action, Bytes};
pub use playing::play;
pub use printing::print;
pub use running::{Ended, run_script};
pub use script::{Script, ScriptFault};
