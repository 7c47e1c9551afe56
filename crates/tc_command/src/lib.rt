//! The commands of `partcached`: `run` runs a script by tc_script's `run_script`, `check` checks settings, and `serve`
//! makes a server ready, which `main` hands to tc_net's `serve`. This crate makes the exit statuses and the lines on
//! standard error and standard output (docs/OPERATING.md). No clause says what is printed.
#![tactic(auto)]

mod addresses;
mod checking;
mod demo;
mod descriptors;
mod preparing;
mod reporting;
mod resident;
mod running;
mod serving;

pub use checking::check_file;
pub use preparing::Unready;
pub use reporting::{report_served, report_unasked, report_unready};
pub use running::run_input;
pub use serving::{Printing, Ready, make_ready};
