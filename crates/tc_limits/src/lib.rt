//! The addresses that a server listens on and the limits on its connections, as values.
//! `tc_settings` reads them from a text. `tc_connections` and `tc_net` use them and know of no
//! text.
//!
//! Contracts see an `Address` as its text, and `LimitsByUser` as the list of users' limits.
#![tactic(auto)]

mod address;
mod limits;

pub use address::Address;
pub use limits::{ConnectionLimits, LimitsByUser, UserLimits};
