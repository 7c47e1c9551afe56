//! The settings of a server, read from a TOML text: the addresses it listens on, the number of
//! workers, its users, and the limits on their connections.
//!
//! `Settings::from_toml` reads the table that the TOML reader finds in a text
//! (`specs/SettingsTable.antt`); its contract is `IsAnswer`. `tc_users` has users' rows and their
//! faults, and `tc_limits` addresses and limits.
//!
//! No clause says where a text that is not TOML is wrong. Only for a text of white space and
//! comments does a clause say that memory suffices.
#![tactic(auto)]

mod bounds;
mod fields;
mod known;
mod limit_fields;
mod settings;
mod user_table;

pub use bounds::{
    DEFAULT_PAGE, LARGEST_PAGE, MOST_CONNECTIONS, MOST_SECONDS, MOST_WORKERS, SMALLEST_PAGE,
};
pub use known::{is_field, is_metrics_field, is_user_field};
pub use settings::Settings;
