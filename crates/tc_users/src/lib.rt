//! The users of a server, whom a login's data belongs to, and why settings are refused.
//!
//! Contracts see a user's row as plain data, a `Text` as its bytes, and a `UserNo` as its number.
//! They see `Users` as the list of rows, whose users are numbered from 1 in that order.
//!
//! `Users::build` takes rows that have no fault, and otherwise returns the first one
//! (`specs/Faults.antt`). `Users::login` returns the user of the first row that the data opens
//! (`specs/Login.antt`). A `SettingsFault` says what is wrong with rows, or with a settings text,
//! which `tc_settings` reads. No clause has the words of faults.
#![tactic(auto)]

mod bounds;
mod checks;
mod limits;
mod settings_fault;
mod text;
mod user_no;
mod users;

pub use bounds::{LONGEST_NAME, LONGEST_TOKEN};
pub use checks::{
    check_budget, check_largest, check_name, check_other_token, check_own_name, check_token,
};
pub use limits::Limit;
pub use settings_fault::{Field, Found, SettingsFault, TextFault};
pub use text::Text;
pub use user_no::UserNo;
pub use users::{UserSpec, Users, push_row};
