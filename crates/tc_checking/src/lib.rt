//! Checks settings for those who wrote them. `partcached check` prints the memory that they take and warnings; `serve`
//! prints warnings of fields that are ignored, and of who else may know the tokens. No clause says what is printed:
//! docs/OPERATING.md does.
#![tactic(auto)]

mod checking;
mod sizing;
mod warning;

pub use checking::{name_of, print_settings, warn_of_descriptors, warn_of_tokens};
pub use sizing::ItemSize;
pub use warning::{warn, warn_of_mode};
