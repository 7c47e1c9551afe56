//! The longest names and tokens. `specs/Bounds.antt` has the numbers for contracts.

/// The most bytes of a user's name.
pub const LONGEST_NAME: usize = 64;

/// The most bytes of a token.
pub const LONGEST_TOKEN: usize = 128;
