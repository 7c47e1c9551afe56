//! The numbers that several crates share. `specs/Bounds.antt` has them for contracts.

/// The smallest budget of a user, in bytes.
pub const SMALLEST_BUDGET: u64 = 65_536;

/// The largest budget of a user, in bytes.
pub const LARGEST_BUDGET: u64 = 1 << 30;

/// The most data that an item may have, in bytes.
pub const LARGEST_ITEM: u32 = 1_048_576;

/// The weight of an item's record, in bytes: what it weighs beyond its key and its data.
pub const RECORD_WEIGHT: u64 = 64;

/// The longest key, in bytes.
pub const LONGEST_KEY: usize = 250;

/// The longest exptime that counts from now, in seconds: thirty days.
pub const LONGEST_OFFSET: i64 = 2_592_000;

/// The first second that is no moment.
pub const MOMENT_LIMIT: u64 = 1 << 40;
