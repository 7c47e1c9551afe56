//! Numbers that bound the settings. `specs/Bounds.antt` has them for contracts.

/// The most workers, the threads that serve connections.
pub const MOST_WORKERS: usize = 64;

/// The fewest entries of a journal's page.
pub const SMALLEST_PAGE: usize = 16;

/// The most entries of a journal's page.
pub const LARGEST_PAGE: usize = 65_536;

/// The greatest value of a limit in seconds.
pub const MOST_SECONDS: u32 = 86_400;

/// The greatest value of a limit on the number of connections.
pub const MOST_CONNECTIONS: u32 = 1_024;

/// The entries of a journal's page if the settings do not say.
pub const DEFAULT_PAGE: usize = 65_536;
