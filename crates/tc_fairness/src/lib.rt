//! How a worker is fair to its users and their clients, and who helps it.
//!
//! - `dealing.rt` deals turns out by user. Each turn pays each user a share of work. A user who did
//!   more than its shares is left out while others have something to do. It also bounds what waits
//!   to be sent to a user.
//! - `half_blocks.rt` bounds the unread bytes of half blocks of a user.
//! - `guesses.rt` delays the replies to a client that guesses tokens.
//! - `balance.rt` gives helpers by trial to a worker with no time left. It goes by what all workers
//!   did (`did.rt`), and sets the shares by which helpers serve (`shares.rt`).
//!
//! Nothing here touches a socket, a lock or a cache. No clause covers helpers: whoever serves a
//! connection, its client is sent the same bytes.
#![tactic(auto)]

mod balance;
mod dealing;
mod did;
mod guesses;
mod half_blocks;
mod shares;

pub use balance::Balance;
pub use dealing::{Backlog, Dealing, LEAST_OUT, PIECES, SHARE};
pub use did::{Did, Traffic};
pub use guesses::Guesses;
pub use half_blocks::{HalfBlocks, Part, Reads};
pub use shares::Shares;
