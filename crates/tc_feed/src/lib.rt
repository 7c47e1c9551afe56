//! Requests in a stream of bytes, however the stream is cut.
//!
//! The definitions are in `specs/Stream.antt`: `more` is what a piece adds to a reader, and `first`
//! the first whole request of unread bytes. `Feed::push` does `more`, and `Feed::next` returns
//! `first`. It returns `None` only if no whole request begins the unread bytes. `Feed::pass_over`
//! drops the same request without memory, and returns it without its keys and its block
//! (`specs/Passing.antt`).
//!
//! Contracts see a `Feed` as its unread bytes and the number of bytes still to be skipped. They do
//! not say how much room it keeps, how often it looks at a byte, or what `peek` guesses. `cutting`
//! has the law of cutting.
#![tactic(auto)]

mod feed;
mod laws;
mod line_end;
mod passing;
mod peeking;
mod reading;
mod request;

pub use feed::Feed;
pub use laws::cutting;
pub use line_end::LONGEST_LINE;
pub use passing::Passed;
pub use peeking::Peeked;
pub use request::Request;
