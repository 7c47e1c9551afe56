//! One connection: from bytes to a request, and from an outcome to bytes.
//!
//! The definition is `specs/TextProtocol.antt`, an instance of the protocol of tc_model: what a
//! request of an unbound and of a bound connection asks for. `specs/Replies.antt` has the texts of
//! replies. Contracts see a `Session` as its endpoint (phase and reader), the bytes that wait to be
//! sent, how many of them are not written yet, and the room for more.
//!
//! `next`, `answer` and `answer_later` equal the definition, and their contracts say what a refusal
//! of memory leaves. `ask` does what `next` does, but a retry that is refused memory again declines
//! a bound connection's command (`specs/Declines.antt`). A declined command is not done, and a
//! `Declined` lists it. Its reply is `SERVER_ERROR out of memory`, or nothing if its line has
//! `noreply`.
//!
//! `session.rt` and the files below `session/` take requests. `answering.rt`, `values.rt` and
//! `text.rt` write replies, and `replies.rt` keeps those that are to be written later. `output.rt`
//! holds the bytes that wait, with `chain.rt` and `pieces.rt` for shared data, and `parts.rt` hands
//! them to a wire.
#![tactic(auto)]

mod answering;
mod chain;
mod declined;
mod news;
mod output;
mod parts;
mod pieces;
mod replies;
mod session;
mod text;
mod values;
mod want;

pub use answering::can_end;
pub use declined::Declined;
pub use news::News;
pub use parts::Parts;
pub use session::Session;
pub use want::Want;
