//! What a command line spells: the whole table of lines, and all faults of the server.
//!
//! `parse_line` takes a line without its end. It returns a command, the head of a storage command
//! that needs its block, or a fault: `reading` in `specs/Reading.antt`, a function of the line's
//! tokens, which spaces separate. `specs/Table.antt` has the same table row by row, as a relation.
//! `each_line_spells_one_thing` states that a line spells its reading and nothing else.
//!
//! `outline_line` reads a line without taking memory, and returns how to pass it over (`outline_of`
//! in `specs/Outlines.antt`). An `Outline` is a command other than `quit`, `quit`, a storage line
//! with the length of its block, or a fault with what it skips. All but `quit` say whether they are
//! quiet. It leaves out which command it is, its keys and its numbers.
//!
//! Contracts see commands and heads as plain data over keys, lists of keys and blobs. `parse_line`
//! fails only if memory is refused; no clause says when that is. `fault.rt` alone has the faults'
//! numbers and texts.
#![tactic(auto)]

mod command;
mod counting;
mod ending;
mod fault;
mod keyed;
mod line;
mod number;
mod outline;
mod parse;
mod retrieval;
mod spelling;
mod storage_line;
mod tokens;
mod unkeyed;
mod verb;

pub use command::{Command, Form, Head, StoreKind, Way};
pub use fault::Fault;
pub use line::Line;
pub use number::read_number;
pub use outline::{Outline, outline_line};
pub use parse::parse_line;
pub use spelling::each_line_spells_one_thing;
pub use verb::{Verb, verb_named};
