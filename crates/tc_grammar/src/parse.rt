//! Picks the reader of a line by its name.
ghost use Rattle.std.specs.Prelude.{◌≡◌, IfOk, Some};
ghost use Rattle.tc_grammar.specs.Lines.{IsAnswered, IsBounded};
ghost use Rattle.tc_grammar.specs.Reading.{reading, said_by};

use crate::command::Command;
use crate::counting::read_count_line;
use crate::keyed::{read_delete, read_touch};
use crate::line::{Line, refuse_unknown};
use crate::retrieval::{read_gat, read_get};
use crate::storage_line::read_storage_line;
use crate::tokens::Tokens;
use crate::unkeyed::{read_flush_line, read_lone_name, read_verbosity_line};
use crate::verb::{Verb, verb_named};
use std::alloc::Global;
use tc_item::NoMemory;

/// Reads the tokens after a name.
fn read_args(alloc: Global, verb: Verb, tokens: Tokens, block_limit: u32) -> Result<Line, NoMemory>
    ensures reading { IfOk result (λ line. line ≡ said_by block_limit (Some verb) tokens.entry) }
    ensures bounded { IfOk result (IsBounded block_limit) }
    ensures answered { IfOk result IsAnswered }
{
    match verb {
        Verb::Store(kind) => read_storage_line(alloc, kind, tokens, block_limit),
        Verb::Count(way) => read_count_line(alloc, way, tokens),
        Verb::Get(form) => read_get(alloc, form, tokens),
        Verb::Gat(form) => read_gat(alloc, form, tokens),
        Verb::Delete => read_delete(alloc, tokens),
        Verb::Touch => read_touch(alloc, tokens),
        Verb::FlushAll => Ok(read_flush_line(tokens)),
        Verb::Stats => Ok(read_lone_name(Command::Stats, tokens)),
        Verb::Version => Ok(read_lone_name(Command::Version, tokens)),
        Verb::Verbosity => Ok(read_verbosity_line(tokens)),
        Verb::Quit => Ok(read_lone_name(Command::Quit, tokens)),
    }
}

/// Reads a line, handed in without its end. A block of more than `block_limit` bytes is `TooLarge`.
/// Fails only if memory is refused.
pub fn parse_line(alloc: Global, line: &[u8], block_limit: u32) -> Result<Line, NoMemory>
    ensures reading { IfOk result (λ said. said ≡ reading block_limit line.now) }
    ensures bounded { IfOk result (IsBounded block_limit) }
    ensures answered { IfOk result IsAnswered }
{
    let mut tokens = Tokens::new(line);
    let Some(name) = tokens.next() else {
        return Ok(refuse_unknown())
    };
    let Some(verb) = verb_named(name) else {
        return Ok(refuse_unknown())
    };
    read_args(alloc, verb, tokens, block_limit)
}
