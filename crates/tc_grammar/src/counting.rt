//! `incr` and `decr`.
ghost use Rattle.std.specs.Prelude.{◌≡◌, IfOk};
ghost use Rattle.tc_grammar.specs.Counting.{count_line};
ghost use Rattle.tc_grammar.specs.Lines.{IsAnswered, IsBounded};

use crate::command::{Command, Way};
use crate::ending::read_quiet;
use crate::fault::Fault;
use crate::line::{Line, refuse_format};
use crate::number::read_number;
use crate::tokens::Tokens;
use std::alloc::Global;
use tc_item::{Key, NoMemory, is_key};

/// Reads the tokens after `incr` or `decr`. The fault is `BadDelta` if all is well but the value,
/// otherwise `BadFormat`.
#[tactic(auto, unfolding(crate::specs::Counting::count_line))]
pub fn read_count_line(alloc: Global, way: Way, mut tokens: Tokens) -> Result<Line, NoMemory>
    ensures reading { IfOk result (λ line. line ≡ count_line way tokens.entry) }
    ensures bounded { IfOk result (IsBounded 0) }
    ensures answered { IfOk result IsAnswered }
{
    let Some(key) = tokens.next() else {
        return Ok(refuse_format(0))
    };
    let Some(value) = tokens.next() else {
        return Ok(refuse_format(0))
    };
    if !is_key(key) {
        return Ok(refuse_format(0));
    }
    let Some(quiet) = read_quiet(tokens) else {
        return Ok(refuse_format(0))
    };
    let Some(value) = read_number(value, u64::MAX) else {
        return Ok(Line::Refused {
            fault: Fault::BadDelta,
            quiet: false,
            skip: 0,
        });
    };
    let key = Key::from_key_bytes(alloc, key)?;
    Ok(Line::Ready(Command::Count {
        way,
        key,
        value,
        quiet,
    }))
}
