//! `delete` and `touch`.
ghost use Rattle.std.specs.Prelude.{◌≡◌, IfOk};
ghost use Rattle.tc_grammar.specs.Lines.{IsAnswered, IsBounded, ready};
ghost use Rattle.tc_grammar.specs.Keyed.{delete_of, touch_of};

use crate::command::Command;
use crate::ending::{read_quiet, read_quiet_after_zero};
use crate::line::{Line, refuse_format};
use crate::number::read_exptime;
use crate::tokens::Tokens;
use std::alloc::Global;
use tc_item::{Key, NoMemory, is_key};

#[tactic(auto, unfolding(crate::specs::Keyed::delete_of))]
/// Reads the tokens after `delete`: a key, perhaps a `0`, and an ending.
pub fn read_delete(alloc: Global, mut tokens: Tokens) -> Result<Line, NoMemory>
    ensures reading { IfOk result (λ line. line ≡ ready (delete_of tokens.entry)) }
    ensures bounded { IfOk result (IsBounded 0) }
    ensures answered { IfOk result IsAnswered }
{
    let Some(key) = tokens.next() else {
        return Ok(refuse_format(0))
    };
    if !is_key(key) {
        return Ok(refuse_format(0));
    }
    let Some(quiet) = read_quiet_after_zero(tokens) else {
        return Ok(refuse_format(0))
    };
    let key = Key::from_key_bytes(alloc, key)?;
    Ok(Line::Ready(Command::Delete { key, quiet }))
}

#[tactic(auto, unfolding(crate::specs::Keyed::touch_of))]
/// Reads the tokens after `touch`: a key, an exptime and an ending.
pub fn read_touch(alloc: Global, mut tokens: Tokens) -> Result<Line, NoMemory>
    ensures reading { IfOk result (λ line. line ≡ ready (touch_of tokens.entry)) }
    ensures bounded { IfOk result (IsBounded 0) }
    ensures answered { IfOk result IsAnswered }
{
    let Some(key) = tokens.next() else {
        return Ok(refuse_format(0))
    };
    let Some(exptime) = tokens.next() else {
        return Ok(refuse_format(0))
    };
    if !is_key(key) {
        return Ok(refuse_format(0));
    }
    let Some(exptime) = read_exptime(exptime) else {
        return Ok(refuse_format(0))
    };
    let Some(quiet) = read_quiet(tokens) else {
        return Ok(refuse_format(0))
    };
    let key = Key::from_key_bytes(alloc, key)?;
    Ok(Line::Ready(Command::Touch {
        key,
        exptime,
        quiet,
    }))
}
