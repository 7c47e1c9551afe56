//! Reads the lines of a script's steps.
ghost use Rattle.std.specs.Prelude.{◌≡◌, IfOk};
ghost use Rattle.tc_script.specs.ScriptLines.{open_line, piece_line, fill_line, act_line, shut_line, tick_line, keep_line};
ghost use Rattle.tc_script.specs.ScriptLines.{action_by};

use crate::action::Action;
use crate::fields::{count, first_field, hex_byte, short_number, word_number};
use crate::unescape::some_bytes;
use std::alloc::Global;
use tc_item::{MOMENT_LIMIT, Moment, NoMemory};

/// The most bytes of a `fill`.
const LONGEST_FILL: u32 = 2_097_152;

/// The most acts of a line.
const MOST_ACTS: u32 = 1_000_000;

/// Reads what follows the word of `open <c>`. The readers below do so for their lines.
fn read_open(rest: &[u8]) -> Option<Action>
    ensures { result ≡ open_line rest.now }
{
    Some(Action::Open(word_number(rest)?))
}

/// `piece <c> <text>`.
fn read_piece(alloc: Global, rest: &[u8]) -> Result<Option<Action>, NoMemory>
    ensures { IfOk result (λ action. action ≡ piece_line rest.now) }
{
    let Some((connection, text)) = first_field(rest) else {
        return Ok(None);
    };
    let Some(connection) = word_number(connection) else {
        return Ok(None);
    };
    match some_bytes(alloc, text)? {
        None => Ok(None),
        Some(bytes) => Ok(Some(Action::Piece(connection, bytes))),
    }
}

/// `fill <c> <n> <hh>`.
fn read_fill(rest: &[u8]) -> Option<Action>
    ensures { result ≡ fill_line rest.now }
{
    let (connection, rest) = first_field(rest)?;
    let (times, byte) = first_field(rest)?;
    let connection = word_number(connection)?;
    let times = count(times, LONGEST_FILL)?;
    Some(Action::Fill(connection, times, hex_byte(byte)?))
}

/// `act <c>` or `act <c> <n>`.
fn read_act(rest: &[u8]) -> Option<Action>
    ensures { result ≡ act_line rest.now }
{
    match first_field(rest) {
        None => Some(Action::Act(word_number(rest)?, 1)),
        Some((connection, times)) => {
            let connection = word_number(connection)?;
            Some(Action::Act(connection, count(times, MOST_ACTS)?))
        }
    }
}

/// `shut <c>`.
fn read_shut(rest: &[u8]) -> Option<Action>
    ensures { result ≡ shut_line rest.now }
{
    Some(Action::Shut(word_number(rest)?))
}

/// `tick <m>`.
fn read_tick(rest: &[u8]) -> Option<Action>
    ensures { result ≡ tick_line rest.now }
{
    let seconds = short_number(rest, MOMENT_LIMIT - 1)?;
    Some(Action::Tick(Moment::new(seconds)))
}

/// `keep <u> <limit>`.
fn read_keep(rest: &[u8]) -> Option<Action>
    ensures { result ≡ keep_line rest.now }
{
    let (user, limit) = first_field(rest)?;
    Some(Action::Keep(word_number(user)?, word_number(limit)?))
}

/// Reads a step's line, by its word; `None` if it is refused.
pub fn read_action(alloc: Global, word: &[u8], rest: &[u8]) -> Result<Option<Action>, NoMemory>
    ensures { IfOk result (λ action. action ≡ action_by word.now rest.now) }
{
    if word == b"open".as_slice() {
        return Ok(read_open(rest));
    }
    if word == b"piece".as_slice() {
        return read_piece(alloc, rest);
    }
    if word == b"fill".as_slice() {
        return Ok(read_fill(rest));
    }
    if word == b"act".as_slice() {
        return Ok(read_act(rest));
    }
    if word == b"shut".as_slice() {
        return Ok(read_shut(rest));
    }
    if word == b"tick".as_slice() {
        return Ok(read_tick(rest));
    }
    if word == b"keep".as_slice() {
        return Ok(read_keep(rest));
    }
    Ok(None)
}
