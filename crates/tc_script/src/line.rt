//! Reads one line of a script.
ghost use Rattle.std.specs.Prelude.{◌≡◌, IfOk};
ghost use Rattle.tc_script.specs.ScriptLines.{user_line, second_line, largest_line, step_line, line_by, line_of, is_blank};

use crate::action::Action;
use crate::fields::{first_field, short_number, word_number};
use crate::step_line::read_action;
use std::alloc::Global;
use tc_item::{LARGEST_ITEM, NoMemory};
use tc_users::{Text, UserSpec};

/// The meaning of a line.
#[derive(Drop)]
pub enum Line {
    /// The line is empty or a comment.
    Blank,
    /// A user's row.
    User(UserSpec),
    /// A user's second token.
    Second(u32, Text),
    /// The most data of a user's items: user, bytes.
    Largest(u32, u64),
    /// A step.
    Step(Action),
}

fn is_blank(line: &[u8]) -> bool
    ensures { result ≡ is_blank line.now }
{
    match line.first() {
        None => true,
        Some(byte) => *byte == b'#',
    }
}

/// Reads what follows the word of `user <name> <token> <budget>`.
fn read_user(alloc: Global, rest: &[u8]) -> Result<Option<Line>, NoMemory>
    ensures { IfOk result (λ line. line ≡ user_line rest.now) }
{
    let Some((name, rest)) = first_field(rest) else {
        return Ok(None);
    };
    let Some((token, budget)) = first_field(rest) else {
        return Ok(None);
    };
    let Some(budget) = short_number(budget, u64::MAX) else {
        return Ok(None);
    };
    Ok(Some(Line::User(UserSpec {
        name: Text::copy(alloc, name)?,
        token: Text::copy(alloc, token)?,
        second: None,
        budget,
        largest: LARGEST_ITEM as u64,
    })))
}

/// Reads what follows the word of `second <u> <token>`.
fn read_second(alloc: Global, rest: &[u8]) -> Result<Option<Line>, NoMemory>
    ensures { IfOk result (λ line. line ≡ second_line rest.now) }
{
    let Some((user, token)) = first_field(rest) else {
        return Ok(None);
    };
    let Some(user) = word_number(user) else {
        return Ok(None);
    };
    Ok(Some(Line::Second(user, Text::copy(alloc, token)?)))
}

/// Reads what follows the word of `largest <u> <n>`.
fn read_largest(rest: &[u8]) -> Option<Line>
    ensures { result ≡ largest_line rest.now }
{
    let (user, most) = first_field(rest)?;
    Some(Line::Largest(word_number(user)?, short_number(most, u64::MAX)?))
}

/// Reads a step's line, by its word.
fn read_step(alloc: Global, word: &[u8], rest: &[u8]) -> Result<Option<Line>, NoMemory>
    ensures { IfOk result (λ line. line ≡ step_line word.now rest.now) }
{
    Ok(read_action(alloc, word, rest)?.map(Line::Step))
}

/// Reads a line, by its word.
fn read_by_word(alloc: Global, word: &[u8], rest: &[u8]) -> Result<Option<Line>, NoMemory>
    ensures { IfOk result (λ line. line ≡ line_by word.now rest.now) }
{
    if word == b"user".as_slice() {
        return read_user(alloc, rest);
    }
    if word == b"second".as_slice() {
        return read_second(alloc, rest);
    }
    if word == b"largest".as_slice() {
        return Ok(read_largest(rest));
    }
    read_step(alloc, word, rest)
}

/// Reads a line; `None` if it is refused.
pub fn read_line(alloc: Global, line: &[u8]) -> Result<Option<Line>, NoMemory>
    ensures { IfOk result (λ found. found ≡ line_of line.now) }
{
    if is_blank(line) {
        return Ok(Some(Line::Blank));
    }
    match first_field(line) {
        None => Ok(None),
        Some((word, rest)) => read_by_word(alloc, word, rest),
    }
}
