//! Guesses from a request's first bytes what it asks for, so that a caller can read memory ahead of
//! its use. Nothing rests on a guess: the feed reads the request in full when its turn comes.

use tc_grammar::{Verb, verb_named};
use tc_item::LONGEST_KEY;

/// The longest name of a command with a key, `prepend`, in bytes.
const LONGEST_NAME: usize = 7;

/// The most digits of a number of a storage line.
const LONGEST_NUMBER: usize = 20;

/// How far behind a key a guess looks for the end of the line, in bytes.
const LINE_REST: usize = 16;

/// A guess at a request.
#[derive(Clone, Copy)]
pub struct Peeked<'a> {
    /// The key, one or more bytes.
    pub key: &'a [u8],
    /// Where the next request begins, in bytes from the first byte of this one; `None` if unknown.
    pub end: Option<usize>,
}

/// Splits off the first word, if a space or control byte ends it within `most` bytes. The second
/// part begins with that byte.
fn split_word(bytes: &[u8], most: usize) -> Option<(&[u8], &[u8])> {
    let mut front = bytes.iter().take(most.saturating_add(1));
    let length = front.position(|byte| *byte <= b' ')?;
    Some((bytes.get(..length)?, bytes.get(length..)?))
}

/// Returns the bytes behind the next line feed, if it is among the first 16 bytes.
fn behind_line(bytes: &[u8]) -> Option<&[u8]> {
    let at = bytes
        .iter()
        .take(LINE_REST)
        .position(|byte| *byte == b'\n')?;
    bytes.get(at.saturating_add(1)..)
}

/// Returns the number that these bytes spell if they are digits, and otherwise any number.
fn number_of(digits: &[u8]) -> usize {
    let mut number: usize = 0;
    for digit in digits {
        let next = usize::from(digit.saturating_sub(b'0'));
        number = number.saturating_mul(10).saturating_add(next);
    }
    number
}

/// Returns the bytes behind a block, from those behind the key of its line: flags, exptime and
/// length come next.
fn behind_block(bytes: &[u8]) -> Option<&[u8]> {
    let (_, bytes) = split_word(bytes.get(1..)?, LONGEST_NUMBER)?;
    let (_, bytes) = split_word(bytes.get(1..)?, LONGEST_NUMBER)?;
    let (length, bytes) = split_word(bytes.get(1..)?, LONGEST_NUMBER)?;
    let block = number_of(length).saturating_add(2);
    behind_line(bytes)?.get(block..)
}

/// Guesses at the request that begins these bytes. Returns `None` if no single key shows. A look-up
/// of several keys reads their memory ahead when it is done.
pub(crate) fn peek(bytes: &[u8]) -> Option<Peeked<'_>> {
    let (name, rest) = split_word(bytes, LONGEST_NAME)?;
    let verb = verb_named(name)?;
    let (key, rest) = split_word(rest.get(1..)?, LONGEST_KEY)?;
    let behind = match verb {
        _ if key.is_empty() => return None,
        Verb::Get(_) | Verb::Gat(_) if rest.first() == Some(&b' ') => return None,
        Verb::Store(_) => behind_block(rest),
        Verb::Get(_) | Verb::Gat(_) | Verb::Delete | Verb::Count(_) | Verb::Touch => behind_line(
            rest,
        ),
        _ => return None,
    };
    let end = match behind {
        Some(behind) => Some(bytes.len().saturating_sub(behind.len())),
        None => None,
    };
    Some(Peeked { key, end })
}
