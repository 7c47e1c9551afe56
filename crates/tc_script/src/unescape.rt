//! Reads escaped texts.
ghost use Rattle.std.specs.Prelude.{◌≡◌, ◌<◌, ◌++◌, IfOk, IfSome, None, Some, MatchOption, length, option_map};
ghost use Rattle.tc_script.specs.Texts.{unescaped, some_bytes as some_bytes_of, short_escape, front_of};

use crate::action::Bytes;
use crate::fields::hex_pair;
use std::alloc::Global;
use tc_item::NoMemory;

/// Returns the byte that an escape of one letter stands for.
fn short_escape(letter: u8) -> Option<u8>
    ensures { result ≡ short_escape letter }
{
    match letter {
        b'r' => Some(b'\r'),
        b'n' => Some(b'\n'),
        b'\\' => Some(b'\\'),
        _ => None,
    }
}

/// Returns the byte at the front of a text, and the rest; `None` for a bad escape or an empty text.
fn front(text: &[u8]) -> Option<(u8, &[u8])>
    ensures front { MatchOption result (front_of text.now ≡ None)
        (λ f. front_of text.now ≡ Some (f.0, f.1.now)) }
    ensures shorter { IfSome result (λ f. length f.1.now < length text.now) }
{
    match text {
        [b'\\', b'x', high, low, rest @ ..] => Some((hex_pair(*high, *low)?, rest)),
        [b'\\', letter, rest @ ..] => Some((short_escape(*letter)?, rest)),
        [b'\\'] => None,
        [byte, rest @ ..] => Some((*byte, rest)),
        [] => None,
    }
}

/// Returns the bytes that a text stands for; `None` if an escape in it is bad.
fn unescape(alloc: Global, text: &[u8]) -> Result<Option<Bytes>, NoMemory>
    ensures { IfOk result (λ bytes. bytes ≡ unescaped text.now) }
{
    let mut bytes = Vec::with_capacity(alloc, text.len())?;
    let mut rest = text;
    while !rest.is_empty() {
        let Some((byte, behind)) = front(rest) else {
            return Ok(None);
        };
        bytes.push(byte)?;
        rest = behind;
    }
    Ok(Some(Bytes::new(bytes)))
}

/// Returns the bytes that a text stands for; `None` if it is empty or an escape in it is bad.
pub fn some_bytes(alloc: Global, text: &[u8]) -> Result<Option<Bytes>, NoMemory>
    ensures { IfOk result (λ bytes. bytes ≡ some_bytes_of text.now) }
{
    if text.is_empty() {
        return Ok(None);
    }
    unescape(alloc, text)
}
