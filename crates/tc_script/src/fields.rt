//! Reads the fields and numbers of a line.
ghost use Rattle.std.specs.Prelude.{◌≡◌, ◌<◌, ◌≤◌, ◌+◌, None, Some, MatchOption, IfSome, length, position, ◌==◌};
ghost use Rattle.tc_script.specs.Texts.{cut, first_field as first_field_of, short_number as short_number_of};
ghost use Rattle.tc_script.specs.Texts.{word_number as word_number_of, count_of, hex_digit, hex_pair, hex_byte};

use tc_grammar::read_number;

/// The most digits of a number.
const LONGEST_NUMBER: usize = 13;

/// Returns the index of the first byte that equals `mark`.
fn place_of(text: &[u8], mark: u8) -> Option<usize>
    ensures place { result ≡ position (λ b. b == mark) text.now }
    ensures within { IfSome result (λ place. place < length text.now) }
{
    text.iter().position(|byte| *byte == mark)
}

/// Splits a text at the first byte that equals `mark`, which is in neither part.
pub fn cut(text: &[u8], mark: u8) -> Option<(&[u8], &[u8])>
    ensures sides { MatchOption result (cut mark text.now ≡ None)
        (λ sides. cut mark text.now ≡ Some (sides.0.now, sides.1.now)) }
    ensures shorter { IfSome result (λ sides. length sides.1.now < length text.now) }
{
    let place = place_of(text, mark)?;
    Some((&text[..place], &text[place + 1..]))
}

/// Splits a text at its first space: the field before it, and the rest.
pub fn first_field(text: &[u8]) -> Option<(&[u8], &[u8])>
    ensures { MatchOption result (first_field_of text.now ≡ None)
        (λ sides. first_field_of text.now ≡ Some (sides.0.now, sides.1.now)) }
{
    cut(text, b' ')
}

/// Returns the number that a field spells in 1 to 13 digits, if it is at most `greatest`.
pub fn short_number(field: &[u8], greatest: u64) -> Option<u64>
    ensures value { result ≡ short_number_of greatest field.now }
    ensures within { IfSome result (λ n. n ≤ greatest) }
{
    if field.len() > LONGEST_NUMBER {
        return None;
    }
    read_number(field, greatest)
}

/// Returns the number below 2^32 that a field spells.
pub fn word_number(field: &[u8]) -> Option<u32>
    ensures { result ≡ word_number_of field.now }
{
    let number = short_number(field, u32::MAX as u64)?;
    Some(number as u32)
}

/// Returns the number from 1 to `greatest` that a field spells.
pub fn count(field: &[u8], greatest: u32) -> Option<u32>
    ensures value { result ≡ count_of greatest field.now }
{
    let number = short_number(field, greatest as u64)?;
    if number == 0 {
        return None;
    }
    Some(number as u32)
}

/// Returns the value of a hexadecimal digit of either case.
fn hex_digit(byte: u8) -> Option<u8>
    ensures value { result ≡ hex_digit byte }
    ensures within { IfSome result (λ n. n < 16) }
{
    match byte {
        b'0'..=b'9' => Some(byte - b'0'),
        b'A'..=b'F' => Some(byte - b'A' + 10),
        b'a'..=b'f' => Some(byte - b'a' + 10),
        _ => None,
    }
}

/// Returns the byte that two hexadecimal digits spell.
pub fn hex_pair(high: u8, low: u8) -> Option<u8>
    ensures { result ≡ hex_pair high low }
{
    let high = hex_digit(high)?;
    let low = hex_digit(low)?;
    Some(16 * high + low)
}

/// Returns the byte of a field of exactly two hexadecimal digits.
pub fn hex_byte(field: &[u8]) -> Option<u8>
    ensures { result ≡ hex_byte field.now }
{
    match field {
        [high, low] => hex_pair(*high, *low),
        _ => None,
    }
}
