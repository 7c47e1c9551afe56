//! Writes bytes and numbers into a buffer that has room for them.
ghost use Rattle.std.specs.Prelude.{◌≡◌, ◌+◌, ◌<◌, ◌≤◌, ◌++◌, ◌∷◌, decimal, take, length};

use itoa::{Buffer, write_digits};

/// Writes bytes at `at`. Returns where they end.
pub(crate) fn put_bytes(text: &mut [u8], at: usize, bytes: &[u8]) -> usize
    requires room { at + length bytes.now ≤ length text.old }
    ensures written { take result text.new ≡ take at text.old ++ bytes.now }
    ensures end { result ≡ at + length bytes.now }
{
    let end = at + bytes.len();
    text[at..end].copy_from_slice(bytes);
    end
}

/// Returns the number of digits of a number from 10 to 9,999.
fn few_digits(number: u64) -> usize
    requires least { 10 ≤ number }
    requires most { number < 10000 }
    ensures value { result ≡ length (decimal number) }
    ensures few { result ≤ 4 }
{
    if number < 100 {
        2
    } else if number < 1_000 {
        3
    } else {
        4
    }
}

/// Writes a number from 10 to 9,999 at `at`. Returns where it ends.
fn put_few_digits(text: &mut [u8], at: usize, number: u64) -> usize
    requires room { at + 4 ≤ length text.old }
    requires least { 10 ≤ number }
    requires most { number < 10000 }
    ensures written { take result text.new ≡ take at text.old ++ decimal number }
    ensures near { result ≤ at + 4 }
{
    let end = at + few_digits(number);
    write_digits(number, text, end);
    end
}

/// Writes a number at `at`. Returns where it ends. Few digits have a quick way, since flags are
/// mostly 0 and most data has fewer than 10,000 bytes.
fn put_digits(text: &mut [u8], at: usize, number: u64) -> usize
    requires room { at + 20 ≤ length text.old }
    ensures written { take result text.new ≡ take at text.old ++ decimal number }
    ensures near { result ≤ at + 20 }
{
    if number < 10 {
        text[at] = b'0' + number as u8;
        return at + 1;
    }
    if number < 10_000 {
        return put_few_digits(text, at, number);
    }
    let mut buffer = Buffer::new();
    put_bytes(text, at, buffer.format(number).as_bytes())
}

/// Writes a space and a number at `at`. Returns where they end.
pub(crate) fn put_number(text: &mut [u8], at: usize, number: u64) -> usize
    requires room { at + 21 ≤ length text.old }
    ensures written { take result text.new ≡ take at text.old ++ (32 ∷ decimal number) }
    ensures near { result ≤ at + 21 }
{
    text[at] = b' ';
    put_digits(text, at + 1, number)
}
