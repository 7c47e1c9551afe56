//! Number text: how `incr` and `decr` read the number in an item's data, and write it back.
//!
//! `specs/CounterText.antt` defines counter text and what it spells. `read` returns `None` exactly
//! if the bytes spell no number, and reads back what `write_into` wrote. Contracts do not say where
//! the bytes come from.
#![tactic(auto)]

ghost use Rattle.std.specs.Prelude.{◌≡◌, ◌==◌, ◌<◌, ◌≤◌, ◌+◌, ◌^◌, ◌++◌, ℕ, length, replicate, vec_len, vec_capacity, OnOk};
ghost use Rattle.std.specs.Prelude.{OnErr, MatchOption};
ghost use Rattle.std.specs.List.{list_all};
ghost use Rattle.tc_counter.specs.CounterText.{Spells, number_in, text_of, raised_by, lowered_by};

use itoa::Buffer;
use tc_item::NoMemory;

/// The most digits of a number in data, leading zeros included.
const MOST_DIGITS: usize = 20;

/// Returns the number that data spells: 1 to 20 decimal digits of a value up to 2^64-1, and any
/// number of spaces behind them. `None` for all other data.
pub fn read(text: &[u8]) -> Option<u64>
    ensures value { result ≡ number_in text.now }
    ensures spelling { MatchOption result ((n : ℕ) → ¬ (Spells text.now n))
        (λ n. Spells text.now n) }
    ensures round_trip { (n spaces : ℕ) → n < 2 ^ 64
        → text.now ≡ text_of n ++ replicate spaces 32 → result ≡ Some n }
{
    scan(text)
}

// Reads the number in one pass, which ends at the first byte that decides.
fn scan(text: &[u8]) -> Option<u64>
    ensures { result ≡ number_in text.now }
{
    let mut value: u64 = 0;
    for (i, byte) in text.iter().enumerate() {
        if !byte.is_ascii_digit() {
            return (i > 0 && are_spaces(&text[i..])).then_some(value);
        }
        if i == MOST_DIGITS {
            return None;
        }
        value = value.checked_mul(10)?.checked_add(u64::from(*byte - b'0'))?;
    }
    (!text.is_empty()).then_some(value)
}

// Whether all bytes are spaces. Empty text passes.
fn are_spaces(bytes: &[u8]) -> bool
    ensures { result ≡ list_all (λ c. c == 32) bytes.now }
{
    bytes.iter().all(|byte| *byte == b' ')
}

/// Appends `number` in decimal, without leading zeros, sign or spaces. If memory is refused, `out`
/// is unchanged; that happens only if it lacks room for the digits.
pub fn write_into(number: u64, out: &mut Vec<u8>) -> Result<(), NoMemory>
    ensures written { OnOk result (out.new.items ≡ out.old.items ++ text_of number) }
    ensures unchanged { OnErr result (out.new.items ≡ out.old.items) }
    ensures refused { OnErr result
        (vec_capacity out.old < vec_len out.old + length (text_of number)) }
{
    let mut buffer = Buffer::new();
    out.extend_from_slice(buffer.format(number).as_bytes())?;
    Ok(())
}

/// Returns the sum, which wraps at 2^64, as `incr` does.
pub fn incr(number: u64, by: u64) -> u64
    ensures { result ≡ raised_by number by }
{
    number.wrapping_add(by)
}

/// Returns the difference, which stops at 0, as `decr` does.
pub fn decr(number: u64, by: u64) -> u64
    ensures { result ≡ lowered_by number by }
{
    number.saturating_sub(by)
}
