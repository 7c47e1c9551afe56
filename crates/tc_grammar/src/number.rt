//! Number tokens.
ghost use Rattle.std.specs.Prelude.{◌≡◌, ◌≤◌, ◌-◌, ◌^◌, IfSome};
ghost use Rattle.tc_grammar.specs.Numbers.{number_of, exptime_of};

/// The most digits of a number, leading zeros included.
const LONGEST_NUMBER: usize = 20;

/// Returns the number that a token spells in 1 to 20 decimal digits, if it is at most `greatest`.
pub fn read_number(token: &[u8], greatest: u64) -> Option<u64>
    ensures value { result ≡ number_of greatest token.now }
    ensures within { IfSome result (λ n. n ≤ greatest) }
{
    if token.len() > LONGEST_NUMBER {
        return None;
    }
    let mut n: u64 = 0;
    for byte in token {
        if !byte.is_ascii_digit() {
            return None;
        }
        n = n.checked_mul(10)?.checked_add(u64::from(*byte - b'0'))?;
    }
    if n > greatest || token.is_empty() {
        return None;
    }
    Some(n)
}

/// Returns the number below 2^32 that a token spells.
pub fn read_u32(token: &[u8]) -> Option<u32>
    ensures { result ≡ number_of (2 ^ 32 - 1) token.now }
{
    let n = read_number(token, u32::MAX as u64)?;
    Some(n as u32)
}

/// Returns the exptime that a token spells: a number below 2^32, or a minus sign and a number up to
/// 2^31.
pub fn read_exptime(token: &[u8]) -> Option<i64>
    ensures { result ≡ exptime_of token.now }
{
    if token.starts_with(b"-".as_slice()) {
        let n = read_number(&token[1..], 1 << 31)?;
        return Some(-(n as i64));
    }
    let n = read_u32(token)?;
    Some(n as i64)
}
