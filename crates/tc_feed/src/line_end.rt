//! Finds the end of a line.
ghost use Rattle.std.specs.Prelude.{◌≡◌, ◌==◌, if◌then◌else◌, ◌+◌, ◌≤◌, length, take, drop, None};
ghost use Rattle.std.specs.List.{prefix_len};
ghost use Rattle.std.specs.Int.{w64, trailing_zeros};
ghost use Rattle.tc_feed.specs.Looking.{is_inside};
ghost use Rattle.tc_feed.specs.Stream.{line_length, trimmed};

use memchr::memchr;
use std::simd::prelude::*;

/// The most bytes of a line before its line feed, carriage return included.
pub const LONGEST_LINE: usize = 65_536;

/// The width of the first step of a search, in bytes.
const LANES: usize = 16;

/// Returns the position of the lowest set bit, or 16 if no bit is set.
#[inline(always)]
fn lowest_set(mask: u64) -> usize
    ensures { result ≡ (if mask == 0 then 16 else trailing_zeros w64 mask) }
{
    if mask == 0 {
        LANES
    } else {
        mask.trailing_zeros() as usize
    }
}

/// Of the 16 bytes from `at` on, counts those before a line feed.
#[inline(always)]
fn run_in_lanes(bytes: &[u8], at: usize) -> usize
    requires { at + 16 ≤ length bytes.now }
    ensures { result ≡ prefix_len is_inside (take 16 (drop at bytes.now)) }
{
    let lanes = u8x16::from_slice(&bytes[at..]);
    lowest_set(lanes.simd_eq(u8x16::splat(b'\n')).to_bitmask())
}

/// Returns the index of the first line feed. The first `from` bytes must hold none.
fn seek_line(bytes: &[u8], from: usize) -> Option<usize>
    requires within { from ≤ length bytes.now }
    requires none { line_length (take from bytes.now) ≡ None }
    ensures { result ≡ line_length bytes.now }
{
    match memchr(b'\n', &bytes[from..]) {
        Some(i) => Some(from + i),
        None => None,
    }
}

/// Does what `seek_line` does, but looks at 16 bytes first, since most lines are short.
pub(crate) fn find_line(bytes: &[u8], from: usize) -> Option<usize>
    requires within { from ≤ length bytes.now }
    requires none { line_length (take from bytes.now) ≡ None }
    ensures { result ≡ line_length bytes.now }
{
    if bytes.len() - from < LANES {
        return seek_line(bytes, from);
    }
    let run = run_in_lanes(bytes, from);
    if run < LANES {
        return Some(from + run);
    }
    seek_line(bytes, from + LANES)
}

/// Returns the line without the carriage return at its end, if it has one.
pub(crate) fn trim_line(line: &[u8]) -> &[u8]
    ensures { result.now ≡ trimmed line.now }
{
    let n = line.len();
    if n > 0 && line[n - 1] == b'\r' {
        &line[..n - 1]
    } else {
        line
    }
}
