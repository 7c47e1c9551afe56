//! Which bytes a key may have: any but 0 to 32 and 127. Source: memcached's doc/protocol.txt,
//! "Keys".
ghost use Rattle.std.specs.Prelude.{◌≡◌, ◌==◌, if◌then◌else◌, ◌+◌, ◌<◌, ◌≤◌, length, take, drop};
ghost use Rattle.std.specs.List.{list_all, prefix_len};
ghost use Rattle.std.specs.Int.{w64, trailing_zeros};
ghost use Rattle.tc_item.specs.KeyRule.{is_key_byte};

use std::simd::prelude::*;

/// The width of a full step, in bytes.
const LANES: usize = 16;

fn is_key_byte(byte: u8) -> bool
    ensures { result ≡ is_key_byte byte }
{
    byte > b' ' && byte != 127
}

/// The width of a step over fewer than `LANES` bytes.
const HALF_LANES: usize = 8;

/// Returns the position of the lowest set bit, or `lanes` if no bit is set.
#[inline(always)]
fn lowest_set(mask: u64, lanes: usize) -> usize
    ensures { result ≡ (if mask == 0 then lanes else trailing_zeros w64 mask) }
{
    if mask == 0 {
        lanes
    } else {
        mask.trailing_zeros() as usize
    }
}

/// Of the 16 bytes from `at` on, counts those before the first that no key may have.
#[inline(always)]
fn run_in_lanes(bytes: &[u8], at: usize) -> usize
    requires { at + 16 ≤ length bytes.now }
    ensures value { result ≡ prefix_len is_key_byte (take 16 (drop at bytes.now)) }
    ensures within { result ≤ 16 }
{
    let lanes = u8x16::from_slice(&bytes[at..]);
    let stops = lanes.simd_lt(u8x16::splat(b'!')) | lanes.simd_eq(u8x16::splat(127));
    lowest_set(stops.to_bitmask(), LANES)
}

/// Of the 8 bytes from `at` on, counts those before the first that no key may have.
#[inline(always)]
fn run_in_half(bytes: &[u8], at: usize) -> usize
    requires { at + 8 ≤ length bytes.now }
    ensures value { result ≡ prefix_len is_key_byte (take 8 (drop at bytes.now)) }
    ensures within { result ≤ 8 }
{
    let lanes = u8x8::from_slice(&bytes[at..]);
    let stops = lanes.simd_lt(u8x8::splat(b'!')) | lanes.simd_eq(u8x8::splat(127));
    lowest_set(stops.to_bitmask(), HALF_LANES)
}

/// Counts the bytes before the first that no key may have, one by one.
fn run_of_few(bytes: &[u8]) -> usize
    ensures value { result ≡ prefix_len is_key_byte bytes.now }
    ensures within { result ≤ length bytes.now }
{
    for (i, byte) in bytes.iter().enumerate() {
        if !is_key_byte(*byte) {
            return i;
        }
    }
    bytes.len()
}

/// Counts the same in fewer than 16 bytes. From 8 bytes on, the last 8 may overlap the first 8.
fn run_in_tail(bytes: &[u8]) -> usize
    requires { length bytes.now < 16 }
    ensures value { result ≡ prefix_len is_key_byte bytes.now }
    ensures within { result ≤ length bytes.now }
{
    if bytes.len() < HALF_LANES {
        return run_of_few(bytes);
    }
    let run = run_in_half(bytes, 0);
    if run < HALF_LANES {
        return run;
    }
    let last = bytes.len() - HALF_LANES;
    last + run_in_half(bytes, last)
}

/// Returns the number of bytes before the first that no key may have.
pub fn key_run(bytes: &[u8]) -> usize
    ensures value { result ≡ prefix_len is_key_byte bytes.now }
    ensures within { result ≤ length bytes.now }
{
    let mut at = 0;
    while bytes.len() - at >= LANES {
        let run = run_in_lanes(bytes, at);
        at += run;
        if run < LANES {
            return at;
        }
    }
    at + run_in_tail(&bytes[at..])
}

/// Whether a key may have all of these 8 to 16 bytes. The last 8 may overlap the first 8.
fn are_few_key_bytes(bytes: &[u8]) -> bool
    requires least { 8 ≤ length bytes.now }
    requires most { length bytes.now ≤ 16 }
    ensures { result ≡ list_all is_key_byte bytes.now }
{
    run_in_half(bytes, 0) == HALF_LANES
        && run_in_half(bytes, bytes.len() - HALF_LANES) == HALF_LANES
}

/// Whether a key may have all of these 16 or more bytes. The last 16 may overlap the ones before.
fn are_many_key_bytes(bytes: &[u8]) -> bool
    requires { 16 ≤ length bytes.now }
    ensures { result ≡ list_all is_key_byte bytes.now }
{
    let mut at = 0;
    while bytes.len() - at > LANES {
        if run_in_lanes(bytes, at) < LANES {
            return false;
        }
        at += LANES;
    }
    run_in_lanes(bytes, bytes.len() - LANES) == LANES
}

/// Whether a key may have all of these bytes. Empty text passes.
pub(crate) fn are_key_bytes(bytes: &[u8]) -> bool
    ensures { result ≡ list_all is_key_byte bytes.now }
{
    match bytes.len() {
        0..HALF_LANES => run_of_few(bytes) == bytes.len(),
        HALF_LANES..LANES => are_few_key_bytes(bytes),
        _ => are_many_key_bytes(bytes),
    }
}
