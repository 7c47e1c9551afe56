//! Compares short keys in place: 16 or 8 bytes at a time, over the whole array, since all bytes
//! behind the key's are 0.
ghost use Rattle.std.specs.Prelude.{◌≡◌, ◌+◌, ◌≤◌, length, take, drop};
ghost use Rattle.std.specs.Str.{bytes_eq};
ghost use Rattle.tc_item.specs.KeyBytes.{IsFilled};

use std::simd::prelude::*;

/// The most bytes of a key that lie in place.
pub(crate) const IN_PLACE: usize = 22;

/// The most bytes that lie in place beside their hash.
pub(crate) const BESIDE_HASH: usize = 14;

/// The width of a full comparison, in bytes.
const LANES: usize = 16;

/// The width of a comparison in arrays too short for `LANES`, in bytes.
const HALF_LANES: usize = 8;

/// Whether the 16 bytes from `at` on are equal.
fn are_same_lanes(one: &[u8], other: &[u8], at: usize) -> bool
    requires one { at + 16 ≤ length one.now }
    requires other { at + 16 ≤ length other.now }
    ensures { result ≡ bytes_eq (take 16 (drop at one.now)) (take 16 (drop at other.now)) }
{
    let one = u8x16::from_slice(&one[at..]);
    let other = u8x16::from_slice(&other[at..]);
    one.simd_ne(other).to_bitmask() == 0
}

/// Whether the 8 bytes from `at` on are equal.
fn are_same_half(one: &[u8], other: &[u8], at: usize) -> bool
    requires one { at + 8 ≤ length one.now }
    requires other { at + 8 ≤ length other.now }
    ensures { result ≡ bytes_eq (take 8 (drop at one.now)) (take 8 (drop at other.now)) }
{
    let one = u8x8::from_slice(&one[at..]);
    let other = u8x8::from_slice(&other[at..]);
    one.simd_ne(other).to_bitmask() == 0
}

/// Whether two keys of up to 14 bytes are equal. The last 8 bytes overlap the first 8.
pub(crate) fn are_same_few(
    one: &[u8; BESIDE_HASH],
    one_length: u8,
    other: &[u8; BESIDE_HASH],
    other_length: u8,
) -> bool
    requires one { IsFilled 14 one_length one.now }
    requires other { IsFilled 14 other_length other.now }
    ensures { result ≡ bytes_eq (take one_length one.now) (take other_length other.now) }
{
    if one_length != other_length {
        return false;
    }
    are_same_half(one, other, 0) && are_same_half(one, other, BESIDE_HASH - HALF_LANES)
}

/// Whether two keys of up to 22 bytes are equal. The last 16 bytes overlap the first 16.
pub(crate) fn are_same_many(
    one: &[u8; IN_PLACE],
    one_length: u8,
    other: &[u8; IN_PLACE],
    other_length: u8,
) -> bool
    requires one { IsFilled 22 one_length one.now }
    requires other { IsFilled 22 other_length other.now }
    ensures { result ≡ bytes_eq (take one_length one.now) (take other_length other.now) }
{
    if one_length != other_length {
        return false;
    }
    are_same_lanes(one, other, 0) && are_same_lanes(one, other, IN_PLACE - LANES)
}
