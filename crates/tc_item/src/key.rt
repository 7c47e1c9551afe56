//! Keys: 1 to 250 bytes, none of them 0 to 32 or 127.
ghost use Rattle.std.specs.Prelude.{◌≡◌, ◌<◌, ◌≤◌, ◌∷◌, [], length, IfOk, IfSome, IsNone, IsOkUnless};
ghost use Rattle.std.specs.Prelude.{IsTrue, Err};
ghost use Rattle.std.specs.List.{list_all};
ghost use Rattle.std.specs.Str.{bytes_eq};
ghost use Rattle.std.specs.Cmp.Rules.{comparing, hashing};
ghost use Rattle.std.proofs.Common.{rules};
ghost use Rattle.tc_item.specs.Bounds.{longest_key};
ghost use Rattle.tc_item.specs.KeyRule.{is_key, is_key_byte};
ghost use Rattle.tc_item.specs.KeyHash.{hash};
ghost use Rattle.tc_item.specs.KeyBytes.{bytes_held, IsInPlace};
ghost use Rattle.tc_item.specs.KeyFaults.{key_fault};
ghost use Rattle.tc_item.specs.declared.key.KeyFault.TheVariants.{NoMemory as OutOfMemory};

use crate::fnv::hash;
use crate::key_bytes::are_key_bytes;
use crate::place::{BESIDE_HASH, IN_PLACE, are_same_few, are_same_many};
use crate::{Blob, Few, LONGEST_KEY, NoMemory, TryCopy};
use std::alloc::Global;
use std::error::Error;
use std::fmt;
use std::hash::{Hash, Hasher};
use std::marker::Model;
use std::mem::size_of;

/// Why bytes are no key: the first reason in this order. `NoMemory` comes only for bytes that are a
/// key.
#[derive(Clone, Copy, Debug, PartialEq, Eq)]
pub enum KeyFault {
    Empty,
    TooLong,
    BadByte,
    NoMemory,
}

impl fmt::Display for KeyFault {
    fn fmt<W: fmt::Write>(&self, f: &mut fmt::Formatter<W>) -> fmt::Result {
        match self {
            KeyFault::Empty => write!(f, "the key is empty"),
            KeyFault::TooLong => write!(f, "the key has more than {LONGEST_KEY} bytes"),
            KeyFault::BadByte => write!(f, "the key has a control byte or a space"),
            KeyFault::NoMemory => write!(f, "out of memory"),
        }
    }
}

impl Error for KeyFault {}

impl From<NoMemory> for KeyFault {
    ghost from_gives = { λ _ e. e ≡ OutOfMemory };

    fn from(_refused: NoMemory) -> KeyFault {
        KeyFault::NoMemory
    }
}

/// The name under which an item is stored. Up to 22 bytes lie in place and are copied whole; copies
/// of a longer key share its bytes. A key of up to 14 bytes keeps its hash, computed when the key
/// is made.
#[derive(Drop)]
pub struct Key {
    bytes: KeyBytes,
}

/// A key's bytes. Short ones lie at the front of an array that is 0 behind them, and up to 14 have
/// their hash behind the array. Long ones are shared with the key's copies. The length precedes the
/// array. So the array begins at an even offset, and is copied in pieces that do not overlap.
#[derive(Drop)]
enum KeyBytes {
    Hashed(u8, [u8; BESIDE_HASH], u64),
    Short(u8, [u8; IN_PLACE]),
    Long(Blob),
}

const _: () = prove!(size_of::<Key>() == 24);

impl Model for Key {
    ghost use Rattle.std.specs.Prelude.{ℕ, List};
    ghost use Rattle.tc_item.specs.KeyBytes.{bytes_held, IsKept};

    ghost Value = { List ℕ };

    ghost view = { λ k. bytes_held k.bytes };

    ghost invariant = { λ k. IsKept k.bytes };
}

/// Whether these bytes are a key (`specs/KeyRule.antt`).
pub fn is_key(bytes: &[u8]) -> bool
    ensures { result ≡ is_key bytes.now }
{
    !bytes.is_empty() && bytes.len() <= LONGEST_KEY && are_key_bytes(bytes)
}

impl KeyBytes {
    /// Keeps up to 14 bytes in place, with their hash.
    fn hashed(bytes: &[u8]) -> KeyBytes
        requires { length bytes.now ≤ 14 }
        ensures held { bytes_held result ≡ bytes.now }
        ensures fits { IsInPlace result }
    {
        let mut place = [0; BESIDE_HASH];
        place[..bytes.len()].copy_from_slice(bytes);
        KeyBytes::Hashed(bytes.len() as u8, place, hash(bytes))
    }

    /// Keeps up to 22 bytes in place.
    fn short(bytes: &[u8]) -> KeyBytes
        requires { length bytes.now ≤ 22 }
        ensures held { bytes_held result ≡ bytes.now }
        ensures fits { IsInPlace result }
    {
        let mut place = [0; IN_PLACE];
        place[..bytes.len()].copy_from_slice(bytes);
        KeyBytes::Short(bytes.len() as u8, place)
    }

    /// Returns the key's bytes.
    fn as_slice(&self) -> &[u8]
        requires { IsInPlace self.now }
        ensures { result.now ≡ bytes_held self.now }
    {
        match self {
            KeyBytes::Hashed(length, place, _) => &place[..usize::from(*length)],
            KeyBytes::Short(length, place) => &place[..usize::from(*length)],
            KeyBytes::Long(bytes) => bytes.as_slice(),
        }
    }

    /// Returns the hash of the key's bytes.
    fn hash(&self) -> u64
        requires { IsInPlace self.now }
        ensures { result ≡ hash (bytes_held self.now) }
    {
        match self {
            KeyBytes::Hashed(_, _, beside) => *beside,
            _ => hash(self.as_slice()),
        }
    }

    /// Whether the bytes are equal.
    #[inline(always)]
    fn is_same(&self, other: &KeyBytes) -> bool
        requires one { IsInPlace self.now }
        requires other { IsInPlace other.now }
        ensures { result ≡ bytes_eq (bytes_held self.now) (bytes_held other.now) }
    {
        match (self, other) {
            (KeyBytes::Hashed(length, place, _), KeyBytes::Hashed(other_length, other_place, _)) =>
                are_same_few(place, *length, other_place, *other_length),
            (KeyBytes::Short(length, place), KeyBytes::Short(other_length, other_place)) => {
                are_same_many(place, *length, other_place, *other_length)
            }
            _ => self.as_slice() == other.as_slice(),
        }
    }
}

impl Key {
    /// Returns the key of these bytes, or the first reason why they are none.
    pub fn new(alloc: Global, bytes: &[u8]) -> Result<Key, KeyFault>
        ensures key { IfOk result (λ k. k ≡ bytes.now) }
        ensures refused { IfSome (key_fault bytes.now) (λ fault. result ≡ Err fault) }
        ensures taken { IsNone (key_fault bytes.now) → IsOkUnless result KeyFault.NoMemory }
    {
        if bytes.is_empty() {
            return Err(KeyFault::Empty);
        }
        if bytes.len() > LONGEST_KEY {
            return Err(KeyFault::TooLong);
        }
        if !are_key_bytes(bytes) {
            return Err(KeyFault::BadByte);
        }
        Ok(Key::from_key_bytes(alloc, bytes)?)
    }

    /// Returns the key of bytes that the caller knows to be one.
    pub fn from_key_bytes(alloc: Global, bytes: &[u8]) -> Result<Key, NoMemory>
        requires { IsTrue (is_key bytes.now) }
        ensures { IfOk result (λ k. k ≡ bytes.now) }
    {
        let bytes = match bytes.len() {
            0..=BESIDE_HASH => KeyBytes::hashed(bytes),
            0..=IN_PLACE => KeyBytes::short(bytes),
            _ => KeyBytes::Long(Blob::from_slice(alloc, bytes)?),
        };
        Ok(Key { bytes })
    }

    /// Returns the 1 to 250 bytes of the key.
    pub fn as_bytes(&self) -> &[u8]
        ensures bytes { result.now ≡ self.now }
        ensures good { IsTrue (is_key self.now) }
        ensures not_empty { 0 < length self.now }
        ensures short { length self.now ≤ longest_key }
    {
        self.bytes.as_slice()
    }

    /// Returns the key's FNV-1a hash (`hash`). A key of up to 14 bytes keeps it; for a longer one
    /// it is computed at each call.
    pub fn fnv_hash(&self) -> u64
        ensures { result ≡ hash self.now }
    {
        self.bytes.hash()
    }

    /// Returns an equal key, which shares bytes that are not in place.
    #[inline(always)]
    pub fn copy(&self, _alloc: Global) -> Result<Key, NoMemory>
        ensures { IfOk result (λ k. k ≡ self.now) }
    {
        let bytes = match &self.bytes {
            KeyBytes::Hashed(length, place, beside) => KeyBytes::Hashed(*length, *place, *beside),
            KeyBytes::Short(length, place) => KeyBytes::Short(*length, *place),
            KeyBytes::Long(bytes) => KeyBytes::Long(bytes.copy()?),
        };
        Ok(Key { bytes })
    }
}

impl TryCopy for Key {
    fn try_copy(&self, alloc: Global) -> Result<Key, NoMemory> {
        self.copy(alloc)
    }
}

/// Keys in order, duplicates allowed.
pub type Keys = Few<Key>;

impl PartialEq for Key {
    ghost eq = { bytes_eq };

    ghost laws = { Prim.search (comparing, rules) };

    #[inline(always)]
    fn eq(&self, other: &Key) -> bool {
        self.bytes.is_same(&other.bytes)
    }
}

impl Eq for Key {
    ghost laws = { Prim.search (comparing, rules) };
}

/// A hasher receives all bytes of a key in one write.
impl Hash for Key {
    ghost hash_input = { λ k. k ∷ [] };

    ghost respects_eq = { Prim.search (hashing, rules) };

    fn hash<H: Hasher>(&self, state: &mut H) {
        state.write(self.as_bytes());
    }
}

/// The key as text, or its bytes if they are not UTF-8.
impl fmt::Debug for Key {
    fn fmt<W: fmt::Write>(&self, f: &mut fmt::Formatter<W>) -> fmt::Result {
        match str::from_utf8(self.as_bytes()) {
            Ok(text) => write!(f, "{text:?}"),
            Err(_) => write!(f, "{:?}", self.as_bytes()),
        }
    }
}
