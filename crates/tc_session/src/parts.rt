//! The bytes that wait to be sent, as slices for a wire.
ghost use Rattle.std.specs.Prelude.{◌≡◌, ◌≤◌, ◌<◌, ◌++◌, ◌↔◌, [], drop, length, IsTrue, IfOk};
ghost use Rattle.tc_session.specs.Unsent.{joined, reach, IsBegun};

use crate::chain::Chain;
use std::alloc::Global;
use std::marker::Model;
use tc_item::NoMemory;

/// Bytes in slices, one after another: own bytes, with shared data between them. Without shared
/// data they are one slice.
#[derive(Drop)]
pub struct Parts<'a> {
    own: &'a [u8],
    chain: &'a Chain,
    /// The index of the next piece.
    at: usize,
    /// Of the next piece and the own bytes before it, this many bytes are passed.
    passed: usize,
    len: usize,
}

impl<'a> Model for Parts<'a> {
    ghost use Rattle.std.specs.Prelude.{ℕ, List, length, drop, ◌≡◌, ◌≤◌};
    ghost use Rattle.tc_session.specs.Unsent.{joined, reach, IsBegun};

    ghost Value = { List ℕ };

    ghost view = { λ p. drop p.passed (joined p.own.now (drop p.at p.chain.now)) };

    ghost invariant = { λ p. (reach (drop p.at p.chain.now) ≤ length p.own.now)
        × IsBegun p.passed (drop p.at p.chain.now)
        × (p.len ≡ length (drop p.passed (joined p.own.now (drop p.at p.chain.now)))) };
}

impl<'a> Parts<'a> {
    /// Returns own bytes with the pieces of a chain between them, less the first `sent` bytes.
    pub(crate) fn new(own: &'a [u8], chain: &'a Chain, sent: usize) -> Parts<'a>
        requires reach { reach chain.now ≤ length own.now }
        requires begun { IsBegun sent chain.now }
        ensures { result ≡ drop sent (joined own.now chain.now) }
    {
        Parts {
            own,
            chain,
            at: 0,
            passed: sent,
            len: own.len() + chain.weight() - sent,
        }
    }

    /// Returns the number of bytes.
    pub fn len(&self) -> usize
        ensures { result ≡ length self.now }
    {
        self.len
    }

    /// Whether there is no byte.
    pub fn is_empty(&self) -> bool
        ensures { IsTrue result ↔ (self.now ≡ []) }
    {
        self.len == 0
    }

    /// Returns the first slice, and the rest. The slice is empty only if no bytes are left.
    pub fn split_first(&self) -> (&'a [u8], Parts<'a>)
        ensures split { self.now ≡ result.0.now ++ result.1 }
        ensures some { 0 < length self.now → 0 < length result.0.now }
    {
        let Some(piece) = self.chain.get(self.at) else {
            let behind = Parts {
                own: &[],
                chain: self.chain,
                at: self.at,
                passed: 0,
                len: 0,
            };
            return (self.own, behind);
        };
        if self.passed < piece.before {
            let first = &self.own[self.passed..piece.before];
            let behind = Parts {
                own: self.own,
                chain: self.chain,
                at: self.at,
                passed: piece.before,
                len: self.len - first.len(),
            };
            return (first, behind);
        }
        let first = &piece.blob.as_slice()[self.passed - piece.before..];
        let behind = Parts {
            own: &self.own[piece.before..],
            chain: self.chain,
            at: self.at + 1,
            passed: 0,
            len: self.len - first.len(),
        };
        (first, behind)
    }

    /// Returns a copy of all bytes.
    pub fn to_vec(&self, alloc: Global) -> Result<Vec<u8>, NoMemory>
        ensures { IfOk result (λ bytes. bytes.items ≡ self.now) }
    {
        let (first, mut behind) = self.split_first();
        let mut bytes = Vec::with_capacity(alloc, self.len)?;
        bytes.extend_from_slice(first)?;
        while !behind.is_empty() {
            let (slice, next) = behind.split_first();
            bytes.extend_from_slice(slice)?;
            behind = next;
        }
        Ok(bytes)
    }
}
