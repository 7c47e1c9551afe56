//! Data shared with the cache, between a connection's own bytes.
ghost use Rattle.std.specs.Prelude.{◌≡◌, ◌≤◌, ◌<◌, ◌+◌, ◌^◌, ◌++◌, ◌∷◌, [], drop, length};
ghost use Rattle.std.specs.Prelude.{IfOk, OnOk, OnErr, IfSome, MatchOption};
ghost use Rattle.tc_session.specs.Unsent.{reach, weight, HaveData, IsBegun};

use std::alloc::Global;
use std::collections::VecDeque;
use std::marker::Model;
use tc_item::{Blob, NoMemory};

/// Shared data, and where it belongs.
#[derive(Drop)]
pub(crate) struct Piece {
    /// The number of own bytes between the piece before and this one.
    pub before: usize,
    /// One or more bytes.
    pub blob: Blob,
}

/// Pieces, in the order in which they are sent.
#[derive(Drop)]
pub(crate) struct Chain {
    pieces: VecDeque<Piece>,
    /// The number of own bytes before the last piece's data.
    reach: usize,
    /// The number of shared bytes.
    weight: usize,
}

impl Model for Chain {
    ghost use Rattle.std.specs.Prelude.{List, ◌≡◌, ◌≤◌, ◌^◌};
    ghost use Rattle.tc_session.specs.declared.chain.Piece.{Piece};
    ghost use Rattle.tc_session.specs.Unsent.{reach as reach_of, weight as weight_of, HaveData};

    ghost Value = { List Piece };

    ghost view = { λ c. c.pieces.items };

    ghost invariant = { λ c. (c.reach ≡ reach_of c.pieces.items)
        × (c.weight ≡ weight_of c.pieces.items) × (c.weight ≤ 2 ^ 62) × HaveData c.pieces.items };
}

/// The most bytes that a chain counts: more than any memory has.
const MOST_COUNTED: usize = 1 << 62;

/// The most pieces for which room stays once all are sent.
const KEPT_PIECES: usize = 1_024;

/// Returns the sum of two counts of bytes, or `NoMemory` above `MOST_COUNTED`.
fn sum_of(a: usize, b: usize) -> Result<usize, NoMemory>
    ensures { IfOk result (λ n. (n ≡ a + b) × (n ≤ 2 ^ 62)) }
{
    match a.checked_add(b) {
        Some(sum) if sum <= MOST_COUNTED => Ok(sum),
        _ => Err(NoMemory),
    }
}

impl Chain {
    /// Returns an empty chain.
    pub fn new(alloc: Global) -> Chain
        ensures { result ≡ [] }
    {
        Chain {
            pieces: VecDeque::new(alloc),
            reach: 0,
            weight: 0,
        }
    }

    /// Returns an empty chain with room for `count` pieces.
    pub fn with_capacity(alloc: Global, count: usize) -> Result<Chain, NoMemory>
        ensures { IfOk result (λ chain. chain ≡ []) }
    {
        Ok(Chain {
            pieces: VecDeque::with_capacity(alloc, count)?,
            reach: 0,
            weight: 0,
        })
    }

    /// Returns the number of own bytes before the last piece's data.
    pub fn reach(&self) -> usize
        ensures { result ≡ reach self.now }
    {
        self.reach
    }

    /// Returns the number of shared bytes.
    pub fn weight(&self) -> usize
        ensures value { result ≡ weight self.now }
        ensures few { result ≤ 2 ^ 62 }
    {
        self.weight
    }

    /// Returns the piece at an index from 0.
    pub fn get(&self, at: usize) -> Option<&Piece>
        ensures found { MatchOption result (drop at self.now ≡ [])
            (λ piece. drop at self.now ≡ piece.now ∷ drop (at + 1) self.now) }
        ensures some { IfSome result (λ piece. 0 < length piece.now.blob) }
        ensures few { IfSome result (λ _. at < 2 ^ 63) }
        ensures light { IfSome result (λ piece. length piece.now.blob ≤ 2 ^ 62) }
        ensures behind { IsBegun 0 (drop (at + 1) self.now) }
    {
        self.pieces.get(at)
    }

    /// Appends data that follows `before` own bytes. If memory is refused, nothing changes.
    pub fn push(&mut self, before: usize, blob: Blob) -> Result<(), NoMemory>
        requires { 0 < length blob }
        ensures pushed { OnOk result (self.new
            ≡ self.old ++ (record { before = before; blob = blob } ∷ [])) }
        ensures unchanged_on_err { OnErr result (self.new ≡ self.old) }
    {
        let reach = sum_of(self.reach, before)?;
        let weight = sum_of(self.weight, blob.len())?;
        self.pieces.push_back(Piece { before, blob })?;
        self.reach = reach;
        self.weight = weight;
        Ok(())
    }

    /// Appends pieces. If memory is refused, nothing changes.
    pub fn append(&mut self, behind: Chain) -> Result<(), NoMemory>
        ensures appended { OnOk result (self.new ≡ self.old ++ behind) }
        ensures some { HaveData behind }
        ensures unchanged_on_err { OnErr result (self.new ≡ self.old) }
    {
        let mut behind = behind;
        let reach = sum_of(self.reach, behind.reach)?;
        let weight = sum_of(self.weight, behind.weight)?;
        self.pieces.append(&mut behind.pieces)?;
        self.reach = reach;
        self.weight = weight;
        Ok(())
    }

    /// Removes the first piece, if there is one.
    pub fn pop(&mut self)
        ensures { self.new ≡ drop 1 self.old }
    {
        if let Some(piece) = self.pieces.pop_front() {
            self.reach -= piece.before;
            self.weight -= piece.blob.len();
        }
    }

    /// Removes all pieces, and frees their room if that is for more than `KEPT_PIECES`.
    pub fn clear(&mut self)
        ensures { self.new ≡ [] }
    {
        self.pieces.clear();
        if self.pieces.capacity() > KEPT_PIECES {
            self.pieces.shrink_to(0);
        }
        self.reach = 0;
        self.weight = 0;
    }
}
