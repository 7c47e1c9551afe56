//! Shared bytes: an item's data, which hits and the cache hold together, and long keys.
ghost use Rattle.std.specs.Prelude.{◌≡◌, ◌≤◌, [], length, IfOk, IsTrue, ◌↔◌};
ghost use Rattle.std.specs.Str.{bytes_eq};
ghost use Rattle.std.specs.Cmp.Rules.{comparing};
ghost use Rattle.std.proofs.Common.{rules};

use crate::NoMemory;
use arrayvec::ArrayVec;
use std::alloc::Global;
use std::fmt;
use std::marker::Model;
use std::mem::size_of;
use std::sync::Arc;

/// The most bytes that lie beside the count of their holders.
const BESIDE: usize = 232;

/// Immutable bytes with many holders. Up to 232 of them lie in one block with the count of their
/// holders, in the smallest of six sizes that fits. So reading them costs one access to memory, not
/// two.
pub struct Blob {
    shared: Shared,
}

/// The block that all holders share, by the number of bytes that it has room for.
#[derive(Drop)]
enum Shared {
    UpTo8(Arc<ArrayVec<u8, 8>>),
    UpTo40(Arc<ArrayVec<u8, 40>>),
    UpTo72(Arc<ArrayVec<u8, 72>>),
    UpTo104(Arc<ArrayVec<u8, 104>>),
    UpTo168(Arc<ArrayVec<u8, 168>>),
    UpTo232(Arc<ArrayVec<u8, 232>>),
    Longer(Arc<Vec<u8>>),
}

const _: () = prove!(size_of::<Blob>() == 16);

impl Model for Blob {
    ghost use Rattle.std.specs.Prelude.{ℕ, List};
    ghost use Rattle.tc_item.specs.BlobBytes.{bytes_shared};

    ghost Value = { List ℕ };

    ghost view = { λ b. bytes_shared b.shared };
}

impl Drop for Blob {
    fn drop(self) {
        let Blob { shared } = self;
        drop(shared);
    }
}

impl fmt::Debug for Blob {
    fn fmt<W: fmt::Write>(&self, f: &mut fmt::Formatter<W>) -> fmt::Result {
        self.as_slice().fmt(f)
    }
}

/// Copies the bytes into a block that also counts its holders.
fn beside<const N: usize>(alloc: Global, bytes: &[u8]) -> Result<Arc<ArrayVec<u8, N>>, NoMemory>
    requires { length bytes.now ≤ N }
    ensures { IfOk result (λ shared. shared.value.items ≡ bytes.now) }
{
    let place = ArrayVec::try_from(bytes).unwrap();
    Ok(Arc::new(alloc, place)?)
}

impl Blob {
    /// Makes a blob of the bytes. Up to 232 are copied; more are taken over.
    pub fn new(alloc: Global, bytes: Vec<u8>) -> Result<Blob, NoMemory>
        ensures { IfOk result (λ b. b ≡ bytes.items) }
    {
        if bytes.len() <= BESIDE {
            return Blob::from_slice(alloc, &bytes);
        }
        let shared = Shared::Longer(Arc::new(alloc, bytes)?);
        Ok(Blob { shared })
    }

    /// Copies the bytes.
    pub fn from_slice(alloc: Global, bytes: &[u8]) -> Result<Blob, NoMemory>
        ensures { IfOk result (λ b. b ≡ bytes.now) }
    {
        let shared = match bytes.len() {
            0..=8 => Shared::UpTo8(beside(alloc, bytes)?),
            9..=40 => Shared::UpTo40(beside(alloc, bytes)?),
            41..=72 => Shared::UpTo72(beside(alloc, bytes)?),
            73..=104 => Shared::UpTo104(beside(alloc, bytes)?),
            105..=168 => Shared::UpTo168(beside(alloc, bytes)?),
            169..=BESIDE => Shared::UpTo232(beside(alloc, bytes)?),
            _ => Shared::Longer(Arc::new(alloc, Vec::from_slice(alloc, bytes)?)?),
        };
        Ok(Blob { shared })
    }

    /// Returns the bytes.
    pub fn as_slice(&self) -> &[u8]
        ensures { result.now ≡ self.now }
    {
        match &self.shared {
            Shared::UpTo8(bytes) => bytes.as_slice(),
            Shared::UpTo40(bytes) => bytes.as_slice(),
            Shared::UpTo72(bytes) => bytes.as_slice(),
            Shared::UpTo104(bytes) => bytes.as_slice(),
            Shared::UpTo168(bytes) => bytes.as_slice(),
            Shared::UpTo232(bytes) => bytes.as_slice(),
            Shared::Longer(bytes) => bytes.as_slice(),
        }
    }

    /// Returns the number of bytes.
    pub fn len(&self) -> usize
        ensures { result ≡ length self.now }
    {
        self.as_slice().len()
    }

    /// Whether there is no byte.
    pub fn is_empty(&self) -> bool
        ensures { IsTrue result ↔ (self.now ≡ []) }
    {
        self.len() == 0
    }

    /// Reads the first byte and the last, so that a later reader of all need not wait for memory.
    /// The result has no meaning.
    pub fn read_ends(&self) -> u64 {
        match self.as_slice() {
            [first, .., last] => u64::from(*first).wrapping_add(u64::from(*last)),
            [only] => u64::from(*only),
            [] => 0,
        }
    }

    /// Returns another holder of the same bytes, which are not copied.
    #[inline(always)]
    pub fn copy(&self) -> Result<Blob, NoMemory>
        ensures { IfOk result (λ b. b ≡ self.now) }
    {
        let shared = match &self.shared {
            Shared::UpTo8(bytes) => Shared::UpTo8(bytes.clone()?),
            Shared::UpTo40(bytes) => Shared::UpTo40(bytes.clone()?),
            Shared::UpTo72(bytes) => Shared::UpTo72(bytes.clone()?),
            Shared::UpTo104(bytes) => Shared::UpTo104(bytes.clone()?),
            Shared::UpTo168(bytes) => Shared::UpTo168(bytes.clone()?),
            Shared::UpTo232(bytes) => Shared::UpTo232(bytes.clone()?),
            Shared::Longer(bytes) => Shared::Longer(bytes.clone()?),
        };
        Ok(Blob { shared })
    }
}

impl PartialEq for Blob {
    ghost eq = { bytes_eq };

    ghost laws = { Prim.search (comparing, rules) };

    fn eq(&self, other: &Blob) -> bool {
        self.as_slice() == other.as_slice()
    }
}

impl Eq for Blob {
    ghost laws = { Prim.search (comparing, rules) };
}
