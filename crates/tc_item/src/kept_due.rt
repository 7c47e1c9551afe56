//! A due in the form that an item keeps.
ghost use Rattle.std.specs.Prelude.{◌≡◌};

use crate::Due;
use std::marker::Model;
use std::mem::size_of;

/// The seconds that one of the high word counts for.
const LOW: u64 = 1 << 32;

/// A due in 12 bytes, so that an entry has 64. A plain `Due` has 16.
#[derive(Drop)]
pub struct KeptDue {
    high: u32,
    low: u32,
    ends: bool,
}

const _: () = prove!(size_of::<KeptDue>() == 12);

impl Model for KeptDue {
    ghost use Rattle.tc_item.specs.declared.moment.Due.{Due};
    ghost use Rattle.tc_item.specs.KeptDues.{due_kept};

    ghost Value = { Due };

    ghost view = { λ d. due_kept d.ends d.high d.low };
}

impl KeptDue {
    /// Keeps a due.
    pub fn new(due: Due) -> KeptDue
        ensures { result ≡ due }
    {
        match due {
            Due::Never => KeptDue {
                high: 0,
                low: 0,
                ends: false,
            },
            Due::At(second) => KeptDue {
                high: (second / LOW) as u32,
                low: (second % LOW) as u32,
                ends: true,
            },
        }
    }

    /// Returns the due.
    pub fn get(&self) -> Due
        ensures { result ≡ self.now }
    {
        if self.ends {
            Due::At(u64::from(self.high) * LOW + u64::from(self.low))
        } else {
            Due::Never
        }
    }

    /// Returns the same due.
    pub fn copy(&self) -> KeptDue
        ensures { result ≡ self.now }
    {
        KeptDue {
            high: self.high,
            low: self.low,
            ends: self.ends,
        }
    }
}
