//! What a command will do, and to which slot.
ghost use Rattle.std.specs.Prelude.{◌≡◌, ℕ, List};
ghost use Rattle.tc_item.specs.KeyHash.{hash as hash_of};
ghost use Rattle.tc_plain.specs.Plans.{IsUnder};
ghost use Rattle.tc_partition.specs.LiveSlots.{plan_of};
ghost use Rattle.tc_partition.specs.WaitingSlots.{SeeksSlot};
ghost use Rattle.tc_partition.specs.Working.{is_new, IsSought};
ghost use Rattle.tc_partition.specs.declared.live_slots.LiveSlots.{LiveSlots};

use tc_item::{Key, Slot};
use tc_plain::{Draft, End, Plan};

/// What a command will do: end at once, or first store a draft under a key with the next cas
/// number.
#[derive(Drop)]
pub enum Work {
    Ends(End),
    Changes {
        end: End,
        /// The slot of the entry that the key holds. The draft goes to a vacant slot if there is
        /// none.
        place: Option<Slot>,
        /// The key's hash.
        hash: u64,
        key: Key,
        draft: Draft,
    },
}

impl Work {
    /// The work of a plan, whose key has this hash and was found in this slot, or holds nothing.
    pub fn of(hash: u64, place: Option<Slot>, plan: Plan) -> Work
        ensures plan { plan_of result ≡ plan }
        ensures sought { (moment : ℕ) (key : List ℕ) (live : LiveSlots)
            → hash ≡ hash_of key → SeeksSlot place moment key live → IsUnder key plan
            → IsSought moment result live }
    {
        match plan {
            Plan::Ends(end) => Work::Ends(end),
            Plan::Changes(end, key, draft) => Work::Changes {
                end,
                place,
                hash,
                key,
                draft,
            },
        }
    }

    /// Returns whether the work fills a vacant slot.
    pub fn is_new(&self) -> bool
        ensures { result ≡ is_new self.now }
    {
        match self {
            Work::Ends(_) => false,
            Work::Changes { place, .. } => place.is_none(),
        }
    }
}
