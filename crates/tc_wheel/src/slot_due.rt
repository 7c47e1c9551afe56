//! When a held slot is due, in eight bytes.
ghost use Rattle.std.specs.Prelude.{◌≡◌, Some, None};

use std::marker::Model;
use tc_item::Moment;

/// When a slot is due, if it is held.
#[derive(Clone, Copy)]
pub struct SlotDue {
    /// The second after that of the due; 0 if the slot is not held.
    end: u64,
}

impl Model for SlotDue {
    ghost use Rattle.std.specs.Prelude.{ℕ, Option, ◌≤◌};

    ghost Value = { Option ℕ };

    ghost use Rattle.tc_item.specs.Bounds.{moment_limit};
    ghost use Rattle.tc_wheel.specs.SlotDues.{due_of, end_of, end_of-due_of};

    ghost view = { λ d. due_of d.end };

    ghost invariant = { λ d. d.end ≤ moment_limit };

    ghost inverse = { λ due. record { end = end_of due } };

    ghost inverse_ok = { λ d h i. record { end = end_of-due_of d.end i } };
}

impl SlotDue {
    /// The value for a slot that is not held.
    pub const NONE: SlotDue = SlotDue { end: 0 };

    /// The value for a slot that is due at a moment.
    pub fn at(due: Moment) -> SlotDue
        ensures { result ≡ Some due }
    {
        SlotDue {
            end: due.seconds() + 1,
        }
    }

    /// Returns the moment at which the slot is due, if it is held.
    pub fn moment(self) -> Option<Moment>
        ensures { result ≡ self }
    {
        if self.end == 0 {
            None
        } else {
            Some(Moment::new(self.end - 1))
        }
    }
}
