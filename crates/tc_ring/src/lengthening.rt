//! Vectors without spare room.
ghost use Rattle.std.specs.Prelude.{◌≡◌, ◌≤◌, length, OnOk, OnErr};
ghost use Rattle.tc_ring.specs.Lengthening.{lengthened};

use tc_item::NoMemory;

/// Appends copies of `blank` until there are `count` values, without spare room: a vector's own
/// `resize` would reserve twice as much. A refusal changes nothing.
pub fn lengthen<T: Copy>(values: &mut Vec<T>, count: usize, blank: T) -> Result<(), NoMemory>
    requires { length values.old.items ≤ count }
    ensures items { OnOk result (values.new.items ≡ lengthened count blank values.old.items) }
    ensures long { OnOk result (length values.new.items ≡ count) }
    ensures unchanged_on_err { OnErr result (values.new.items ≡ values.old.items) }
{
    values.reserve_exact(count - values.len())?;
    values.resize(count, blank)?;
    Ok(())
}
