//! When a delayed flush takes effect.
ghost use Rattle.std.specs.Prelude.{◌≡◌};
ghost use Rattle.tc_plain.specs.EvictionState.{is_flush_due};

use tc_item::Moment;

/// Returns whether a pending flush is due at the moment. `flush` is the second at which all entries
/// go.
pub fn is_flush_due(flush: Option<u64>, moment: Moment) -> bool
    ensures { result ≡ is_flush_due flush moment }
{
    match flush {
        None => false,
        Some(second) => second <= moment.seconds(),
    }
}
