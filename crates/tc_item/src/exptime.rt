//! The meaning of an exptime of the protocol. Source: memcached's doc/protocol.txt, "Expiration
//! times".
ghost use Rattle.std.specs.Prelude.{◌≡◌};
ghost use Rattle.tc_item.specs.Expiry.{due_of};

use crate::{Due, LONGEST_OFFSET, Moment};

/// Returns the due of an exptime. 0 is never and a negative one is `now`. Up to 2,592,000 (thirty
/// days) counts seconds from `now`; above that it is a second since 1970.
pub fn due(exptime: i64, now: Moment) -> Due
    ensures { result ≡ due_of exptime now }
{
    if exptime < 0 {
        Due::At(now.seconds())
    } else if exptime == 0 {
        Due::Never
    } else if exptime <= LONGEST_OFFSET {
        Due::At(now.seconds() + exptime as u64)
    } else {
        Due::At(exptime as u64)
    }
}
