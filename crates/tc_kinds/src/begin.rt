//! The caches that users begin with.
ghost use Rattle.std.specs.Prelude.{◌≡◌, map, IfOk};
ghost use Rattle.tc_fresh.specs.Beginning.{fresh_cache};

use crate::kind::Kind;
use std::alloc::Global;
use std::hash::RandomState;
use tc_item::NoMemory;
use tc_users::Users;

/// Makes an empty cache of the kind for each user, in the order of the users' numbers. All hash by
/// `hasher`. Fails if memory is refused.
pub fn begin_all<C: Kind>(
    alloc: Global,
    users: &Users,
    hasher: RandomState,
) -> Result<Vec<C>, NoMemory>
    ensures caches { IfOk result (λ caches. map C.settled caches.items
        ≡ map fresh_cache users.now) }
{
    let mut caches = Vec::with_capacity(alloc, users.len())?;
    for row in users.rows() {
        caches.push(C::begin(alloc, row.budget, row.largest, hasher)?)?;
    }
    Ok(caches)
}
