//! The caches that users begin with.
ghost use Rattle.std.specs.Prelude.{◌≡◌, map, IfOk, All};
ghost use Rattle.tc_fresh.specs.Beginning.{fresh_cache, IsEmptyCache};

use std::alloc::Global;
use tc_item::NoMemory;
use tc_plain::Plain;
use tc_users::Users;

/// Makes an empty plain cache for each user, in the order of the users' numbers. Fails if memory is
/// refused.
pub fn fresh_caches(alloc: Global, users: &Users) -> Result<Vec<Plain>, NoMemory>
    ensures caches { IfOk result (λ caches. caches.items ≡ map fresh_cache users.now) }
    ensures empty { IfOk result (λ _. All IsEmptyCache (map fresh_cache users.now)) }
{
    let mut caches = Vec::with_capacity(alloc, users.len())?;
    for row in users.rows() {
        caches.push(Plain::new(alloc, row.budget, row.largest)?)?;
    }
    Ok(caches)
}
