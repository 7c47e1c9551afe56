//! Which worker serves which user.
ghost use Rattle.std.specs.Prelude.{◌≡◌, ◌*◌, ◌<◌, ℕ, Option, None};
ghost use Rattle.tc_links.specs.Homes.{elsewhere, home_of as nth_home};

use std::alloc::Global;
use std::sync::Arc;
use tc_fairness::Shares;
use tc_users::UserNo;

/// Returns the worker, counted from 0, that is a user's home. Users are assigned to the workers in
/// turn, by number.
pub fn home_of(user: UserNo, workers: usize) -> usize
    requires { 0 < workers }
    ensures { result ≡ nth_home workers user }
{
    user.number().saturating_sub(1) as usize % workers
}

/// Where users' connections are served, as one worker sees it.
#[derive(Drop)]
pub struct Homes {
    /// This worker, counted from 0.
    own: usize,
    /// The number of workers to which users are assigned.
    workers: usize,
    /// Who helps each home; `None` if nobody does.
    shares: Option<Arc<Shares, Global>>,
    ghost some: { 0 < workers },
}

impl Homes {
    /// Makes homes by which each connection stays with the worker to which it came.
    pub fn spread() -> Homes
        ensures { (result.own ≡ 0) × (result.workers ≡ 1) }
    {
        Homes {
            own: 0,
            workers: 1,
            shares: None,
        }
    }

    /// Makes the homes as the worker `own` of `workers` sees them, counted from 0. Helpers take
    /// connections of a home as `shares` says.
    pub fn by_user(own: usize, workers: usize, shares: Option<Arc<Shares, Global>>) -> Homes
        requires { 0 < workers }
        ensures { (result.own ≡ own) × (result.workers ≡ workers) }
    {
        Homes {
            own,
            workers,
            shares,
        }
    }

    /// Returns the worker that serves a connection of a user, the user's home or a helper of it;
    /// `None` if it is this worker.
    pub fn elsewhere(&self, user: UserNo, conn: u32) -> Option<usize>
        ensures { (helper : Option ℕ)
            × (result ≡ elsewhere self.now.own self.now.workers user helper)
            × (self.now.shares ≡ None → helper ≡ None) }
    {
        let home = home_of(user, self.workers);
        let place = match self.helper(home, conn) {
            None => home,
            Some(helper) => helper % self.workers,
        };
        if place == self.own { None } else { Some(place) }
    }

    /// Returns the helper that serves a connection of a home's users; `None` if the home itself
    /// does.
    fn helper(&self, home: usize, conn: u32) -> Option<usize>
        ensures { self.now.shares ≡ None → result ≡ None }
    {
        match &self.shares {
            None => None,
            Some(shares) => shares.helper(home, conn),
        }
    }
}
