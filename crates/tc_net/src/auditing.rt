//! The audit at a server's end.
use crate::audience::Audience;
use std::alloc::Global;
use tc_item::NoMemory;
use tc_locked::{Closed, Hall, Naming, Seat, Unread};
use tc_plain::Cache;
use tc_users::UserNo;

/// The result of a server's audit.
#[derive(Clone, Copy, PartialEq, Eq)]
pub enum Found {
    /// Each call has the same outcome again; or no audit was asked for, or none could be made.
    Nothing,
    /// A call of a user's last page has another outcome if it is repeated.
    Differs,
}

impl Found {
    /// Combines this result with those before it.
    fn or(self, before: Found) -> Found {
        match self {
            Found::Nothing => before,
            Found::Differs => Found::Differs,
        }
    }
}

/// Repeats the calls of a user's last page, and tells the audience the result.
fn audit_user<C: Cache, N: Naming, A: Audience>(
    alloc: Global,
    closed: &Closed<C, N>,
    user: UserNo,
    audience: &A,
) -> Result<Found, Unread> {
    let Some(audit) = closed.audit(alloc, user)? else {
        return Ok(Found::Nothing);
    };
    audience.audited(user, &audit);
    match audit.difference {
        None => Ok(Found::Nothing),
        Some(_) => Ok(Found::Differs),
    }
}

/// Repeats the calls of each user's last page, in the order of the users' numbers.
fn audit_users<C: Cache, N: Naming, A: Audience>(
    alloc: Global,
    closed: &Closed<C, N>,
    users: u32,
    audience: &A,
) -> Result<Found, Unread> {
    let mut found = Found::Nothing;
    for number in 1..=users {
        found = audit_user(alloc, closed, UserNo::new(number), audience)?.or(found);
    }
    Ok(found)
}

/// Closes the hall with all its seats, and audits it.
pub(crate) fn audit_hall<C: Cache, N: Naming, A: Audience>(
    alloc: Global,
    hall: Hall<C, N>,
    seats: Vec<Seat<N>>,
    audience: &A,
) -> Result<Found, NoMemory> {
    let users = hall.users();
    let Ok(closed) = hall.close(seats) else {
        // The crew gives each seat back, so no server ends this way.
        audience.not_audited();
        return Ok(Found::Nothing);
    };
    match audit_users(alloc, &closed, users, audience) {
        Ok(found) => Ok(found),
        Err(Unread::NoMemory) => Err(NoMemory),
        Err(Unread::Off) => {
            // A server that audits has its journal on.
            audience.not_audited();
            Ok(Found::Nothing)
        }
    }
}
