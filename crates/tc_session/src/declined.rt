//! The list of declined requests, in proofs alone.
ghost use Rattle.std.specs.Prelude.{◌≡◌, ◌++◌, ◌∷◌, []};

use http_server::Log;
use std::marker::Model;
use tc_feed::Feed;
use tc_users::UserNo;

/// The requests that a connection declined for lack of memory: the unread bytes before each, and
/// the user. Only `Session::ask` adds to it, on a retry that was refused memory. It exists in
/// proofs alone: at run time it is empty and takes no memory.
#[derive(Drop)]
pub struct Declined {
    log: Log<Feed, UserNo>,
}

impl Model for Declined {
    ghost use Rattle.std.specs.Prelude.{List};
    ghost use Rattle.tc_session.specs.Declines.{Decline};

    ghost Value = { List Decline };

    ghost view = { λ d. d.log.items };
}

impl Declined {
    /// Returns the empty list.
    pub fn new() -> Declined
        ensures { result ≡ [] }
    {
        Declined { log: Log::new() }
    }

    /// Returns the list with one request more.
    pub(crate) fn and(&self, unread: &Feed, user: UserNo) -> Declined
        ensures { result ≡ self.now ++ (unread.now, user) ∷ [] }
    {
        Declined {
            log: self.log.and(unread, &user),
        }
    }
}
