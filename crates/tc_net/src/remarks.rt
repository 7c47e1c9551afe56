//! Notices for the operator of what a worker remarked on a connection.
use std::net::SocketAddr;
use tc_connections::Notice;
use tc_links::{News, Remark};
use tc_users::UserNo;

/// Returns the notice of a remark on a connection from `peer`, whose user is `None` before its
/// login.
pub(crate) fn notice_of(peer: SocketAddr, user: Option<UserNo>, remark: Remark) -> Notice {
    match remark {
        Remark::News(News::LoginRefused(user)) => Notice::LoginRefused { peer, user },
        Remark::News(News::LongBlock) => Notice::LongBlock { peer },
        Remark::News(News::NoMemory) => Notice::NoMemory { peer, user },
        Remark::IsBinary => Notice::Binary { peer },
        Remark::HoldsUp => Notice::HoldsUp { peer, user },
    }
}
