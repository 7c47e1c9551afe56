//! A socket that no poll watches, over any stream.
ghost use Rattle.std.specs.Prelude.{◌≡◌, IfOk};

use crate::socket::Socket;
use crate::stream::Stream;
use std::alloc::{AllocError, Global};
use std::net::SocketAddr;
use std::sync::Arc;
use tc_connections::{Connections, READABLE, Readiness, WRITABLE};
use tc_limits::{ConnectionLimits, LimitsByUser};
use tc_links::Wire;

/// Marks one socket as readable and writable, in place of a poll.
#[derive(Drop)]
pub struct Rouser {
    readiness: Arc<Readiness, Global>,
}

impl Rouser {
    /// Marks the socket as readable and writable.
    pub fn rouse(&self) {
        self.readiness.set(0, READABLE | WRITABLE);
    }
}

/// Makes connections without limits.
fn unlimited(alloc: Global) -> Result<Connections, AllocError> {
    let limits = ConnectionLimits {
        login_seconds: None,
        stalled_seconds: None,
        unbound_connections: None,
    };
    Connections::new(alloc, limits, LimitsByUser::new(Vec::new(alloc)))
}

/// Makes a socket over `stream`, from `peer`, alone among connections without limits. It is
/// readable and writable at first, and again each time the `Rouser` says so.
pub fn unpolled<S: Stream>(
    alloc: Global,
    stream: S,
    peer: SocketAddr,
) -> Result<(Socket<S>, Rouser), AllocError>
    ensures gave { IfOk result (λ both. ⟦<Socket<S> as Wire>⟧.gave both.0 ≡ S.gave stream) }
    ensures took { IfOk result (λ both. ⟦<Socket<S> as Wire>⟧.took both.0 ≡ S.took stream) }
{
    let Ok(connections) = Arc::new(alloc, unlimited(alloc)?) else {
        return Err(AllocError);
    };
    let Ok(readiness) = Arc::new(alloc, Readiness::new(alloc, 1, 1)?) else {
        return Err(AllocError);
    };
    let Some(place) = connections.enter(1, peer) else {
        return Err(AllocError);
    };
    let rouser = Rouser {
        readiness: Arc::try_clone(&readiness)?,
    };
    let mut socket = Socket::new(stream, connections, place);
    if !socket.claim(readiness) {
        return Err(AllocError);
    }
    Ok((socket, rouser))
}
