//! The two ends of the channel over which connections reach a worker.
ghost use Rattle.std.specs.Prelude.{◌≡◌, IfErr};
ghost use Rattle.crossbeam_channel.specs.Claims.{IsSeatAt};
ghost use Rattle.crossbeam_channel.specs.Ends.{sends_on, receives_on};

use crate::socket::Socket;
use crossbeam_channel::protocol::{Free, Split};
use crossbeam_channel::{Pass, RuledReceiver, RuledSender, bounded_with};
use mio::Waker;
use mio::net::TcpStream;
use std::alloc::{AllocError, Global};
use std::sync::{Arc, Wait};
use tc_links::Talk;

/// The most connections that wait for one worker.
const MOST_WAITING: usize = 1_024;

/// Splits a pass into two equal ones.
struct Same;

impl Split<()> for Same {
    ghost left = { λ v. v };

    ghost right = { λ v. v };
}

/// A connection on its way to a worker.
#[derive(Drop)]
pub(crate) enum Arrival {
    /// From the listener, with its number and its place among the connections.
    New {
        conn: u32,
        place: usize,
        stream: TcpStream,
    },
    /// From another worker. It is boxed so that the channel's 1,024 slots stay small.
    Passed(Box<Talk<Socket>>),
}

/// The sending end of a worker's channel, and the worker's waker.
#[derive(Drop)]
pub(crate) struct Outlet {
    to: RuledSender<Arrival, (), Free>,
    pass: Pass<Arrival, ()>,
    waker: Arc<Waker, Global>,
    ghost fits: { IsSeatAt (sends_on to) pass },
}

/// The receiving end of a worker's channel.
#[derive(Drop)]
pub(crate) struct Intake {
    from: RuledReceiver<Arrival, (), Free>,
    pass: Pass<Arrival, ()>,
    ghost fits: { IsSeatAt (receives_on from) pass },
}

/// Makes both ends of a worker's channel; `waker` wakes the worker.
pub(crate) fn handover(alloc: Global, waker: Waker) -> Result<(Outlet, Intake), AllocError> {
    let Ok(waker) = Arc::new(alloc, waker) else {
        return Err(AllocError);
    };
    let (to, from, mut pass) = bounded_with::<Arrival, (), Free, Global>(alloc, MOST_WAITING)?;
    let theirs = to.another::<Same>(&mut pass);
    Ok((Outlet { to, pass, waker }, Intake { from, pass: theirs }))
}

impl Outlet {
    /// Returns another outlet to the same worker.
    pub(crate) fn another(&mut self) -> Result<Outlet, AllocError> {
        let to = self.to.try_clone()?;
        let waker = Arc::try_clone(&self.waker)?;
        let pass = self.to.another::<Same>(&mut self.pass);
        Ok(Outlet { to, pass, waker })
    }

    /// Sends a connection to the worker and wakes it. The connection comes back if 1,024 wait
    /// already, or if the worker has ended.
    pub(crate) fn send<R: Wait>(&mut self, rt: &R, arrival: Arrival) -> Result<(), Arrival>
        ensures back { IfErr result (λ back. back ≡ arrival) }
    {
        match self.to.try_send_as::<Free, R>(rt, &mut self.pass, arrival) {
            Ok(()) => {
                // A failed wake costs a delay: the worker looks by itself within 1 s.
                self.wake();
                Ok(())
            }
            Err(refused) => Err(refused.into_inner()),
        }
    }

    /// Wakes the worker, so that it looks for connections and marks.
    pub(crate) fn wake(&self) {
        let _ = self.waker.wake();
    }
}

impl Intake {
    /// Returns the next connection that waits, or `None`. It never blocks on an empty channel.
    pub(crate) fn take<R: Wait>(&mut self, rt: &R) -> Option<Arrival> {
        self.from.try_recv_as::<Free, R>(rt, &mut self.pass).ok()
    }
}
