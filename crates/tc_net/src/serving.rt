//! A server from its settings to its end.
ghost use Rattle.std.specs.Prelude.{◌≡◌, ◌<◌, ◌+◌, map, IfOk};
ghost use Rattle.tc_fresh.specs.Beginning.{fresh_cache};
ghost use Rattle.tc_net.specs.Ends.{journal_of, page_length};

use crate::at_end::AtEnd;
use crate::audience::Audience;
use crate::auditing::{Found, audit_hall};
use crate::beginning::{Beginning, ServerSettings};
use crate::clocking::{Ticking, moment_now};
use crate::counting::Counting;
use crate::descriptors::room_by;
use crate::event_loop::EventLoop;
use crate::handover::Outlet;
use crate::listening::Listening;
use crate::scraping::Scraping;
use crate::socket::Socket;
use std::alloc::{AllocError, Global};
use std::io::ErrorKind;
use std::net::{Net, SocketAddr};
use std::sync::{Arc, Wait};
use std::thread::Threads;
use std::time::{Clock as Time, Instant};
use std::{io, mem, thread};
use tc_connections::Connections;
use tc_fairness::Shares;
use tc_item::NoMemory;
use tc_limits::{Address, LimitsByUser};
use tc_links::{Homes, Open};
use tc_locked::{Clock, Hall, Naming, Seat};
use tc_plain::Cache;
use tc_users::Users;
use tc_workers::{Keeper, Returned, Worker, run_crew};

/// Why a server can't serve.
#[derive(Debug, Drop, Clone, Copy, PartialEq, Eq)]
pub enum Unserved {
    /// The address of the server or of the metrics doesn't parse or can't be listened on, or the system refused a
    /// poll.
    CannotListen,
    /// Memory or a thread was refused.
    NoMemory,
}

impl From<NoMemory> for Unserved {
    fn from(_refused: NoMemory) -> Unserved {
        Unserved::NoMemory
    }
}

impl From<AllocError> for Unserved {
    fn from(_refused: AllocError) -> Unserved {
        Unserved::NoMemory
    }
}

impl From<io::Error> for Unserved {
    fn from(error: io::Error) -> Unserved {
        match error.kind() {
            ErrorKind::OutOfMemory => Unserved::NoMemory,
            _ => Unserved::CannotListen,
        }
    }
}

/// Which worker serves a connection once its user is known.
#[derive(Clone, Copy, PartialEq, Eq)]
pub enum Affinity {
    /// The worker of its user, or a helper of that one. Users are assigned to the workers in turn, by number.
    ByUser,
    /// The worker to which the listener handed it.
    Spread,
}

#[derive(Drop)]
struct Hired<N: Naming, R: Wait + Time + Drop> {
    worker: Worker<Socket, N>,
    event_loop: EventLoop<R>,
    outlet: Outlet,
}

/// Makes one of `workers` workers, for a seat.
fn hire<N: Naming, R: Wait + Net + Time + AllocGlobal + Copy + Drop>(
    rt: &R,
    alloc: Global,
    connections: &Arc<Connections, Global>,
    begun: Option<Instant>,
    workers: usize,
    seat: Seat<N>,
) -> Result<Hired<N, R>, Unserved> {
    let (event_loop, outlet) = EventLoop::new(rt, *rt, shared(connections)?, begun, workers)?;
    let Ok(worker) = Worker::new(alloc, seat) else {
        return Err(Unserved::NoMemory);
    };
    Ok(Hired {
        worker,
        event_loop,
        outlet,
    })
}

fn shared(connections: &Arc<Connections, Global>) -> Result<Arc<Connections, Global>, Unserved> {
    match Arc::try_clone(connections) {
        Ok(connections) => Ok(connections),
        Err(_) => Err(Unserved::NoMemory),
    }
}

/// A worker with its inlet.
type Member<N, R> = (Worker<Socket, N>, EventLoop<R>);

/// All workers with their inlets, and the outlets to them.
#[derive(Drop)]
struct Staff<N: Naming, R: Wait + Time + Drop> {
    crew: Vec<Member<N, R>>,
    outlets: Vec<Outlet>,
}

impl<N: Naming, R: Wait + Time + Drop> Staff<N, R> {
    /// Adds a worker. A refusal changes nothing.
    fn add(&mut self, hired: Hired<N, R>) -> Result<(), AllocError> {
        self.outlets.reserve(1)?;
        self.crew.reserve(1)?;
        let Hired {
            worker,
            event_loop,
            outlet,
        } = hired;
        self.outlets.push_reserved(outlet);
        self.crew.push_reserved((worker, event_loop));
        Ok(())
    }
}

/// Makes a worker for each seat.
fn hire_all<N: Naming, R: Wait + Net + Time + AllocGlobal + Copy + Drop>(
    rt: &R,
    alloc: Global,
    connections: &Arc<Connections, Global>,
    begun: Option<Instant>,
    seats: Vec<Seat<N>>,
) -> Result<Staff<N, R>, Unserved> {
    let workers = seats.len();
    let mut staff = Staff {
        crew: Vec::new(alloc),
        outlets: Vec::new(alloc),
    };
    for seat in seats {
        let hired = hire(rt, alloc, connections, begun, workers, seat)?;
        staff.add(hired)?;
    }
    Ok(staff)
}

fn another_each(alloc: Global, outlets: &mut Vec<Outlet>) -> Result<Vec<Outlet>, AllocError> {
    let mut others = Vec::new(alloc);
    for outlet in outlets.iter_mut() {
        others.push(outlet.another()?)?;
    }
    Ok(others)
}

/// Assigns users to `workers` workers, and counts the workers' work so that helpers come and go.
fn deal_out<N: Naming, R: Wait + Time + Drop>(
    alloc: Global,
    staff: &mut Staff<N, R>,
    workers: usize,
) -> Result<Counting, AllocError>
    requires { 0 < workers }
{
    let shares = Arc::new(alloc, Shares::new(alloc, workers)?)?;
    let mut counted = Vec::new(alloc);
    for (own, member) in staff.crew.iter_mut().enumerate() {
        let (worker, event_loop) = member;
        let theirs = Arc::try_clone(&shares)?;
        worker.set_homes(Homes::by_user(own, workers, Some(theirs)));
        event_loop.set_outlets(another_each(alloc, &mut staff.outlets)?);
        counted.push(event_loop.readiness()?)?;
    }
    Counting::new(alloc, counted, shares)
}

/// All workers with their inlets, and what the keeper's source is made of.
#[derive(Drop)]
struct Hiring<N: Naming, R: Wait + Time + Drop> {
    crew: Vec<Member<N, R>>,
    connections: Arc<Connections, Global>,
    /// The seat for the metrics.
    own: Seat<N>,
    /// Counts the workers' work; `None` with `Affinity::Spread`.
    counting: Option<Counting>,
}

/// Makes a worker for each seat but the last, which is for the metrics, and assigns users to them if `affinity`
/// says so. Also returns the outlets to the workers.
fn hire_staff<N: Naming, R: Wait + Net + Time + AllocGlobal + Copy + Drop>(
    rt: &R,
    alloc: Global,
    connections: &Arc<Connections, Global>,
    begun: Option<Instant>,
    mut seats: Vec<Seat<N>>,
    affinity: Affinity,
    workers: usize,
) -> Result<(Hiring<N, R>, Vec<Outlet>), Unserved>
    requires { 0 < workers }
{
    let theirs = shared(connections)?;
    let Some(own) = seats.pop() else {
        return Err(Unserved::NoMemory);
    };
    let mut staff = hire_all(rt, alloc, connections, begun, seats)?;
    let counting = match affinity {
        Affinity::ByUser => Some(deal_out(alloc, &mut staff, workers)?),
        Affinity::Spread => None,
    };
    let Staff { crew, outlets } = staff;
    let hiring = Hiring {
        crew,
        connections: theirs,
        own,
        counting,
    };
    Ok((hiring, outlets))
}

/// Opens the listener, which hands connections to these outlets. If it can't, the audience learns why.
fn open_listener<R: Net + AllocGlobal, A: Audience>(
    rt: &R,
    opening: Opening,
    outlets: Vec<Outlet>,
    connections: &Arc<Connections, Global>,
    audience: &A,
) -> Result<Listening, Unserved> {
    let connections = shared(connections)?;
    match Listening::new(rt, opening.address, outlets, connections, opening.until) {
        Ok(listening) => Ok(listening),
        Err(error) => {
            audience.cannot_listen(&error);
            Err(Unserved::from(error))
        }
    }
}

/// Opens the metrics' listener if the settings ask for one. The audience learns where it listens, or why it can't.
fn listen_for_metrics<R: Net + AllocGlobal, A: Audience>(
    rt: &R,
    metrics: &Option<Address>,
    users: &Users,
    audience: &A,
) -> Result<Option<Scraping>, Unserved> {
    let Some(metrics) = metrics else {
        return Ok(None);
    };
    let Ok(address) = metrics.as_str().parse::<SocketAddr>() else {
        return Err(Unserved::CannotListen);
    };
    match Scraping::new(rt, address, users) {
        Ok(scraping) => {
            audience.tells_metrics(scraping.address().unwrap_or(address));
            Ok(Some(scraping))
        }
        Err(error) => {
            audience.cannot_tell_metrics(&error);
            Err(Unserved::from(error))
        }
    }
}

/// Listens and serves until `until` connections were closed; with `None`, until the process ends.
///
/// The audience learns where the server listens or why it can't, and then what happens to connections. If `at_end`
/// asks for an audit, the audience learns the result.
///
/// The hall has a seat for each worker and one for the metrics. Its journal is on only for an audit; otherwise no
/// page ends and none keeps anything.
pub fn serve<
    C: Cache + Send + Sync,
    N: Naming + Send + Sync,
    R: Threads + Wait + Net + Time + AllocGlobal + Send + Sync + Copy + Drop + 'static,
    A: Audience + Sync,
>(
    rt: &R,
    alloc: Global,
    beginning: Beginning<C>,
    affinity: Affinity,
    until: Option<u64>,
    at_end: AtEnd,
    audience: &A,
) -> Result<Found, Unserved>
    requires name { beginning.opened ≡ N.table }
    requires begins { N.terms.begins ≡ map fresh_cache beginning.settings.users }
    requires seats { N.terms.seats ≡ beginning.settings.workers + 1 }
    requires journal { N.terms.journal ≡ page_length at_end beginning.settings.journal }
    requires keeps { N.terms.keeps ≡ journal_of at_end }
{
    let Beginning {
        settings,
        opened,
        caches,
    } = beginning;
    let opening = opening_of(&settings, affinity, until)?;
    let (length, keeps) = (at_end.page_length(settings.journal), at_end.journal());
    let (hall, seats) = Hall::<C, N>::new(
        alloc,
        opened,
        &settings.users,
        caches,
        opening.seats,
        length,
        keeps,
    )?;
    let server = Server {
        rt,
        alloc,
        hall: &hall,
        audience,
    };
    let seats = server.serve(seats, settings, opening)?;
    match at_end {
        AtEnd::Leaves => Ok(Found::Nothing),
        AtEnd::Audits => Ok(audit_hall(alloc, hall, seats, audience)?),
    }
}

/// How a server listens and serves.
#[derive(Clone, Copy)]
struct Opening {
    address: SocketAddr,
    affinity: Affinity,
    /// The server ends once this many connections were closed; `None` for never.
    until: Option<u64>,
    /// One for each worker, and one for the metrics.
    seats: usize,
}

fn opening_of(
    settings: &ServerSettings,
    affinity: Affinity,
    until: Option<u64>,
) -> Result<Opening, Unserved>
    ensures { IfOk result (λ opening. opening.seats ≡ settings.now.workers + 1) }
{
    let Ok(address) = settings.listen.as_str().parse::<SocketAddr>() else {
        return Err(Unserved::CannotListen);
    };
    let Some(seats) = settings.workers.checked_add(1) else {
        return Err(Unserved::NoMemory);
    };
    Ok(Opening {
        address,
        affinity,
        until,
        seats,
    })
}

/// Makes the places of all connections, under the settings' limits. It moves the users' limits out of `settings`,
/// even if it fails.
fn share_connections(
    alloc: Global,
    settings: &mut ServerSettings,
) -> Result<Arc<Connections, Global>, Unserved>
    ensures { settings.new.workers ≡ settings.old.workers }
{
    let no_limits = LimitsByUser::new(Vec::new(alloc));
    let user_limits = mem::replace(&mut settings.user_limits, no_limits);
    match Arc::new(
        alloc,
        Connections::new(alloc, settings.limits, user_limits)?,
    ) {
        Ok(connections) => Ok(connections),
        Err(_) => Err(Unserved::NoMemory),
    }
}

#[derive(Drop)]
struct Standing<'a, N: Naming, R: Wait + Time + Drop, A: Audience> {
    crew: Vec<Member<N, R>>,
    source: Ticking<'a, R, N, A>,
    listening: Listening,
}

/// Makes the workers, opens the listeners for connections and for the metrics, and tells the audience where they
/// listen.
fn stand<'a, N: Naming, R: Wait + Net + Time + AllocGlobal + Copy + Drop, A: Audience>(
    rt: &R,
    alloc: Global,
    connections: &Arc<Connections, Global>,
    seats: Vec<Seat<N>>,
    settings: &ServerSettings,
    opening: Opening,
    audience: &'a A,
) -> Result<Standing<'a, N, R, A>, Unserved>
    requires { 0 < settings.now.workers }
{
    let begun = Instant::now(rt).ok();
    let workers = settings.workers;
    let affinity = opening.affinity;
    let (hiring, outlets) = hire_staff(rt, alloc, connections, begun, seats, affinity, workers)?;
    let mut listening = open_listener(rt, opening, outlets, connections, audience)?;
    let scraping = listen_for_metrics(rt, &settings.metrics, &settings.users, audience)?;
    // All other descriptors that stay open are open by this point.
    listening.set_room(room_by(audience.descriptors()));
    audience.listens(listening.address().unwrap_or(opening.address));
    let Hiring {
        crew,
        connections,
        own,
        counting,
    } = hiring;
    let source = Ticking {
        rt: *rt,
        begun,
        connections,
        audience,
        notices: Vec::new(alloc),
        seat: own,
        scraping,
        counting,
    };
    Ok(Standing {
        crew,
        source,
        listening,
    })
}

/// What each part of a server shares.
#[derive(Drop)]
struct Server<'a, C: Cache, N: Naming, R, A: Audience> {
    rt: &'a R,
    alloc: Global,
    hall: &'a Hall<C, N>,
    audience: &'a A,
}

impl<
    'a,
    C: Cache + Send + Sync,
    N: Naming + Send + Sync,
    R: Threads + Wait + Net + Time + AllocGlobal + Send + Sync + Copy + Drop + 'static,
    A: Audience + Sync,
> Server<'a, C, N, R, A> {
    /// Serves the hall's users until the listener ends, and returns all seats. The last of `seats` is for the
    /// metrics.
    fn serve(
        &self,
        seats: Vec<Seat<N>>,
        mut settings: ServerSettings,
        opening: Opening,
    ) -> Result<Vec<Seat<N>>, Unserved>
        requires { 0 < settings.workers }
    {
        let connections = share_connections(self.alloc, &mut settings)?;
        let standing = stand(
            self.rt,
            self.alloc,
            &connections,
            seats,
            &settings,
            opening,
            self.audience,
        )?;
        self.run(&settings.users, standing, &connections)
    }

    /// Runs the listener, the workers and the keeper until the listener ends, and returns all seats.
    fn run(
        &self,
        users: &Users,
        standing: Standing<'a, N, R, A>,
        connections: &Arc<Connections, Global>,
    ) -> Result<Vec<Seat<N>>, Unserved> {
        let Standing {
            crew,
            source,
            listening,
        } = standing;
        let clock = Clock::new();
        // So commands before the keeper's first turn get the right moment.
        clock.advance(moment_now(self.rt));
        let own = *self.rt;
        let Ok(listener) = thread::spawn(self.rt, move || listening.run(&own)) else {
            return Err(Unserved::NoMemory);
        };
        let keeper = Keeper::new();
        let ended = run_crew(
            self.rt, self.alloc, self.hall, users, &clock, &Open, keeper, crew, source,
        );
        connections.end();
        let _outlets = listener.join(self.rt);
        let Ok(Returned { mut seats, source }) = ended else {
            return Err(Unserved::NoMemory);
        };
        match seats.push(source.into_seat()) {
            Ok(()) => Ok(seats),
            Err(_) => Err(Unserved::NoMemory),
        }
    }
}
