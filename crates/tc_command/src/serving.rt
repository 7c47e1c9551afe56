//! The command `serve`: makes a server ready, and prints its lines on standard output.
ghost use Rattle.std.specs.Prelude.{IfOk};
ghost use Rattle.tc_settings.specs.SettingsTable.{AreSoundNumbers};

use crate::addresses::Deed;
use crate::demo::print_guide;
use crate::descriptors::{allowed_descriptors, descriptors};
use crate::preparing::{Unready, prepare, read_settings, read_text};
use crate::resident::resident_bytes;
use std::alloc::{AllocError, Global};
use std::io;
use std::net::SocketAddr;
use std::time::CpuClock;
use tc_asking::{Serving, Source, VERSION};
use tc_checking::{name_of, warn, warn_of_descriptors, warn_of_mode, warn_of_tokens};
use tc_locked::Audit;
use tc_net::{Affinity, AtEnd, Audience, Beginning, Cause, Descriptors, Notice, Timeout};
use tc_partition::Fast;
use tc_settings::Settings;
use tc_users::{UserNo, Users};

/// Prints a server's lines. A line that standard output refuses is lost, and the server goes on.
#[derive(Drop)]
pub struct Printing<'a> {
    rt: &'a HostRuntime,
    source: &'a Source,
    /// It prints no notices.
    quiet: bool,
    /// The settings' address to listen on.
    listen: String,
    /// The settings' address for metrics; empty if there is none.
    metrics: String,
    workers: usize,
    /// The users' names, in the order of their numbers.
    names: Vec<String>,
}

/// The ending of a noun for so many things.
fn plural(count: u64) -> &'static str {
    if count == 1 { "" } else { "s" }
}

/// A few words for the cause of lines that are left out.
fn words_of(cause: Cause) -> &'static str {
    match cause {
        Cause::NoPlace => "no place",
        Cause::NoDescriptor => "no descriptor",
        Cause::UnboundFull => "too many have not logged in",
        Cause::LoginRefused => "refused logins",
        Cause::LongBlock => "blocks of more than 256 bytes",
        Cause::Binary => "the binary protocol",
        Cause::HoldsUp => "half blocks that held up others",
        Cause::TimedOut(Timeout::Login) => "`login_seconds`",
        Cause::TimedOut(Timeout::Idle) => "`idle_seconds`",
        Cause::TimedOut(Timeout::Stalled) => "`stalled_seconds`",
        Cause::NoMemory => "out of memory",
        Cause::UserFull => "as many connections as it may",
    }
}

impl Printing<'_> {
    /// Prints that the server listens, and a demo's guide.
    fn print_listening(&self, address: SocketAddr) -> io::Result<()> {
        let (workers, users) = (self.workers, self.names.len());
        let (s, z) = (plural(workers as u64), plural(users as u64));
        println!(self.rt; "listening on {address}, {workers} worker{s}, {users} user{z}")?;
        match self.source {
            Source::Demo(_) => print_guide(self.rt, address),
            Source::File(_) => Ok(()),
        }
    }

    /// A user's name.
    fn name_of(&self, user: UserNo) -> &str {
        let place = (user.number() as usize).saturating_sub(1);
        match self.names.get(place) {
            Some(name) => name.as_str(),
            None => "?",
        }
    }

    /// Prints the result of a user's audit.
    fn print_audit(&self, user: UserNo, audit: &Audit) -> io::Result<()> {
        let name = self.name_of(user);
        let compared = audit.compared;
        let s = plural(compared as u64);
        match &audit.difference {
            None => println!(self.rt;
                "audit of {name}: {compared} call{s} done again, none differs"
            ),
            Some(difference) => {
                let number = difference.number;
                println!(self.rt;
                    "audit of {name}: {compared} call{s} done again, call {number} differs"
                )
            }
        }
    }

    /// Prints a notice.
    fn print_notice(&self, notice: &Notice) -> io::Result<()> {
        match notice {
            Notice::NoPlace { peer } => println!(self.rt;
                "no place for {peer}: as many connections are open as may be"
            ),
            Notice::NoDescriptor { open } => println!(self.rt;
                "no descriptor for a further connection beside {open}: it waits until one closes"
            ),
            Notice::UnboundFull { peer } => println!(self.rt;
                "too many have not logged in: the oldest goes for {peer}"
            ),
            Notice::LoginRefused { peer, user } => self.print_refused(peer, *user),
            Notice::LongBlock { peer } => println!(self.rt;
                "{peer} has not logged in, and sent a block of more than 256 bytes"
            ),
            Notice::Binary { peer } => println!(self.rt;
                "{peer} speaks the binary protocol, which this server does not: closed"
            ),
            Notice::HoldsUp { peer, .. } => println!(self.rt;
                "{peer} sent half a block and no more, and held up others of its user: closed"
            ),
            Notice::TimedOut {
                peer,
                user,
                timeout,
            } => self.print_timed_out(peer, *user, *timeout),
            Notice::NoMemory { peer, .. } => println!(self.rt;
                "out of memory for a command of {peer}"
            ),
            Notice::LeftOut { user, cause, count } => self.print_left_out(*user, *cause, *count),
        }
    }

    /// Prints how many lines of one user and cause were left out.
    fn print_left_out(&self, user: Option<UserNo>, cause: Cause, count: u64) -> io::Result<()> {
        let name = match user {
            Some(user) => self.name_of(user),
            None => "nobody",
        };
        if cause == Cause::UserFull {
            return println!(self.rt;
                "{name} has as many connections as it may: closed {count} more"
            );
        }
        let s = plural(count);
        let words = words_of(cause);
        println!(self.rt; "left out {count} more line{s} of {name}: {words}")
    }

    /// Prints that a connection was closed by a timeout.
    fn print_timed_out(
        &self,
        peer: &SocketAddr,
        user: Option<UserNo>,
        timeout: Timeout,
    ) -> io::Result<()> {
        let did_not = match timeout {
            Timeout::Login => "did not log in within `login_seconds`",
            Timeout::Idle => "sent nothing for `idle_seconds`",
            Timeout::Stalled => "read nothing of its replies for `stalled_seconds`",
        };
        match user {
            None => println!(self.rt; "{peer} {did_not}: closed"),
            Some(user) => {
                let name = self.name_of(user);
                println!(self.rt; "{peer} of {name} {did_not}: closed")
            }
        }
    }

    /// Prints that a login was refused.
    fn print_refused(&self, peer: &SocketAddr, user: Option<UserNo>) -> io::Result<()> {
        match user {
            None => println!(self.rt; "refused login from {peer}: no user has that name"),
            Some(user) => {
                let name = self.name_of(user);
                println!(self.rt; "refused login from {peer} as {name}")
            }
        }
    }

    /// Prints a line for each address in the settings that is no address and port.
    fn note_no_address(&self) {
        let _ = Deed::Listen.read_address(self.rt, self.listen.as_str());
        if !self.metrics.is_empty() {
            let _ = Deed::TellMetrics.read_address(self.rt, self.metrics.as_str());
        }
    }
}

impl Audience for Printing<'_> {
    fn listens(&self, address: SocketAddr) {
        let _ = self.print_listening(address);
    }

    fn cannot_listen(&self, why: &io::Error) {
        let _ = Deed::Listen.print_refusal(self.rt, self.listen.as_str(), why);
    }

    fn tells_metrics(&self, address: SocketAddr) {
        let _ = println!(self.rt; "metrics on {address}");
    }

    fn cannot_tell_metrics(&self, why: &io::Error) {
        let _ = Deed::TellMetrics.print_refusal(self.rt, self.metrics.as_str(), why);
    }

    fn notes(&self, notice: &Notice) {
        if !self.quiet {
            let _ = self.print_notice(notice);
        }
    }

    fn version(&self) -> &'static str {
        VERSION
    }

    fn resident(&self) -> u64 {
        resident_bytes(self.rt).unwrap_or(0)
    }

    fn cpu_millis(&self) -> u64 {
        match self.rt.process_cpu_time() {
            Ok(used) => u64::try_from(used.as_millis()).unwrap_or(u64::MAX),
            Err(_) => 0,
        }
    }

    fn descriptors(&self) -> Option<Descriptors> {
        descriptors(self.rt)
    }

    fn audited(&self, user: UserNo, audit: &Audit) {
        let _ = self.print_audit(user, audit);
    }

    fn not_audited(&self) {
        let _ = println!(self.rt; "no audit: the hall lacks seats");
    }
}

/// Warns if others can read the settings file, and of unknown fields. A warning that standard output refuses is lost.
fn warn_aside(rt: &HostRuntime, source: &Source, text: &str) -> Result<(), Unready> {
    if let Source::File(path) = source {
        let _ = warn_of_mode(rt, path.as_str());
    }
    match warn(rt, text) {
        Err(error) if error.kind() == io::ErrorKind::OutOfMemory => Err(Unready::NoMemory),
        Ok(()) | Err(_) => Ok(()),
    }
}

/// Warns if the process may open fewer descriptors than a server with these settings wants. Prints nothing for a demo.
fn warn_of_shortage(rt: &HostRuntime, source: &Source, settings: &Settings) {
    if let Source::File(_) = source
        && let Some(allowed) = allowed_descriptors(rt)
    {
        let _ = warn_of_descriptors(rt, settings, allowed);
    }
}

/// The users' names, in the order of their numbers.
fn names_of(alloc: Global, users: &Users) -> Result<Vec<String>, AllocError> {
    let mut names = Vec::new(alloc);
    for row in users.rows() {
        names.push(String::from_str(alloc, name_of(row))?)?;
    }
    Ok(names)
}

/// The settings' address for metrics; empty if there is none.
fn metrics_of(alloc: Global, settings: &Settings) -> Result<String, AllocError> {
    match &settings.metrics {
        Some(metrics) => String::from_str(alloc, metrics.as_str()),
        None => Ok(String::new(alloc)),
    }
}

/// A server that is ready to begin.
#[derive(Drop)]
pub struct Ready<'a> {
    pub beginning: Beginning<Fast>,
    pub affinity: Affinity,
    /// The server ends after so many connections were closed.
    pub until: Option<u64>,
    pub at_end: AtEnd,
    /// Its lines on standard output.
    pub printing: Printing<'a>,
}

/// The lines of a server with these settings on standard output.
fn printing_of<'a>(
    rt: &'a HostRuntime,
    serving: &'a Serving,
    settings: &Settings,
) -> Result<Printing<'a>, AllocError> {
    let alloc = rt.alloc();
    Ok(Printing {
        rt,
        source: &serving.source,
        quiet: serving.quiet,
        listen: String::from_str(alloc, settings.listen.as_str())?,
        metrics: metrics_of(alloc, settings)?,
        workers: settings.workers,
        names: names_of(alloc, &settings.users)?,
    })
}

/// Reads the settings, and warns of unknown fields, of the example's tokens and of too few descriptors.
fn settings_of(rt: &HostRuntime, serving: &Serving) -> Result<Settings, Unready>
    ensures { IfOk result AreSoundNumbers }
{
    let source = &serving.source;
    let text = read_text(rt, source)?;
    warn_aside(rt, source, text.as_str())?;
    let settings = read_settings(rt, text.as_str(), source)?;
    let _ = warn_of_tokens(rt, &settings.users);
    warn_of_shortage(rt, source, &settings);
    Ok(settings)
}

/// The rule by which a connection gets its worker.
fn affinity_of(serving: &Serving) -> Affinity {
    if serving.spread {
        Affinity::Spread
    } else {
        Affinity::ByUser
    }
}

/// What the server does with the hall at its end.
fn at_end_of(serving: &Serving) -> AtEnd {
    if serving.audit {
        AtEnd::Audits
    } else {
        AtEnd::Leaves
    }
}

/// Makes the server ready that is asked for.
pub fn make_ready<'a>(rt: &'a HostRuntime, serving: &'a Serving) -> Result<Ready<'a>, Unready> {
    let settings = settings_of(rt, serving)?;
    let printing = printing_of(rt, serving, &settings)?;
    let beginning = prepare(rt, settings)?;
    printing.note_no_address();
    Ok(Ready {
        beginning,
        affinity: affinity_of(serving),
        until: serving.until.map(u64::from),
        at_end: at_end_of(serving),
        printing,
    })
}
