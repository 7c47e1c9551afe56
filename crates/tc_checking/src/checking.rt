//! The lines that `partcached check` prints of good settings.
use crate::sizing::{EMPTY_SERVER, ItemSize, MIB, Memory, full_user, items_of};
use std::fmt::Style;
use std::{io, str};
use tc_settings::{MOST_CONNECTIONS, Settings};
use tc_users::{Text, UserNo, UserSpec, Users};

/// What an entry of a journal takes beside the data that it keeps alive, in bytes.
const ENTRY: u64 = 208;

/// What an audited server keeps of each item beside its data while a page is turned, in bytes: the item's place in
/// what the page began with, and in what the next one begins with.
const COPIED: u64 = 128;

/// What `MemoryMax` has for each user's connections that do not read, or that sent half a request, in bytes.
const EACH_USERS_CONNECTIONS: u64 = 64 * MIB;

/// The descriptors that a worker's poll takes.
const EACH_WORKER: u64 = 2;

/// The descriptors that a server takes beside those of connections and workers: the standard streams, the listeners,
/// connections that ask for metrics, and some to spare.
const OTHERS: u64 = 32;

/// So many bytes in MiB, rounded up.
fn mib(bytes: u64) -> u64 {
    bytes.saturating_add(MIB - 1) / MIB
}

/// The bytes that a page of a user's journal keeps with `--audit`: `journal` stores of so many data bytes.
fn kept(journal: usize, data: u64) -> u64 {
    data.saturating_add(ENTRY).saturating_mul(journal as u64)
}

/// The bytes that `--audit` adds for a user whose budget is full of items of this size, if each call stores one.
fn audited(budget: u64, journal: usize, size: ItemSize) -> u64 {
    let copied = items_of(budget, size).saturating_mul(COPIED);
    copied.saturating_add(kept(journal, size.data))
}

/// The budgets and the memory of some users, in bytes.
#[derive(Clone, Copy)]
struct Sums {
    budget: u64,
    memory: Memory,
    audit: u64,
    /// What `--audit` keeps of a page of stores of the largest items.
    largest: u64,
}

impl Sums {
    /// Those of a server without users.
    const NONE: Sums = Sums {
        budget: 0,
        memory: EMPTY_SERVER,
        audit: 0,
        largest: 0,
    };

    /// Those of one user.
    fn of_user(row: &UserSpec, journal: usize, size: ItemSize) -> Sums {
        Sums {
            budget: row.budget,
            memory: full_user(row.budget, size),
            audit: audited(row.budget, journal, size),
            largest: kept(journal, row.largest),
        }
    }

    /// Those of both.
    fn and(self, other: Sums) -> Sums {
        Sums {
            budget: self.budget.saturating_add(other.budget),
            memory: self.memory.and(other.memory),
            audit: self.audit.saturating_add(other.audit),
            largest: self.largest.saturating_add(other.largest),
        }
    }

    /// Prints a row of the table. Its first column has this width, in characters.
    fn print(self, rt: &HostRuntime, name: &str, width: usize) -> io::Result<()> {
        let name = name.left().width(width);
        let budget = self.budget;
        let (likely, at_most) = (mib(self.memory.likely), mib(self.memory.at_most));
        let audit = mib(self.audit);
        println!(rt; "{name}  {budget:>12}  {likely:>8}  {at_most:>8}  {audit:>8}")
    }
}

/// A user's name as text, which it is.
pub fn name_of(row: &UserSpec) -> &str {
    str::from_utf8(row.name.as_bytes()).unwrap_or("?")
}

/// The width of the column of names, in characters.
fn width_of(users: &Users) -> usize {
    let mut width = 4;
    for row in users.rows() {
        width = width.max(row.name.as_bytes().len());
    }
    width
}

/// Prints a row for each user and one for all. Returns the sums of all.
fn print_users(
    rt: &HostRuntime,
    users: &Users,
    journal: usize,
    size: ItemSize,
) -> io::Result<Sums> {
    let width = width_of(users);
    let name = "user".left().width(width);
    println!(rt; "{name}        budget    likely   at most     audit")?;
    let mut all = Sums::NONE;
    for row in users.rows() {
        let sums = Sums::of_user(row, journal, size);
        sums.print(rt, name_of(row), width)?;
        all = all.and(sums);
    }
    all.print(rt, "all", width)?;
    Ok(all)
}

/// Prints what the columns are, and how much more an audit can keep.
fn print_columns(rt: &HostRuntime, journal: usize, size: ItemSize, all: Sums) -> io::Result<()> {
    let ItemSize { key, data } = size;
    let largest = mib(all.largest);
    print!(rt; "budget in bytes, then MiB resident with budgets full of items ")?;
    println!(rt; "of {key} bytes of key and {data} of data")?;
    print!(rt; "audit: what `--audit` adds for the last {journal} calls of each user; ")?;
    println!(rt; "{largest} if these store the largest items")
}

/// The bytes that a systemd unit's `MemoryMax` should have: what all users take at most, half as much again for
/// flushes that are refilled at once, and 64 MiB a user for connections.
fn memory_max(all: Sums, users: usize) -> u64 {
    let at_most = all.memory.at_most;
    let connections = EACH_USERS_CONNECTIONS.saturating_mul(users as u64);
    at_most
        .saturating_add(at_most / 2)
        .saturating_add(connections)
}

/// How many connections the limits allow in all: those that have not logged in, and each user's. `None` if one of
/// these has no limit.
fn most_open(settings: &Settings) -> Option<u64> {
    let mut most = u64::from(settings.limits.unbound_connections?);
    for place in 0..settings.users.rows().len() {
        let user = UserNo::new(u32::try_from(place).ok()?.checked_add(1)?);
        let limits = settings.user_limits.of(user)?;
        most = most.saturating_add(u64::from(limits.connections?));
    }
    Some(most)
}

/// Warns if others' connections can take all places of a user.
fn warn_of_places(rt: &HostRuntime, settings: &Settings) -> io::Result<()> {
    match most_open(settings) {
        Some(most) if most <= u64::from(MOST_CONNECTIONS) => Ok(()),
        Some(most) => println!(rt;
            "warning: `unbound_connections` and all `connections` come to {most} of {MOST_CONNECTIONS}, so others can leave a user without a place"
        ),
        None => println!(rt;
            "warning: without `unbound_connections` and each user's `connections` others can leave a user without a place"
        ),
    }
}

/// How many descriptors a server with these settings wants.
fn wanted(settings: &Settings) -> u64 {
    let places = u64::from(MOST_CONNECTIONS);
    let connections = most_open(settings).unwrap_or(places).min(places);
    let workers = (settings.workers as u64).saturating_mul(EACH_WORKER);
    connections.saturating_add(workers).saturating_add(OTHERS)
}

/// Warns if a server with these settings wants more descriptors than the process may open. The error is standard
/// output's.
pub fn warn_of_descriptors(rt: &HostRuntime, settings: &Settings, allowed: u64) -> io::Result<()> {
    let wanted = wanted(settings);
    if allowed >= wanted {
        return Ok(());
    }
    println!(rt;
        "warning: {allowed} descriptors, {wanted} wanted: without one a connection waits until another closes"
    )
}

/// Whether a token is one of those in examples/partcached.toml, which begin with `change-me`.
fn is_example(token: &Text) -> bool {
    token.as_bytes().starts_with(b"change-me")
}

/// Warns of each user who has one of the example's tokens. The error is standard output's.
pub fn warn_of_tokens(rt: &HostRuntime, users: &Users) -> io::Result<()> {
    for row in users.rows() {
        if is_example(&row.token) || row.second.as_ref().is_some_and(is_example) {
            let name = name_of(row);
            println!(rt; "warning: {name} has a token of the example, which anyone can read")?;
        }
    }
    Ok(())
}

/// Prints the memory that a server with these settings takes with budgets full of items of this size.
fn print_memory(rt: &HostRuntime, settings: &Settings, size: ItemSize) -> io::Result<()> {
    let all = print_users(rt, &settings.users, settings.journal, size)?;
    print_columns(rt, settings.journal, size, all)?;
    let most = mib(memory_max(all, settings.users.rows().len()));
    println!(rt; "MemoryMax={most}M")
}

/// Prints where a server with these settings listens, warnings, and the memory that it takes with budgets full of items
/// of this size. The error is standard output's.
pub fn print_settings(rt: &HostRuntime, settings: &Settings, size: ItemSize) -> io::Result<()> {
    let listen = settings.listen.as_str();
    let workers = settings.workers;
    println!(rt; "the settings are good: {listen}, {workers} workers")?;
    if let Some(metrics) = &settings.metrics {
        let listen = metrics.as_str();
        println!(rt; "metrics are told at {listen}")?;
    }
    warn_of_places(rt, settings)?;
    warn_of_tokens(rt, &settings.users)?;
    print_memory(rt, settings, size)
}
