//! Eight threads and a keeper on one hall.

use super::commands::{append, get, incr, look_up, set};
use super::replayed::has_page;
use crate::stage::{Closing, Scene, closed, play};
use std::alloc::{AllocError, Global};
use std::process::Abort;
use std::sync::Wait;
use std::test::*;
use std::thread::{self, Threads};
use tc_grammar::{Command, Form};
use tc_item::Moment;
use tc_locked::{Closed, Hall, Naming, Receipt, Seat, Unread};
use tc_plain::{Cache, Journal};
use tc_users::UserNo;

/// A seat, the commands that it calls, and the receipts of its calls.
#[derive(Drop)]
struct Work<N: Naming> {
    seat: Seat<N>,
    commands: Vec<Command>,
    receipts: Vec<Receipt<N>>,
}

/// What a thread does.
#[derive(Drop)]
enum Job<N: Naming> {
    /// Maintains both users' caches.
    Keeps,
    /// Makes a hundred calls.
    Calls(Work<N>),
}

/// Guards the history of a user who is served by several workers: no call may be lost, doubled or
/// out of order.
#[test]
fn eight_threads_beside_a_keeper_leave_every_entry(rt: HostRuntime) -> Result<(), Fail> {
    play(
        &rt,
        rt.alloc(),
        8,
        65_536,
        Scene::Closing(Closing::EightThreads),
    )
}

/// Makes a hundred calls with each of eight seats while a keeper maintains, each in its own thread.
/// Closes the hall and expects every entry.
pub fn eight_threads<
    C: Cache + Send + Sync,
    N: Naming + Send + Sync,
    R: Threads + Wait + Abort + Sync,
>(
    rt: &R,
    alloc: Global,
    hall: Hall<C, N>,
    seats: Vec<Seat<N>>,
    keeps: Journal,
) -> Result<(), Fail> {
    let jobs = do_all(rt, alloc, &hall, jobs_of(alloc, seats)?)?;
    close_with_jobs(rt, alloc, hall, jobs, keeps)
}

/// Returns the keeper's job, and one job for each seat.
fn jobs_of<N: Naming>(alloc: Global, seats: Vec<Seat<N>>) -> Result<Vec<Job<N>>, Fail> {
    let mut jobs = Vec::new(alloc);
    jobs.push(Job::Keeps)?;
    for seat in seats {
        let work = Work {
            seat,
            commands: five_commands(alloc)?,
            receipts: Vec::new(alloc),
        };
        jobs.push(Job::Calls(work))?;
    }
    Ok(jobs)
}

/// Returns the five commands that each seat calls: `set`, `gets`, `append`, `incr` and `get`.
fn five_commands(alloc: Global) -> Result<Vec<Command>, Fail> {
    let mut commands = Vec::new(alloc);
    commands.push(set(alloc, b"1")?)?;
    commands.push(look_up(alloc, Form::WithCas)?)?;
    commands.push(append(alloc, b"2")?)?;
    commands.push(incr(alloc, 3)?)?;
    commands.push(get(alloc)?)?;
    Ok(commands)
}

/// Does each job in its own thread. Returns the jobs with their receipts.
fn do_all<C: Cache + Send + Sync, N: Naming + Send + Sync, R: Threads + Wait + Abort + Sync>(
    rt: &R,
    alloc: Global,
    hall: &Hall<C, N>,
    jobs: Vec<Job<N>>,
) -> Result<Vec<Job<N>>, AllocError> {
    thread::map_vec(rt, jobs, &|job| do_one(rt, alloc, hall, job))
}

/// Does a job, and returns it with its receipts.
fn do_one<C: Cache, N: Naming, R: Wait + Abort>(
    rt: &R,
    alloc: Global,
    hall: &Hall<C, N>,
    job: Job<N>,
) -> Job<N> {
    match job {
        Job::Keeps => {
            keep(rt, hall);
            Job::Keeps
        }
        Job::Calls(work) => Job::Calls(call_often(rt, alloc, hall, work)),
    }
}

/// Maintains the users' caches by turns, a thousand times, with limits 0 to 3.
fn keep<C: Cache, N: Naming, R: Wait>(rt: &R, hall: &Hall<C, N>) {
    for turn in 0..1_000 {
        hall.maintain(rt, UserNo::new(1 + turn % 2), Moment::new(5), turn % 4);
    }
}

/// Calls all commands twenty times, by turns on the two users.
fn call_often<C: Cache, N: Naming, R: Wait + Abort>(
    rt: &R,
    alloc: Global,
    hall: &Hall<C, N>,
    work: Work<N>,
) -> Work<N> {
    let Work {
        mut seat,
        commands,
        mut receipts,
    } = work;
    for round in 0..20 {
        for command in &commands {
            let receipt = call_once(rt, alloc, hall, &mut seat, 1 + round % 2, command);
            let is_kept = receipts.push(receipt).is_ok();
            assert!(rt; is_kept);
        }
    }
    Work {
        seat,
        commands,
        receipts,
    }
}

/// Makes one call for connection 1 at second 5. Aborts if it is refused.
fn call_once<C: Cache, N: Naming, R: Wait + Abort>(
    rt: &R,
    alloc: Global,
    hall: &Hall<C, N>,
    seat: &mut Seat<N>,
    user: u32,
    command: &Command,
) -> Receipt<N> {
    match hall.call(
        rt,
        alloc,
        seat,
        UserNo::new(user),
        Moment::new(5),
        1,
        command,
    ) {
        Ok(receipt) => receipt,
        Err(_) => panic!(rt; "refused"),
    }
}

/// Closes the hall. Expects an entry for each receipt, and half of the entries on each user's page,
/// which must replay.
fn close_with_jobs<C: Cache, N: Naming, R: Abort>(
    rt: &R,
    alloc: Global,
    hall: Hall<C, N>,
    jobs: Vec<Job<N>>,
    keeps: Journal,
) -> Result<(), Fail> {
    let (seats, receipts) = parted(alloc, jobs)?;
    let closed = closed(rt, hall, seats);
    has_all_entries(rt, &closed, keeps, &receipts, &five_commands(alloc)?);
    assert!(rt; has_page(alloc, &closed, keeps, 1, 400)?);
    assert!(rt; has_page(alloc, &closed, keeps, 2, 400)?);
    Ok(())
}

/// Returns the seats, and the receipts of each.
fn parted<N: Naming>(
    alloc: Global,
    jobs: Vec<Job<N>>,
) -> Result<(Vec<Seat<N>>, Vec<Vec<Receipt<N>>>), Fail> {
    let mut seats = Vec::new(alloc);
    let mut receipts = Vec::new(alloc);
    for job in jobs {
        if let Job::Calls(work) = job {
            seats.push(work.seat)?;
            receipts.push(work.receipts)?;
        }
    }
    Ok((seats, receipts))
}

/// Expects an entry for each of eight hundred receipts.
fn has_all_entries<C: Cache, N: Naming, R: Abort>(
    rt: &R,
    closed: &Closed<C, N>,
    keeps: Journal,
    receipts: &[Vec<Receipt<N>>],
    commands: &[Command],
) {
    assert!(rt; receipts.len() == 8);
    for of_seat in receipts {
        assert!(rt; of_seat.len() == 100);
        assert!(rt; has_entries(closed, keeps, of_seat, commands));
        assert!(rt; are_in_order(of_seat, 1) && are_in_order(of_seat, 2));
    }
}

/// Returns whether a seat's fifty entries for a user are in the order of its calls: their numbers
/// rise, and each tally is one more than the last.
fn are_in_order<N: Naming>(receipts: &[Receipt<N>], user: u32) -> bool {
    let (mut number, mut tally) = (0u64, 0u64);
    for receipt in receipts {
        if receipt.user.number() == user {
            if receipt.slip.number <= number || receipt.slip.tally != tally.wrapping_add(1) {
                return false;
            }
            (number, tally) = (receipt.slip.number, receipt.slip.tally);
        }
    }
    tally == 50
}

/// Returns whether each receipt of a seat has its entry, with its command and its outcome.
fn has_entries<C: Cache, N: Naming>(
    closed: &Closed<C, N>,
    keeps: Journal,
    receipts: &[Receipt<N>],
    commands: &[Command],
) -> bool {
    for round in receipts.chunks(5) {
        for (receipt, command) in round.iter().zip(commands) {
            if !is_entered(closed, keeps, receipt, command) {
                return false;
            }
        }
    }
    true
}

/// Returns whether a receipt has its entry, with this command and its outcome. Without a journal,
/// returns whether the entry exists but cannot be read.
fn is_entered<C: Cache, N: Naming>(
    closed: &Closed<C, N>,
    keeps: Journal,
    receipt: &Receipt<N>,
    command: &Command,
) -> bool {
    match closed.entry_of(receipt) {
        Ok(Some(entry)) => {
            keeps == Journal::On
                && *entry.command.get() == *command
                && entry.outcome == receipt.slip.outcome
        }
        Ok(None) => false,
        Err(unread) => keeps == Journal::Off && unread == Unread::Off,
    }
}
