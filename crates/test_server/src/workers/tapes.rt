//! A wire over two lists of bytes, which knows what it gave and took. Texts are by hand from
//! doc/protocol.txt.
ghost use Rattle.std.specs.Prelude.{◌≤◌, Some, take, vec_len};

use super::talks::worker_of;
use crate::stage::{Scene, Within, play};
use std::alloc::Global;
use std::process::Abort;
use std::sync::atomic::AtomicU64;
use std::sync::atomic::Ordering::SeqCst;
use std::sync::{Arc, Wait};
use std::test::*;
use tc_links::{Got, Open, Parts, Put, Remark, Wire};
use tc_locked::{Clock, Hall, Naming, Seat};
use tc_plain::Cache;
use tc_users::{UserNo, Users};
use tc_workers::Worker;

/// Enough turns for the whole connection.
const TURNS: u32 = 4;

/// What the client sends.
const ASKS: &[u8] = b"set a 0 0 9\r\nalice one\r\nset k 0 0 2\r\nhi\r\nget k\r\n";

/// What the client must be sent.
const HEARS: &[u8] = b"STORED\r\nSTORED\r\nVALUE k 0 2\r\nhi\r\nEND\r\n";

/// The bytes that the client sends, how many of them were read, and the bytes that the client was
/// sent.
#[derive(Drop)]
struct Tape {
    sends: Vec<u8>,
    at: usize,
    heard: Vec<u8>,
    /// 1 once the client was sent exactly the expected bytes, 0 before. The scene reads it.
    whole: Arc<AtomicU64, Global>,
    ghost within: { at ≤ vec_len sends },
}

impl Wire for Tape {
    ghost gave = { λ t. Some (take t.at t.sends.items) };

    ghost took = { λ t. Some t.heard.items };

    fn read(&mut self, into: &mut [u8]) -> Got {
        let n = (self.sends.len() - self.at).min(into.len());
        if n == 0 {
            return Got::Ended;
        }
        let part = &mut into[..n];
        part.copy_from_slice(&self.sends[self.at..self.at + n]);
        self.at += n;
        Got::Bytes(n)
    }

    fn write(&mut self, from: &Parts<'_>) -> Put {
        let (first, _) = from.split_first();
        if self.heard.extend_from_slice(first).is_err() {
            return Put::Later;
        }
        if self.heard.as_slice() == HEARS {
            self.whole.store(1, SeqCst);
        }
        Put::Wrote(first.len())
    }

    fn set_key(&mut self, _key: usize) -> bool {
        false
    }

    fn set_user(&mut self, _user: UserNo) {}

    fn note<R: Wait>(&mut self, _rt: &R, _remark: Remark) {}
}

/// Serves one connection from its first byte to its last, and expects its replies.
pub fn serve_tape<C: Cache, N: Naming, R: Wait + Abort>(
    rt: &R,
    alloc: Global,
    hall: &Hall<C, N>,
    users: &Users,
    seats: &mut Vec<Seat<N>>,
) -> Result<(), Fail> {
    let mut worker: Worker<Tape, N> = worker_of(rt, alloc, seats);
    let whole = Arc::new(alloc, AtomicU64::new(0))?;
    let wire = Tape {
        sends: Vec::from_slice(alloc, ASKS)?,
        at: 0,
        heard: Vec::new(alloc),
        whole: Arc::try_clone(&whole)?,
    };
    assert!(rt; worker.add(1, wire).is_ok());
    for _ in 0..TURNS {
        worker.turn(rt, hall, users, &Clock::new(), &Open);
    }
    assert!(rt; worker.is_idle());
    assert!(rt; whole.load(SeqCst) == 1);
    Ok(())
}

/// Guards the contract of wires: a wire that proves which bytes it gave and took must be usable.
#[test]
fn a_wire_that_knows_its_bytes_is_served(rt: HostRuntime) -> Result<(), Fail> {
    play(&rt, rt.alloc(), 1, 16, Scene::Within(Within::Tapes))
}
