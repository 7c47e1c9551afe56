//! A client that asks for the metrics.
use mio::net::TcpStream;
use std::alloc::Global;
use std::io::{ErrorKind, Read, Write};
use tc_item::NoMemory;
use tc_metrics::{Answer, MOST_HEAD, read_request};

/// The most bytes of one read.
const PIECE: usize = 1_024;

/// Seconds that a request and its reply may take together.
const PATIENCE: u64 = 10;

/// How far a client's request is.
#[derive(Clone, Copy, PartialEq, Eq)]
pub(crate) enum Stage {
    /// It has more to read or to write in a later turn.
    Waits,
    /// Its request is complete and gets this answer.
    Asks(Answer),
    /// Its connection must close.
    Done,
}

/// A client: its connection, the bytes that came, and its reply.
#[derive(Drop)]
pub(crate) struct Peer {
    stream: TcpStream,
    /// The server's second in which it came.
    since: u64,
    came: Vec<u8>,
    /// The reply, once its request came.
    reply: Option<Vec<u8>>,
    /// How many bytes of the reply were sent.
    sent: usize,
}

impl Peer {
    pub(crate) fn new(alloc: Global, stream: TcpStream, second: u64) -> Peer {
        Peer {
            stream,
            since: second,
            came: Vec::new(alloc),
            reply: None,
            sent: 0,
        }
    }

    /// Reads or writes once. A client that exceeds 10 seconds is done.
    pub(crate) fn turn(&mut self, second: u64) -> Stage {
        if second > self.since.saturating_add(PATIENCE) {
            return Stage::Done;
        }
        match self.reply {
            Some(_) => self.send(),
            None => self.read(),
        }
    }

    /// Sets its reply, which later turns send.
    pub(crate) fn set_reply(&mut self, reply: Vec<u8>) {
        self.reply = Some(reply);
    }

    /// Reads once.
    fn read(&mut self) -> Stage {
        let mut piece = [0u8; PIECE];
        match self.stream.read(&mut piece) {
            Ok(0) => Stage::Done,
            Ok(n) => match self.take(&piece[..n.min(PIECE)]) {
                Ok(stage) => stage,
                Err(_) => Stage::Done,
            },
            Err(e) if e.kind() == ErrorKind::WouldBlock => Stage::Waits,
            Err(e) if e.kind() == ErrorKind::Interrupted => Stage::Waits,
            Err(_) => Stage::Done,
        }
    }

    /// Appends what came, and returns whether the request is complete. A head of over 8,192 bytes
    /// is too long.
    fn take(&mut self, piece: &[u8]) -> Result<Stage, NoMemory> {
        if self.came.len() > MOST_HEAD {
            return Ok(Stage::Asks(Answer::TooLong));
        }
        self.came.extend_from_slice(piece)?;
        match read_request(&self.came) {
            Some(answer) => Ok(Stage::Asks(answer)),
            None => Ok(Stage::Waits),
        }
    }

    /// Writes once.
    fn send(&mut self) -> Stage {
        let Some(reply) = &self.reply else {
            return Stage::Waits;
        };
        let Some(rest) = reply.get(self.sent..) else {
            return Stage::Done;
        };
        if rest.is_empty() {
            return Stage::Done;
        }
        match self.stream.write(rest) {
            Ok(n) => {
                self.sent = self.sent.saturating_add(n);
                Stage::Waits
            }
            Err(e) if e.kind() == ErrorKind::WouldBlock => Stage::Waits,
            Err(e) if e.kind() == ErrorKind::Interrupted => Stage::Waits,
            Err(_) => Stage::Done,
        }
    }
}
