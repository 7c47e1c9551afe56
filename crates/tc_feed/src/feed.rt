//! The unread bytes of a stream: `push` appends what arrives, and `next` takes whole requests from
//! the front.
//!
//! `line_end.rt` and `reading.rt` read a request's line and block, and `passing.rt` skips them. A
//! feed takes the bytes that its caller has, and knows no socket.
ghost use Rattle.std.specs.Prelude.{◌≡◌, ◌+◌, ◌<◌, ◌≤◌, [], take, drop, None, Some, OnOk, OnErr, IfOk, IsTrue};
ghost use Rattle.std.specs.Prelude.{option_map, length as list_length};
ghost use Rattle.tc_grammar.specs.Reading.{reading};
ghost use Rattle.tc_grammar.specs.declared.line.Line.TheVariants.{NeedsBlock};
ghost use Rattle.tc_feed.specs.Looking.{IsNext};
ghost use Rattle.tc_feed.specs.Passing.{passed_of};
ghost use Rattle.tc_feed.specs.Refusing.{HasLine};
ghost use Rattle.tc_feed.specs.Scanned.{IsScanned, IsAwaited, IsRemembered};
ghost use Rattle.tc_feed.specs.Stream.{Reader, more, empty, line_length, line_room, longest_line, trimmed};
ghost use Rattle.tc_feed.specs.Stream.{found, after_first, reader_behind};

use crate::line_end::{LONGEST_LINE, trim_line};
use crate::passing::{Passed, first_passed};
use crate::peeking::{Peeked, peek};
use crate::reading::{find_end, read_block};
use crate::request::{Framed, Request};
use std::alloc::Global;
use std::marker::Model;
use tc_grammar::{Fault, Head, Line, parse_line};
use tc_item::NoMemory;

/// The most capacity, in bytes, that a feed keeps once all bytes are read.
const KEPT_ROOM: usize = 131_072;

/// The first byte of `get`, `gets`, `gat` and `gats`. No other command's name begins with it.
const LOOK_UP: u8 = b'g';

/// A whole request that was read ahead, with the limit of blocks by which it was read.
#[derive(Drop)]
pub(crate) struct Ahead {
    limit: u32,
    framed: Framed,
}

/// The unread bytes of a stream, and the number of bytes to come that are skipped.
#[derive(Drop)]
pub struct Feed {
    bytes: Vec<u8>,
    /// Index of the first unread byte.
    start: usize,
    /// This many of the unread bytes were searched and hold no line feed.
    scanned: usize,
    /// The limit of blocks at the last search, and the number of unread bytes that a request needs
    /// by it: at least one.
    limit: u32,
    needed: usize,
    /// This many bytes to come are skipped.
    owed: usize,
    /// The request at the front of the unread bytes, if it was read ahead.
    ahead: Option<Ahead>,
}

impl Model for Feed {
    ghost use Rattle.std.specs.Prelude.{drop};
    ghost use Rattle.tc_feed.specs.Stream.{Reader};

    ghost Value = { Reader };

    ghost view = { λ f. record { unread = drop f.start f.bytes.items; owed = f.owed } };

    ghost use Rattle.tc_feed.specs.Scanned.{IsScanned, IsAwaited, IsRemembered};
    ghost use Rattle.tc_feed.specs.Looking.{IsReadAhead};

    ghost invariant = { λ f. IsScanned f.start f.scanned f.owed f.bytes.items
        × (IsAwaited f.limit f.needed (drop f.start f.bytes.items)
        × IsRemembered f.needed f.scanned (drop f.start f.bytes.items))
        × IsReadAhead f.ahead (drop f.start f.bytes.items) };
}

impl Feed {
    /// Returns a feed that received nothing.
    pub fn new(alloc: Global) -> Feed
        ensures { result ≡ empty }
    {
        Feed {
            bytes: Vec::new(alloc),
            start: 0,
            scanned: 0,
            limit: 0,
            needed: 1,
            owed: 0,
            ahead: None,
        }
    }

    /// Appends the next piece of the stream, less the bytes that it must skip. If memory is
    /// refused, nothing changes.
    pub fn push(&mut self, piece: &[u8]) -> Result<(), NoMemory>
        ensures more { OnOk result (self.new ≡ more self.old piece.now) }
        ensures longer { list_length self.new.unread
            ≤ list_length self.old.unread + list_length piece.now }
        ensures unchanged_on_err { OnErr result (self.new ≡ self.old) }
    {
        let n = piece.len();
        if n <= self.owed {
            self.owed -= n;
            return Ok(());
        }
        self.compact();
        forget(&mut self.ahead);
        let rest = &piece[self.owed..];
        self.bytes.extend_from_slice(rest)?;
        self.owed = 0;
        Ok(())
    }

    /// Frees the room of bytes already read, once they outnumber the unread ones.
    fn compact(&mut self)
        ensures { self.new ≡ self.old }
    {
        if self.start > self.bytes.len() - self.start {
            self.bytes.drain(..self.start);
            self.start = 0;
        }
    }

    /// Returns the number of unread bytes.
    pub fn unread_len(&self) -> usize
        ensures { result ≡ list_length self.now.unread }
    {
        self.bytes.len() - self.start
    }

    /// Takes the next whole request; a block may have at most `limit` bytes. Returns `None` only if
    /// no whole request begins the unread bytes, of which there are then at most `limit` + 65,538.
    /// If memory is refused, nothing changes; that happens only if the unread bytes begin with a
    /// whole line.
    pub fn next(&mut self, alloc: Global, limit: u32) -> Result<Option<Request>, NoMemory>
        ensures found { IfOk result (λ request. request ≡ found limit self.old) }
        ensures after { OnOk result (self.new ≡ after_first limit self.old) }
        ensures bounded { IfOk result (λ request. request ≡ None
            → list_length self.new.unread ≤ limit + (longest_line + 2)) }
        ensures no_longer { list_length self.new.unread ≤ list_length self.old.unread }
        ensures refused { OnErr result (HasLine self.old.unread) }
        ensures unchanged_on_err { OnErr result (self.new ≡ self.old) }
    {
        match self.front(alloc, limit)? {
            Some(framed) => Ok(Some(self.take(alloc, framed))),
            None => Ok(None),
        }
    }

    /// Reads the next whole request ahead if it seems to be a look-up, so that `next` has it at
    /// once. Takes nothing out. If memory is refused, nothing is read ahead, and `next` tries
    /// again.
    pub fn read_ahead(&mut self, alloc: Global, limit: u32)
        ensures { self.new ≡ self.old }
    {
        if self.bytes.get(self.start) != Some(&LOOK_UP) {
            return;
        }
        if let Ok(Some(framed)) = self.front(alloc, limit) {
            self.ahead = Some(Ahead { limit, framed });
        }
    }

    /// Returns the next whole request, read ahead or not. It stays among the unread bytes.
    fn front(&mut self, alloc: Global, limit: u32) -> Result<Option<Framed>, NoMemory>
        ensures next { IfOk result (IsNext limit self.old) }
        ensures unchanged { self.new ≡ self.old }
        ensures refused { OnErr result (HasLine self.old.unread) }
    {
        match self.ahead.take() {
            Some(ahead) if ahead.limit == limit => Ok(Some(ahead.framed)),
            _ => self.seek(alloc, limit),
        }
    }

    /// Searches the unread bytes for the next whole request. It stays among them.
    fn seek(&mut self, alloc: Global, limit: u32) -> Result<Option<Framed>, NoMemory>
        ensures next { IfOk result (IsNext limit self.old) }
        ensures unchanged { self.new ≡ self.old }
        ensures refused { OnErr result (HasLine self.old.unread) }
    {
        if self.is_waiting(limit) {
            return Ok(None);
        }
        let unread = &self.bytes[self.start..];
        match find_end(unread, self.scanned) {
            None => Ok(self.next_without_end(limit)),
            Some(end) => self.next_line(alloc, limit, end),
        }
    }

    /// Returns the fault of a line that is too long, or `None` if the line may still end. The first
    /// 65,537 unread bytes must hold no line feed.
    fn next_without_end(&mut self, limit: u32) -> Option<Framed>
        requires none { line_length (take line_room self.old.unread) ≡ None }
        ensures next { IsNext limit self.old result }
        ensures unchanged { self.new ≡ self.old }
    {
        let unread = self.unread_len();
        if unread <= LONGEST_LINE {
            self.wait(limit, unread, unread + 1);
            return None;
        }
        let request = Request::Refused {
            fault: Fault::LineTooLong,
            quiet: false,
        };
        Some(Framed::whole(request, LONGEST_LINE + 1))
    }

    /// Reads the request whose line ends at `end`.
    fn next_line(
        &mut self,
        alloc: Global,
        limit: u32,
        end: usize,
    ) -> Result<Option<Framed>, NoMemory>
        requires end { line_length (take line_room self.old.unread) ≡ Some end }
        requires within { end < list_length self.old.unread }
        requires short { end ≤ longest_line }
        ensures next { IfOk result (IsNext limit self.old) }
        ensures unchanged { self.new ≡ self.old }
    {
        let unread = &self.bytes[self.start..];
        let (request, skip) = match parse_line(alloc, trim_line(&unread[..end]), limit)? {
            Line::Ready(command) => (Request::Ask(command), 0),
            Line::Refused { fault, quiet, skip } => (Request::Refused { fault, quiet }, skip),
            Line::NeedsBlock(head, length) => {
                return self.next_block(alloc, limit, end, head, length as usize);
            }
        };
        Ok(Some(Framed {
            request,
            length: end + 1,
            skip: skip as usize,
        }))
    }

    /// Reads the request of a storage line that ends at `end`, if its whole block is there.
    fn next_block(
        &mut self,
        alloc: Global,
        limit: u32,
        end: usize,
        head: Head,
        length: usize,
    ) -> Result<Option<Framed>, NoMemory>
        requires end { line_length (take line_room self.old.unread) ≡ Some end }
        requires within { end < list_length self.old.unread }
        requires short { end ≤ longest_line }
        requires line { reading limit (trimmed (take end self.old.unread))
            ≡ NeedsBlock head length }
        requires few { length ≤ limit }
        ensures next { IfOk result (IsNext limit self.old) }
        ensures unchanged { self.new ≡ self.old }
    {
        let needed = end + 1 + (length + 2);
        if self.unread_len() < needed {
            self.wait(limit, end, needed);
            return Ok(None);
        }
        let bytes = &self.bytes[self.start + (end + 1)..];
        let request = read_block(alloc, head, length, bytes)?;
        Ok(Some(Framed::whole(request, needed)))
    }

    /// Takes a request out of the unread bytes, and skips the bytes behind it that go with it.
    fn take(&mut self, alloc: Global, taken: Framed) -> Request
        requires { taken.length ≤ list_length self.old.unread }
        ensures request { result ≡ taken.request }
        ensures after { self.new ≡ reader_behind self.old.unread taken }
        ensures no_longer { list_length self.new.unread ≤ list_length self.old.unread }
    {
        self.pass(alloc, taken.length, taken.skip);
        taken.request
    }

    /// Remembers a search that found no whole request: how many bytes hold no line feed, and how
    /// many a request needs.
    fn wait(&mut self, limit: u32, scanned: usize, needed: usize)
        requires scanned { IsScanned 0 scanned 0 self.old.unread }
        requires awaited { IsAwaited limit needed self.old.unread }
        requires remembered { IsRemembered needed scanned self.old.unread }
        ensures { self.new ≡ self.old }
    {
        self.scanned = scanned;
        self.limit = limit;
        self.needed = needed;
    }

    /// Drops the next whole request with its block, and says what it was. Takes no memory. A block
    /// may have at most `limit` bytes. Returns `None` only if no whole request begins the unread
    /// bytes.
    pub fn pass_over(&mut self, alloc: Global, limit: u32) -> Option<Passed>
        ensures passed { result ≡ option_map passed_of (found limit self.old) }
        ensures after { self.new ≡ after_first limit self.old }
        ensures no_longer { list_length self.new.unread ≤ list_length self.old.unread }
    {
        let unread = &self.bytes[self.start..];
        match first_passed(limit, unread, self.scanned) {
            None => None,
            Some(passing) => {
                self.pass(alloc, passing.length, passing.skip);
                Some(passing.request)
            }
        }
    }

    /// Whether the last search, by the same limit of blocks, already shows that no whole request is
    /// there.
    pub fn is_waiting(&self, limit: u32) -> bool
        ensures none { IsTrue result → found limit self.now ≡ None }
        ensures stays { IsTrue result → after_first limit self.now ≡ self.now }
        ensures bounded { IsTrue result → list_length self.now.unread ≤ limit + (longest_line + 2) }
    {
        self.limit == limit && self.unread_len() < self.needed
    }

    /// Guesses what the request that begins `at` bytes behind the first unread one asks for.
    pub fn peek(&self, at: usize) -> Option<Peeked<'_>> {
        peek(self.bytes.get(self.start.saturating_add(at)..)?)
    }

    /// Moves past `length` bytes of a request and `skip` more, which may still have to come.
    fn pass(&mut self, alloc: Global, length: usize, skip: usize)
        requires { length ≤ list_length self.old.unread }
        ensures after { self.new
            ≡ more (record { unread = []; owed = skip }) (drop length self.old.unread) }
        ensures no_longer { list_length self.new.unread ≤ list_length self.old.unread }
    {
        let there = self.bytes.len() - self.start - length;
        self.scanned = 0;
        self.needed = 1;
        forget(&mut self.ahead);
        if skip < there {
            self.start += length + skip;
        } else {
            clear(alloc, &mut self.bytes);
            self.start = 0;
            self.owed = skip - there;
        }
    }
}

/// Drops a request that was read ahead.
fn forget(ahead: &mut Option<Ahead>)
    ensures { ahead.new ≡ None }
{
    *ahead = None;
}

/// Empties the vector, and frees its room if that is over `KEPT_ROOM`.
fn clear(alloc: Global, bytes: &mut Vec<u8>)
    ensures { bytes.new.items ≡ [] }
{
    if bytes.capacity() > KEPT_ROOM {
        *bytes = Vec::new(alloc);
    } else {
        bytes.clear();
    }
}
