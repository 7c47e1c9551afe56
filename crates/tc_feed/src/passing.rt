//! Skips the first request of unread bytes without memory. These functions only read the bytes.
ghost use Rattle.std.specs.Prelude.{◌≡◌, ◌+◌, ◌<◌, ◌≤◌, ◌^◌, length, take, drop, None, option_map};
ghost use Rattle.tc_grammar.specs.Reading.{reading};
ghost use Rattle.tc_grammar.specs.declared.command.Head.{Head};
ghost use Rattle.tc_feed.specs.Passing.{passing_of};
ghost use Rattle.tc_feed.specs.Stream.{line_length, longest_line, trimmed, block_of, line_request, first_by, first};

use crate::line_end::{LONGEST_LINE, trim_line};
use crate::reading::{ends_line, find_end};
use tc_grammar::{Fault, Outline, outline_line};

/// A whole request that was skipped, without its keys and its block.
#[derive(Clone, Copy, Debug, PartialEq, Eq)]
pub enum Passed {
    /// A command other than `quit`. It gets no reply if `quiet`.
    Command { quiet: bool },
    /// `quit`, which ends the connection.
    Quit,
    /// A fault. It gets no reply if `quiet`.
    Refused { fault: Fault, quiet: bool },
}

/// A request, the number of bytes that it takes, and the number behind it that are skipped.
#[derive(Clone, Copy, PartialEq, Eq)]
pub(crate) struct Passing {
    pub request: Passed,
    pub length: usize,
    pub skip: usize,
}

/// Skips a storage command: a line of `line` bytes with its end, and a block of `n`. Returns `None`
/// if the block is not whole.
fn pass_block(quiet: bool, line: usize, n: usize, bytes: &[u8]) -> Option<Passing>
    requires { line + (n + 2) < 2 ^ 64 }
    ensures { (head : Head) → head.quiet ≡ quiet
        → result ≡ option_map passing_of (block_of head line n bytes.now) }
{
    if bytes.len() < n + 2 {
        return None;
    }
    let request = if ends_line(n, bytes) {
        Passed::Command { quiet }
    } else {
        Passed::Refused {
            fault: Fault::BadChunk,
            quiet,
        }
    };
    Some(Passing {
        request,
        length: line + (n + 2),
        skip: 0,
    })
}

/// Skips the request whose line ends at `end`.
fn pass_line(limit: u32, unread: &[u8], end: usize) -> Option<Passing>
    requires within { end < length unread.now }
    requires short { end ≤ longest_line }
    ensures { result ≡ option_map passing_of (line_request (end + 1) (drop (end + 1) unread.now)
        (reading limit (trimmed (take end unread.now)))) }
{
    let line = end + 1;
    let (request, skip) = match outline_line(trim_line(&unread[..end]), limit) {
        Outline::Command { quiet } => (Passed::Command { quiet }, 0),
        Outline::Quit => (Passed::Quit, 0),
        Outline::Refused { fault, quiet, skip } => (Passed::Refused { fault, quiet }, skip),
        Outline::NeedsBlock { quiet, length } => {
            return pass_block(quiet, line, length as usize, &unread[line..]);
        }
    };
    Some(Passing {
        request,
        length: line,
        skip: skip as usize,
    })
}

/// Returns the fault of a line that is too long, or `None` if the line may still end. The first
/// 65,537 bytes must hold no line feed.
fn pass_long_line(unread: &[u8]) -> Option<Passing>
    ensures { result ≡ option_map passing_of (first_by 0 unread.now None) }
{
    if unread.len() <= LONGEST_LINE {
        return None;
    }
    let request = Passed::Refused {
        fault: Fault::LineTooLong,
        quiet: false,
    };
    Some(Passing {
        request,
        length: LONGEST_LINE + 1,
        skip: 0,
    })
}

/// Returns the first whole request of unread bytes. The first `scanned` of them must hold no line
/// feed.
pub(crate) fn first_passed(limit: u32, unread: &[u8], scanned: usize) -> Option<Passing>
    requires within { scanned ≤ length unread.now }
    requires short { scanned ≤ longest_line + 1 }
    requires none { line_length (take scanned unread.now) ≡ None }
    ensures { result ≡ option_map passing_of (first limit unread.now) }
{
    match find_end(unread, scanned) {
        None => pass_long_line(unread),
        Some(end) => pass_line(limit, unread, end),
    }
}
