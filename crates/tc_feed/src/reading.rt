//! Finds the end of a request's line and reads its block. These functions only read the bytes.
ghost use Rattle.std.specs.Prelude.{◌≡◌, ◌+◌, ◌<◌, ◌≤◌, length, take, None, IfOk, IfSome};
ghost use Rattle.tc_feed.specs.Stream.{line_length, longest_line, line_room, ends_line, block_request};

use crate::line_end::{LONGEST_LINE, find_line};
use crate::request::Request;
use std::alloc::Global;
use tc_grammar::{Command, Fault, Head};
use tc_item::{Blob, NoMemory};

/// Whether a carriage return and a line feed follow the first `n` bytes.
pub(crate) fn ends_line(n: usize, bytes: &[u8]) -> bool
    requires { n + 2 ≤ length bytes.now }
    ensures { result ≡ ends_line n bytes.now }
{
    bytes[n] == b'\r' && bytes[n + 1] == b'\n'
}

/// Returns a storage command with its block of `n` bytes, or a bad chunk if no line end follows it.
pub(crate) fn read_block(
    alloc: Global,
    head: Head,
    n: usize,
    bytes: &[u8],
) -> Result<Request, NoMemory>
    requires { n + 2 ≤ length bytes.now }
    ensures { IfOk result (λ request. request ≡ block_request head n bytes.now) }
{
    if ends_line(n, bytes) {
        let blob = Blob::from_slice(alloc, &bytes[..n])?;
        Ok(Request::Ask(Command::Store(head, blob)))
    } else {
        Ok(Request::Refused {
            fault: Fault::BadChunk,
            quiet: head.quiet,
        })
    }
}

/// Returns where the first line ends, within the room of a line. The first `scanned` bytes must
/// hold no line feed.
pub(crate) fn find_end(unread: &[u8], scanned: usize) -> Option<usize>
    requires within { scanned ≤ length unread.now }
    requires short { scanned ≤ longest_line + 1 }
    requires none { line_length (take scanned unread.now) ≡ None }
    ensures value { result ≡ line_length (take line_room unread.now) }
    ensures within { IfSome result (λ n. n < length unread.now) }
    ensures short { IfSome result (λ n. n ≤ longest_line) }
{
    let seen = unread.len().min(LONGEST_LINE + 1);
    find_line(&unread[..seen], scanned)
}
