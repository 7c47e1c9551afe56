//! Tests of what no clause says of streams: each call with memory to spare, and the requests, by
//! hand, of streams cut at every byte. A call that is refused memory is made again.

use crate::fixtures::{expect_number, expect_text};
use std::alloc::{AllocError, Global};
use std::process::Abort;
use std::test::Fail;
use tc_feed::{Feed, Request, cutting};
use tc_grammar::{Command, Head};
use tc_item::{Blob, NoMemory};

/// The most bytes that a block may have in these tests.
const LIMIT: u32 = 16;

/// The text for no whole request.
const NOTHING: &str = "nothing";

const GET_A: &str = r#"Ask(Get { form: Bare, keys: ["a"] })"#;

const GET_B: &str = r#"Ask(Get { form: Bare, keys: ["b"] })"#;

const VERSION: &str = "Ask(Version)";

const BAD_CHUNK: &str = "Refused { fault: BadChunk, quiet: false }";

const BAD_FORMAT: &str = "Refused { fault: BadFormat, quiet: false }";

const TOO_LARGE: &str = "Refused { fault: TooLarge, quiet: false }";

const UNKNOWN: &str = "Refused { fault: UnknownCommand, quiet: false }";

/// A stream of commands, blocks that contain line ends, blocks that are a byte too long, and faults
/// that skip bytes.
const STREAM: &str = "get a\r\n\
    set k 0 0 7\r\n\r\nEND\r\n\r\n\
    set k 0 0 2\r\nabc\r\n\
    set k 0 0 2 noreply\r\nab\n\r\
    set k 0 0 17\r\nget x\r\nget y\r\nzzz\n\n\
    set k 0 0 17 noreply\nset k 0 0 17\r\nset\r\n\
    set k 0 x 5\r\n\nget z\n\
    set k 0 0 16\r\nquit\r\nquit\r\nquit\r\n\
    VERSION\n\
    set k 0 0 0\r\n\r\n\
    version\r\n";

/// The requests of `STREAM`. A storage command is shown by its name, its key and its block.
const REQUESTS: [&str; 12] = [
    GET_A,
    r#"Set "k" "\r\nEND\r\n""#,
    BAD_CHUNK,
    UNKNOWN,
    "Refused { fault: BadChunk, quiet: true }",
    TOO_LARGE,
    "Refused { fault: TooLarge, quiet: true }",
    BAD_FORMAT,
    r#"Set "k" "quit\r\nquit\r\nquit""#,
    UNKNOWN,
    r#"Set "k" """#,
    VERSION,
];

const COMMAND: &str = "Command { quiet: false }";

const QUIET_COMMAND: &str = "Command { quiet: true }";

/// The outline of each request of `STREAM`, as it is passed over.
const PASSED: [&str; 12] = [
    COMMAND,
    COMMAND,
    BAD_CHUNK,
    UNKNOWN,
    "Refused { fault: BadChunk, quiet: true }",
    TOO_LARGE,
    "Refused { fault: TooLarge, quiet: true }",
    BAD_FORMAT,
    COMMAND,
    UNKNOWN,
    COMMAND,
    COMMAND,
];

/// Single requests, and the outline of each as it is passed over.
const LINES: [(&str, &str); 18] = [
    ("get a b c\r\n", COMMAND),
    ("get a noreply\r\n", COMMAND),
    ("gets a\x7f\r\n", BAD_FORMAT),
    ("get\r\n", BAD_FORMAT),
    ("gat 5 a b\r\n", COMMAND),
    ("gats x a\r\n", BAD_FORMAT),
    ("delete a 0 noreply\r\n", QUIET_COMMAND),
    ("delete a 1\r\n", BAD_FORMAT),
    ("touch a 5 noreply\r\n", QUIET_COMMAND),
    ("touch a\r\n", BAD_FORMAT),
    ("incr a 1 noreply\r\n", QUIET_COMMAND),
    ("decr a x\r\n", "Refused { fault: BadDelta, quiet: false }"),
    ("cas a 0 0 1 7 noreply\r\nx\r\n", QUIET_COMMAND),
    ("cas a 0 0 1\r\nx\r\n", BAD_FORMAT),
    ("flush_all noreply\r\n", QUIET_COMMAND),
    ("verbosity 1\r\n", COMMAND),
    ("quit\r\n", "Quit"),
    ("set a 0 0 2\r\nx\r\n", NOTHING),
];

/// Pushes a piece, and once more if memory was refused.
fn push(feed: &mut Feed, piece: &[u8]) -> Result<(), NoMemory> {
    match feed.push(piece) {
        Ok(()) => Ok(()),
        Err(NoMemory) => feed.push(piece),
    }
}

/// Returns the next request, if a whole one is there. Looks once more if memory was refused.
fn next(alloc: Global, feed: &mut Feed, limit: u32) -> Result<Option<Request>, NoMemory> {
    match feed.next(alloc, limit) {
        Ok(request) => Ok(request),
        Err(NoMemory) => feed.next(alloc, limit),
    }
}

/// Returns the text of a storage command: its name, its key and its block.
fn store_text(alloc: Global, head: &Head, blob: &Blob) -> Result<String, AllocError> {
    let block = str::from_utf8(blob.as_slice()).unwrap_or("no text");
    format!(in alloc; "{:?} {:?} {block:?}", head.kind, head.key)
}

/// Returns the text of a request.
fn text_of(alloc: Global, request: &Request) -> Result<String, AllocError> {
    match request {
        Request::Ask(Command::Store(head, blob)) => store_text(alloc, head, blob),
        _ => format!(in alloc; "{request:?}"),
    }
}

/// Returns the text of a request, or `NOTHING` if there is none.
fn text_of_next(alloc: Global, request: &Option<Request>) -> Result<String, AllocError> {
    match request {
        Some(request) => text_of(alloc, request),
        None => String::from_str(alloc, NOTHING),
    }
}

/// Takes the next request, and returns its text.
fn shown(alloc: Global, feed: &mut Feed, limit: u32) -> Result<String, AllocError> {
    match next(alloc, feed, limit) {
        Ok(request) => text_of_next(alloc, &request),
        Err(NoMemory) => String::from_str(alloc, "out of memory"),
    }
}

/// Returns the text of the stream's request with this number.
fn request_at(number: usize) -> &'static str {
    match REQUESTS.get(number) {
        Some(request) => *request,
        None => "no request is left",
    }
}

/// Returns whether there is a next request, which must be the stream's request with this number.
fn expect_request(
    rt: &(impl AllocGlobal + Abort),
    feed: &mut Feed,
    number: usize,
) -> Result<bool, Fail> {
    let shown = shown(rt.alloc(), feed, LIMIT)?;
    if shown.as_str() == NOTHING {
        return Ok(false);
    }
    expect_text(rt, shown.as_str(), request_at(number), "stream");
    Ok(true)
}

/// Pushes a piece, and expects the requests that are whole after it, from this number on. Returns
/// the number of the request after them.
fn expect_piece(
    rt: &(impl AllocGlobal + Abort),
    feed: &mut Feed,
    piece: &[u8],
    number: usize,
) -> Result<usize, Fail> {
    push(feed, piece)?;
    let mut number = number;
    for _ in 0..=REQUESTS.len() {
        if !expect_request(rt, feed, number)? {
            return Ok(number);
        }
        number = number.saturating_add(1);
    }
    Ok(number)
}

/// Expects that all requests were found and nothing is unread.
fn expect_end(rt: &impl Abort, feed: &Feed, number: usize) {
    expect_number(rt, number as u64, REQUESTS.len() as u64, "found");
    expect_number(rt, feed.unread_len() as u64, 0, "kept");
}

/// Expects the stream's requests if it arrives in these two pieces.
fn expect_cut(rt: &(impl AllocGlobal + Abort), first: &[u8], second: &[u8]) -> Result<(), Fail> {
    let mut feed = Feed::new(rt.alloc());
    let found = expect_piece(rt, &mut feed, first, 0)?;
    let found = expect_piece(rt, &mut feed, second, found)?;
    expect_end(rt, &feed, found);
    Ok(())
}

/// Guards requests against the network: wherever a packet ends, the commands are the same.
#[test]
fn a_stream_cut_in_two_anywhere_holds_the_same_requests(rt: HostRuntime) -> Result<(), Fail> {
    cutting();
    for cut in 0..=STREAM.len() {
        let (first, second) = STREAM.as_bytes().split_at(cut);
        expect_cut(&rt, first, second)?;
    }
    Ok(())
}

/// Guards requests of the slowest client, and the bookkeeping of how many bytes are still missing.
#[test]
fn a_stream_that_comes_byte_by_byte_holds_the_same_requests(rt: HostRuntime) -> Result<(), Fail> {
    let mut feed = Feed::new(rt.alloc());
    let mut found = 0;
    for byte in STREAM.as_bytes() {
        found = expect_piece(&rt, &mut feed, &[*byte], found)?;
    }
    expect_end(&rt, &feed, found);
    Ok(())
}

/// Guards requests against reading ahead, which must change none, even in the middle of a block.
#[test]
fn requests_that_were_read_ahead_at_each_byte_are_the_same(rt: HostRuntime) -> Result<(), Fail> {
    let mut feed = Feed::new(rt.alloc());
    for byte in STREAM.as_bytes() {
        push(&mut feed, &[*byte])?;
        feed.read_ahead(rt.alloc(), LIMIT);
    }
    let found = expect_piece(&rt, &mut feed, b"", 0)?;
    expect_end(&rt, &feed, found);
    Ok(())
}

/// Passes the next request over, and expects its outline.
fn expect_passed(
    rt: &(impl AllocGlobal + Abort),
    feed: &mut Feed,
    want: &str,
    at: &str,
) -> Result<(), Fail> {
    let shown = match feed.pass_over(rt.alloc(), LIMIT) {
        Some(passed) => format!(in rt.alloc(); "{passed:?}")?,
        None => String::from_str(rt.alloc(), NOTHING)?,
    };
    expect_text(rt, shown.as_str(), want, at);
    Ok(())
}

/// Guards the stream when memory is refused: a declined `set` takes its block along.
#[test]
fn what_is_passed_over_is_gone_with_its_block(rt: HostRuntime) -> Result<(), Fail> {
    let mut feed = Feed::new(rt.alloc());
    push(&mut feed, STREAM.as_bytes())?;
    for passed in PASSED {
        expect_passed(&rt, &mut feed, passed, "stream")?;
    }
    expect_passed(&rt, &mut feed, NOTHING, "end")?;
    expect_number(&rt, feed.unread_len() as u64, 0, "kept");
    Ok(())
}

/// Guards quiet commands and faults when memory is refused: the outline must agree with the full
/// parse.
#[test]
fn each_line_is_passed_over_as_it_would_be_read(rt: HostRuntime) -> Result<(), Fail> {
    for (line, passed) in LINES {
        let mut feed = Feed::new(rt.alloc());
        push(&mut feed, line.as_bytes())?;
        expect_passed(&rt, &mut feed, passed, line)?;
    }
    Ok(())
}

/// A piece that is pushed, the limit of blocks, the next request after it, and how many bytes are
/// unread then.
type Look = (&'static str, u32, &'static str, u64);

/// Pushes a look's piece, takes the next request, and expects its text and the bytes unread after
/// it.
fn expect_look(rt: &(impl AllocGlobal + Abort), feed: &mut Feed, look: &Look) -> Result<(), Fail> {
    let (piece, limit, request, kept) = *look;
    push(feed, piece.as_bytes())?;
    let shown = shown(rt.alloc(), feed, limit)?;
    expect_text(rt, shown.as_str(), request, piece);
    expect_number(rt, feed.unread_len() as u64, kept, piece);
    Ok(())
}

/// Takes each look on one feed.
fn expect_looks(
    rt: &(impl AllocGlobal + Abort),
    feed: &mut Feed,
    looks: &[Look],
) -> Result<(), Fail> {
    for look in looks {
        expect_look(rt, feed, look)?;
    }
    Ok(())
}

/// Streams cut before the last byte of their first request, and that byte. The last stream still
/// lacks one byte after both pieces.
const FIRST_REQUESTS: [[Look; 2]; 7] = [
    [("get a\r", LIMIT, NOTHING, 6), ("\n", LIMIT, GET_A, 0)],
    [("get a", LIMIT, NOTHING, 5), ("\n", LIMIT, GET_A, 0)],
    [
        ("set k 0 0 2\r\nab\r", LIMIT, NOTHING, 16),
        ("\n", LIMIT, r#"Set "k" "ab""#, 0),
    ],
    [
        ("set k 0 0 2\r\nabc", LIMIT, NOTHING, 16),
        ("d", LIMIT, BAD_CHUNK, 0),
    ],
    [
        ("set k 0 0 17\r", LIMIT, NOTHING, 13),
        ("\n", LIMIT, TOO_LARGE, 0),
    ],
    [
        ("set k 0 x 2\r", LIMIT, NOTHING, 12),
        ("\n", LIMIT, BAD_FORMAT, 0),
    ],
    [
        ("set k 0 0 2 noreply\r\nab", LIMIT, NOTHING, 23),
        ("\r", LIMIT, NOTHING, 24),
    ],
];

/// Takes the looks of each stream on a feed of its own.
fn expect_each(rt: &(impl AllocGlobal + Abort), streams: &[[Look; 2]]) -> Result<(), Fail> {
    for looks in streams {
        expect_looks(rt, &mut Feed::new(rt.alloc()), looks)?;
    }
    Ok(())
}

/// Guards replies against delay: a request must be answered at its last byte, without waiting for
/// another.
#[test]
fn a_request_is_whole_at_its_last_byte_and_no_earlier(rt: HostRuntime) -> Result<(), Fail> {
    expect_each(&rt, &FIRST_REQUESTS)
}

/// Pushes one piece this many times.
fn push_often(feed: &mut Feed, piece: &[u8], times: usize) -> Result<(), NoMemory> {
    for _ in 0..times {
        push(feed, piece)?;
    }
    Ok(())
}

/// Takes looks on a feed that holds a line of 65,536 bytes, its beginning and spaces, without a
/// line feed.
fn expect_after_longest_line(
    rt: &(impl AllocGlobal + Abort),
    begin: &str,
    looks: &[Look],
) -> Result<(), Fail> {
    let mut feed = Feed::new(rt.alloc());
    push(&mut feed, begin.as_bytes())?;
    push_often(&mut feed, b" ", 65_536_usize.saturating_sub(begin.len()))?;
    expect_looks(rt, &mut feed, looks)
}

const LONGEST_LINE: [Look; 2] = [("", LIMIT, NOTHING, 65_536), ("\n", LIMIT, GET_A, 0)];

/// Guards clients that ask for many keys in one long line.
#[test]
fn a_line_of_65536_bytes_is_read(rt: HostRuntime) -> Result<(), Fail> {
    expect_after_longest_line(&rt, "get a", &LONGEST_LINE)
}

const LINE_TOO_LONG: &str = "Refused { fault: LineTooLong, quiet: false }";

const BEYOND_LONGEST_LINE: [Look; 2] = [
    ("\rversion\r\n", LIMIT, LINE_TOO_LONG, 9),
    ("", LIMIT, VERSION, 0),
];

/// Guards memory against a line without an end, and lets the connection go on after its end.
#[test]
fn a_line_is_too_long_at_its_65537th_byte(rt: HostRuntime) -> Result<(), Fail> {
    expect_after_longest_line(&rt, "get a", &BEYOND_LONGEST_LINE)
}

const LONGEST_WAIT: [Look; 2] = [
    ("\n0123456789abcdef\r", LIMIT, NOTHING, 65_554),
    ("\n", LIMIT, r#"Set "k" "0123456789abcdef""#, 0),
];

/// Guards the bound on unread bytes, by which operators size memory for each connection.
#[test]
fn the_most_that_waits_is_a_longest_line_and_all_but_a_byte_of_its_block(
    rt: HostRuntime,
) -> Result<(), Fail> {
    expect_after_longest_line(&rt, "set k 0 0 16", &LONGEST_WAIT)
}

/// A line whose block is too large. The block and its line end have 1,048,578 bytes: 174,762 pieces
/// of 6 bytes, and the first piece of `SKIPPED`.
const SKIPPING: [Look; 1] = [("set k 0 0 1048576\r\n", LIMIT, TOO_LARGE, 0)];

const SKIPPED: [Look; 2] = [("get a\n", LIMIT, NOTHING, 0), ("get b\n", LIMIT, GET_B, 0)];

/// Guards memory: a refused block of any size must take none, and must not run as commands.
#[test]
fn bytes_that_are_skipped_are_not_kept(rt: HostRuntime) -> Result<(), Fail> {
    let mut feed = Feed::new(rt.alloc());
    expect_looks(&rt, &mut feed, &SKIPPING)?;
    push_often(&mut feed, b"get a\n", 174_762)?;
    expect_looks(&rt, &mut feed, &SKIPPED)
}

/// A line whose block is not whole, first with a limit of its length, then with a lower limit.
const LOWER_LIMIT: [[Look; 2]; 1] = [[
    ("set k 0 0 17\r\nab", 17, NOTHING, 16),
    ("", LIMIT, TOO_LARGE, 0),
]];

/// Guards logins: the limit on blocks changes when a connection is bound, and the new one must
/// apply.
#[test]
fn a_line_whose_block_has_not_come_is_judged_by_the_limit_handed_in(
    rt: HostRuntime,
) -> Result<(), Fail> {
    expect_each(&rt, &LOWER_LIMIT)
}
