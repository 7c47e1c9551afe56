//! What clients say, and what they are answered, by hand from doc/protocol.txt.

use crate::fixtures::Found;

/// What a connection's next request wants, without the command.
#[derive(Clone, Copy, Debug, PartialEq, Eq)]
pub enum Wanted {
    Nothing,
    Said,
    /// The cache of alice, who is user 1.
    Alices,
    /// The cache of bob, who is user 2.
    Bobs,
    /// The cache of any other user.
    Unknown,
    Close,
}

/// A piece that is pushed, what the next request wants after it, and all output that waits at that
/// point.
pub type Turn = (&'static str, Wanted, &'static str);

const DENIED: &str = "CLIENT_ERROR unauthenticated\r\n";

/// Whether a connection is closed.
#[derive(Clone, Copy, Debug, PartialEq, Eq)]
pub enum State {
    Open,
    Closed,
}

/// How many bytes are sent first, the turn taken after that, and the connection's state and unread
/// bytes after the turn.
pub type Step = (usize, Turn, State, u64);

/// Output is sent in pieces. The last piece reports more bytes than wait.
pub const UNSENT: [Step; 4] = [
    (
        0,
        ("get k\r\nbogus\r\nget", Wanted::Said, DENIED),
        State::Open,
        10,
    ),
    (
        13,
        ("", Wanted::Said, "unauthenticated\r\nERROR\r\n"),
        State::Open,
        3,
    ),
    (17, ("", Wanted::Nothing, "ERROR\r\n"), State::Open, 3),
    (8, ("", Wanted::Nothing, ""), State::Open, 3),
];

/// A connection that was shut leaves a whole line unread.
pub const SHUT: [Step; 1] = [(0, ("", Wanted::Nothing, ""), State::Closed, 5)];

const BARE: &str = "VALUE a 4294967295 7\r\n\r\nEND\r\n\r\nVALUE b 0 0\r\n\r\nEND\r\n";

const WITH_CAS: &str = "VALUE a 4294967295 7 18446744073709551615\r\n\r\nEND\r\n\r\n\
    VALUE b 0 0 1\r\n\r\nEND\r\n";

/// A command and its reply.
pub type Reply = (&'static str, &'static str);

/// Two hits. The data of the first looks like the end of a reply.
pub const FOUND: [Found; 2] = [
    (
        "a",
        "\r\nEND\r\n",
        4_294_967_295,
        18_446_744_073_709_551_615,
    ),
    ("b", "", 0, 1),
];

/// Look-ups that find the two, and their replies.
pub const LOOK_UPS: [Reply; 4] = [
    ("get a b\r\n", BARE),
    ("gets a b\r\n", WITH_CAS),
    ("gat 0 a b\r\n", BARE),
    ("gats 0 a b\r\n", WITH_CAS),
];

/// A command if no cas number is left, and its reply.
pub const WORN: [Reply; 1] = [("incr k 1\r\n", "SERVER_ERROR cas numbers exhausted\r\n")];

const NO_MEMORY: &str = "SERVER_ERROR out of memory\r\n";

/// Commands, and their replies if memory is refused.
pub const REFUSALS: [Reply; 3] = [
    ("get k\r\n", NO_MEMORY),
    ("set k 0 0 1\r\nx\r\n", NO_MEMORY),
    ("set k 0 0 1 noreply\r\nx\r\n", ""),
];

/// The same for a long key, for several keys, and for lines without a key.
pub const DECLINED: [Reply; 5] = [
    (
        "get a_key_of_more_bytes_than_are_kept_in_place\r\n",
        NO_MEMORY,
    ),
    ("gets a b c\r\n", NO_MEMORY),
    (
        "touch a_key_of_more_bytes_than_are_kept_in_place 5 noreply\r\n",
        "",
    ),
    ("stats\r\n", NO_MEMORY),
    ("flush_all noreply\r\n", ""),
];
