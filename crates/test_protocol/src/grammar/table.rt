//! Lines and what each spells if a block may have 256 bytes, by hand from doc/protocol.txt; and the
//! faults with their numbers and texts.

use tc_grammar::Fault;

const UNKNOWN: &str = "Refused { fault: UnknownCommand, quiet: false, skip: 0 }";

const BAD_FORMAT: &str = "Refused { fault: BadFormat, quiet: false, skip: 0 }";

const BAD_FORMAT_SKIPS_7: &str = "Refused { fault: BadFormat, quiet: false, skip: 7 }";

const BAD_DELTA: &str = "Refused { fault: BadDelta, quiet: false, skip: 0 }";

/// Command names: lower case only, and a tab is no space.
pub const NAMES: [(&str, &str); 9] = [
    ("", UNKNOWN),
    ("   ", UNKNOWN),
    ("GET k", UNKNOWN),
    ("getx k", UNKNOWN),
    ("mg k", UNKNOWN),
    ("\tget k", UNKNOWN),
    ("Get k", UNKNOWN),
    ("get\tk", UNKNOWN),
    ("noreply", UNKNOWN),
];

/// Retrieval lines.
pub const RETRIEVAL: [(&str, &str); 17] = [
    ("get k", r#"Ready(Get { form: Bare, keys: ["k"] })"#),
    ("  get   k  ", r#"Ready(Get { form: Bare, keys: ["k"] })"#),
    (
        "get a b a",
        r#"Ready(Get { form: Bare, keys: ["a", "b", "a"] })"#,
    ),
    (
        "get noreply",
        r#"Ready(Get { form: Bare, keys: ["noreply"] })"#,
    ),
    ("get", BAD_FORMAT),
    ("get  ", BAD_FORMAT),
    ("gets k", r#"Ready(Get { form: WithCas, keys: ["k"] })"#),
    ("gets", BAD_FORMAT),
    ("get k\rx", BAD_FORMAT),
    ("get k\x7f", BAD_FORMAT),
    ("get é", r#"Ready(Get { form: Bare, keys: ["é"] })"#),
    (
        "gat 5 a b",
        r#"Ready(Gat { form: Bare, exptime: 5, keys: ["a", "b"] })"#,
    ),
    (
        "gats -1 a",
        r#"Ready(Gat { form: WithCas, exptime: -1, keys: ["a"] })"#,
    ),
    ("gat 5", BAD_FORMAT),
    ("gat x a", BAD_FORMAT),
    ("gat", BAD_FORMAT),
    ("get a\tb", BAD_FORMAT),
];

/// Storage lines of the right form.
pub const STORAGE: [(&str, &str); 16] = [
    (
        "set k 0 0 5",
        "NeedsBlock(Head { kind: Set, key: \"k\", flags: 0, exptime: 0, \
            cas_unique: 0, quiet: false }, 5)",
    ),
    (
        "set k 4294967295 -2147483648 256 noreply",
        "NeedsBlock(Head { kind: Set, key: \"k\", flags: 4294967295, exptime: -2147483648, \
            cas_unique: 0, quiet: true }, 256)",
    ),
    (
        "set k 0 4294967295 0",
        "NeedsBlock(Head { kind: Set, key: \"k\", flags: 0, exptime: 4294967295, \
            cas_unique: 0, quiet: false }, 0)",
    ),
    (
        "set k 0 -0 5",
        "NeedsBlock(Head { kind: Set, key: \"k\", flags: 0, exptime: 0, \
            cas_unique: 0, quiet: false }, 5)",
    ),
    (
        "set k 0 -00 5",
        "NeedsBlock(Head { kind: Set, key: \"k\", flags: 0, exptime: 0, \
            cas_unique: 0, quiet: false }, 5)",
    ),
    (
        "set k 00 007 05",
        "NeedsBlock(Head { kind: Set, key: \"k\", flags: 0, exptime: 7, \
            cas_unique: 0, quiet: false }, 5)",
    ),
    (
        "set k 0 0 00000000000000000005",
        "NeedsBlock(Head { kind: Set, key: \"k\", flags: 0, exptime: 0, \
            cas_unique: 0, quiet: false }, 5)",
    ),
    (
        "add k 0 0 1",
        "NeedsBlock(Head { kind: Add, key: \"k\", flags: 0, exptime: 0, \
            cas_unique: 0, quiet: false }, 1)",
    ),
    (
        "replace k 0 0 1",
        "NeedsBlock(Head { kind: Replace, key: \"k\", flags: 0, exptime: 0, \
            cas_unique: 0, quiet: false }, 1)",
    ),
    (
        "append k 0 0 1",
        "NeedsBlock(Head { kind: Append, key: \"k\", flags: 0, exptime: 0, \
            cas_unique: 0, quiet: false }, 1)",
    ),
    (
        "prepend k 0 0 1",
        "NeedsBlock(Head { kind: Prepend, key: \"k\", flags: 0, exptime: 0, \
            cas_unique: 0, quiet: false }, 1)",
    ),
    (
        "cas k 1 2 3 4",
        "NeedsBlock(Head { kind: Cas, key: \"k\", flags: 1, exptime: 2, \
            cas_unique: 4, quiet: false }, 3)",
    ),
    (
        "cas k 0 0 3 18446744073709551615 noreply",
        "NeedsBlock(Head { kind: Cas, key: \"k\", flags: 0, exptime: 0, \
            cas_unique: 18446744073709551615, quiet: true }, 3)",
    ),
    (
        "cas k 0 0 3 4",
        "NeedsBlock(Head { kind: Cas, key: \"k\", flags: 0, exptime: 0, \
            cas_unique: 4, quiet: false }, 3)",
    ),
    (
        "set k 0 -00000000002147483648 5",
        "NeedsBlock(Head { kind: Set, key: \"k\", flags: 0, exptime: -2147483648, \
            cas_unique: 0, quiet: false }, 5)",
    ),
    (
        "set k 0 0 0 noreply",
        "NeedsBlock(Head { kind: Set, key: \"k\", flags: 0, exptime: 0, \
            cas_unique: 0, quiet: true }, 0)",
    ),
];

/// Refused storage lines. The fifth token is the length, and a refused line skips that many bytes
/// and two more.
pub const REFUSED_STORAGE: [(&str, &str); 28] = [
    ("set k 4294967296 0 5", BAD_FORMAT_SKIPS_7),
    ("set k 0 4294967296 5", BAD_FORMAT_SKIPS_7),
    ("set k 0 -2147483649 5", BAD_FORMAT_SKIPS_7),
    ("set k 0 --1 5", BAD_FORMAT_SKIPS_7),
    ("set k +1 0 5", BAD_FORMAT_SKIPS_7),
    ("set k 0 - 5", BAD_FORMAT_SKIPS_7),
    (
        "set k 0 0 257",
        "Refused { fault: TooLarge, quiet: false, skip: 259 }",
    ),
    (
        "set k 0 0 257 noreply",
        "Refused { fault: TooLarge, quiet: true, skip: 259 }",
    ),
    (
        "set k 0 0 2147483647",
        "Refused { fault: TooLarge, quiet: false, skip: 2147483649 }",
    ),
    ("set k 0 0 2147483648", BAD_FORMAT),
    ("set k 0 0 000000000000000000005", BAD_FORMAT),
    ("set k 0 0 5 a b c", BAD_FORMAT_SKIPS_7),
    ("set k 0 0 5 NOREPLY", BAD_FORMAT_SKIPS_7),
    ("set k 0 0 5 noreply noreply", BAD_FORMAT_SKIPS_7),
    (
        "set k 0 0 257 a",
        "Refused { fault: BadFormat, quiet: false, skip: 259 }",
    ),
    ("set k 0 0", BAD_FORMAT),
    ("set", BAD_FORMAT),
    ("set k 0 0 x", BAD_FORMAT),
    ("set k 0 0 -5", BAD_FORMAT),
    (
        "cas k 0 0 3 18446744073709551616",
        "Refused { fault: BadFormat, quiet: false, skip: 5 }",
    ),
    ("cas k 0 0 5", BAD_FORMAT_SKIPS_7),
    ("cas k 0 0 5 noreply", BAD_FORMAT_SKIPS_7),
    (
        "cas k 0 0 300 9 noreply",
        "Refused { fault: TooLarge, quiet: true, skip: 302 }",
    ),
    ("set k -1 0 5", BAD_FORMAT_SKIPS_7),
    ("set k 0 0 5 noreply x", BAD_FORMAT_SKIPS_7),
    ("append k 0 0 5 7", BAD_FORMAT_SKIPS_7),
    ("cas k 0 0 5 noreply noreply", BAD_FORMAT_SKIPS_7),
    (
        "cas k 0 0 3 000000000000000000009",
        "Refused { fault: BadFormat, quiet: false, skip: 5 }",
    ),
];

/// Counter lines. A bad delta has a fault of its own, but only if the key and the ending are good.
pub const COUNTERS: [(&str, &str); 17] = [
    (
        "incr k 5",
        r#"Ready(Count { way: Incr, key: "k", value: 5, quiet: false })"#,
    ),
    (
        "decr k 18446744073709551615 noreply",
        r#"Ready(Count { way: Decr, key: "k", value: 18446744073709551615, quiet: true })"#,
    ),
    ("incr k 18446744073709551616", BAD_DELTA),
    ("incr k x", BAD_DELTA),
    ("incr k x noreply", BAD_DELTA),
    ("incr k noreply", BAD_DELTA),
    ("incr k noreply noreply", BAD_DELTA),
    ("incr k -1", BAD_DELTA),
    ("incr k x y", BAD_FORMAT),
    ("incr k 1 y", BAD_FORMAT),
    ("incr k", BAD_FORMAT),
    ("incr", BAD_FORMAT),
    ("incr k x noreply z", BAD_FORMAT),
    (
        "incr k 00000000000000000005",
        r#"Ready(Count { way: Incr, key: "k", value: 5, quiet: false })"#,
    ),
    ("incr k 000000000000000000005", BAD_DELTA),
    (
        "decr k 1 noreply",
        r#"Ready(Count { way: Decr, key: "k", value: 1, quiet: true })"#,
    ),
    ("incr k 1 noreply noreply", BAD_FORMAT),
];

/// `delete`, with the 0 of old clients, and `touch`.
pub const KEYED: [(&str, &str); 18] = [
    ("delete k", r#"Ready(Delete { key: "k", quiet: false })"#),
    ("delete k 0", r#"Ready(Delete { key: "k", quiet: false })"#),
    (
        "delete k noreply",
        r#"Ready(Delete { key: "k", quiet: true })"#,
    ),
    (
        "delete k 0 noreply",
        r#"Ready(Delete { key: "k", quiet: true })"#,
    ),
    ("delete k 5", BAD_FORMAT),
    ("delete k 00", BAD_FORMAT),
    ("delete k noreply 0", BAD_FORMAT),
    ("delete k 0 0", BAD_FORMAT),
    ("delete", BAD_FORMAT),
    (
        "touch k 10",
        r#"Ready(Touch { key: "k", exptime: 10, quiet: false })"#,
    ),
    (
        "touch k -1 noreply",
        r#"Ready(Touch { key: "k", exptime: -1, quiet: true })"#,
    ),
    ("touch k", BAD_FORMAT),
    ("touch k x", BAD_FORMAT),
    ("touch k 1 2", BAD_FORMAT),
    ("delete k noreply noreply", BAD_FORMAT),
    ("delete 0", r#"Ready(Delete { key: "0", quiet: false })"#),
    (
        "touch k 4294967295",
        r#"Ready(Touch { key: "k", exptime: 4294967295, quiet: false })"#,
    ),
    ("touch k 4294967296", BAD_FORMAT),
];

/// Lines without a key.
pub const UNKEYED: [(&str, &str); 23] = [
    ("flush_all", "Ready(Flush { delay: 0, quiet: false })"),
    (
        "flush_all noreply",
        "Ready(Flush { delay: 0, quiet: true })",
    ),
    ("flush_all 5", "Ready(Flush { delay: 5, quiet: false })"),
    (
        "flush_all 5 noreply",
        "Ready(Flush { delay: 5, quiet: true })",
    ),
    ("flush_all -1", BAD_FORMAT),
    ("flush_all noreply noreply", BAD_FORMAT),
    ("flush_all noreply 5", BAD_FORMAT),
    ("flush_all 4294967296", BAD_FORMAT),
    ("stats", "Ready(Stats)"),
    ("stats items", BAD_FORMAT),
    ("version", "Ready(Version)"),
    ("version x", BAD_FORMAT),
    ("quit", "Ready(Quit)"),
    ("quit noreply", BAD_FORMAT),
    ("verbosity 1", "Ready(Verbosity { level: 1, quiet: false })"),
    (
        "verbosity 4294967295 noreply",
        "Ready(Verbosity { level: 4294967295, quiet: true })",
    ),
    ("verbosity", BAD_FORMAT),
    ("verbosity x", BAD_FORMAT),
    ("flush_all 0", "Ready(Flush { delay: 0, quiet: false })"),
    (
        "flush_all 4294967295",
        "Ready(Flush { delay: 4294967295, quiet: false })",
    ),
    ("verbosity noreply", BAD_FORMAT),
    ("verbosity 4294967296", BAD_FORMAT),
    ("stats noreply", BAD_FORMAT),
];

/// A key of 251 bytes.
pub const LONG_KEY: [(&str, &str); 1] = [(
    "set kkkkkkkkkkkkkkkkkkkkkkkkkkkkkkkkkkkkkkkkkkkkkkkkkkkkkkkkkkkkkkkkkkkkkkkkkkkkkkkk\
            kkkkkkkkkkkkkkkkkkkkkkkkkkkkkkkkkkkkkkkkkkkkkkkkkkkkkkkkkkkkkkkkkkkkkkkkkkkkkkkk\
            kkkkkkkkkkkkkkkkkkkkkkkkkkkkkkkkkkkkkkkkkkkkkkkkkkkkkkkkkkkkkkkkkkkkkkkkkkkkkkkk\
            kkkkkkkkkkk 0 0 1",
    "Refused { fault: BadFormat, quiet: false, skip: 3 }",
)];

/// Storage lines if a block may have 1,048,576 bytes.
pub const AT_A_MEBIBYTE: [(&str, &str); 2] = [
    (
        "set k 0 0 1048576",
        "NeedsBlock(Head { kind: Set, key: \"k\", flags: 0, exptime: 0, \
            cas_unique: 0, quiet: false }, 1048576)",
    ),
    (
        "set k 0 0 1048577",
        "Refused { fault: TooLarge, quiet: false, skip: 1048579 }",
    ),
];

/// Streams of one command, one for each kind of command.
pub const COPIED: [&str; 11] = [
    "gets a b c\r\n",
    "gat 5 a_key_of_more_than_thirty_two_bytes\r\n",
    "delete k\r\n",
    "incr k 5 noreply\r\n",
    "touch k -1\r\n",
    "flush_all 9\r\n",
    "verbosity 3\r\n",
    "stats\r\n",
    "version\r\n",
    "quit\r\n",
    "cas k 1 2 3 4\r\nabc\r\n",
];

/// Faults, their numbers and their texts.
pub const FAULTS: [(Fault, u64, &str); 11] = [
    (Fault::UnknownCommand, 1, "ERROR"),
    (Fault::BadFormat, 2, "CLIENT_ERROR bad command line format"),
    (Fault::BadChunk, 3, "CLIENT_ERROR bad data chunk"),
    (Fault::LineTooLong, 4, "CLIENT_ERROR line too long"),
    (
        Fault::TooLarge,
        5,
        "SERVER_ERROR object too large for cache",
    ),
    (Fault::NoMemory, 6, "SERVER_ERROR out of memory"),
    (
        Fault::NotNumeric,
        7,
        "CLIENT_ERROR cannot increment or decrement non-numeric value",
    ),
    (
        Fault::BadDelta,
        8,
        "CLIENT_ERROR invalid numeric delta argument",
    ),
    (Fault::Unauthenticated, 9, "CLIENT_ERROR unauthenticated"),
    (
        Fault::AuthenticationFailure,
        10,
        "CLIENT_ERROR authentication failure",
    ),
    (Fault::CasWorn, 11, "SERVER_ERROR cas numbers exhausted"),
];
