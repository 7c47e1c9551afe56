//! Rows of commands and their outcomes, by hand from doc/protocol.txt and the rules of eviction.

use tc_stats::Counters;

/// A command and its outcome: the second of the command, its line, its block, and the outcome in
/// words. If the block is shorter than the line's length, `x` fills the rest. `NUMBER` is followed
/// by the number, and `HIT` by the flags, the data and the cas number of each hit.
pub(crate) type Row = (u64, &'static str, &'static str, &'static str);

pub(crate) const STORES: [Row; 18] = [
    (0, "append k 7 9 1", "b", "NOT_STORED"),
    (0, "prepend k 7 9 1", "b", "NOT_STORED"),
    (0, "replace k 7 0 1", "b", "NOT_STORED"),
    (0, "cas k 0 0 1 1", "b", "NOT_FOUND"),
    (0, "add k 5 0 1", "a", "STORED"),
    (0, "add k 5 0 1", "z", "NOT_STORED"),
    (0, "get k", "", "HIT 5 a 1"),
    (0, "append k 7 9 2", "bc", "STORED"),
    (0, "get k", "", "HIT 5 abc 2"),
    (20, "prepend k 7 -1 2", "de", "STORED"),
    (20, "get k", "", "HIT 5 deabc 3"),
    (20, "replace k 6 0 1", "f", "STORED"),
    (20, "cas k 9 0 1 3", "g", "EXISTS"),
    (20, "get k", "", "HIT 6 f 4"),
    (20, "cas k 9 0 1 4", "g", "STORED"),
    (20, "get k", "", "HIT 9 g 5"),
    (20, "set k 0 -1 1", "h", "STORED"),
    (20, "append k 0 0 1", "i", "NOT_STORED"),
];

pub(crate) const COUNTS: [Row; 16] = [
    (0, "incr n 1", "", "NOT_FOUND"),
    (0, "decr n 1", "", "NOT_FOUND"),
    (0, "set n 3 30 20", "18446744073709551615", "STORED"),
    (0, "incr n 2", "", "NUMBER 1"),
    (0, "get n", "", "HIT 3 1 2"),
    (0, "incr n 11", "", "NUMBER 12"),
    (0, "decr n 5", "", "NUMBER 7"),
    (0, "get n", "", "HIT 3 7 4"),
    (0, "decr n 9", "", "NUMBER 0"),
    (0, "get n", "", "HIT 3 0 5"),
    (30, "get n", "", "MISS"),
    (30, "set s 0 0 3", "12 ", "STORED"),
    (30, "incr s 1", "", "NUMBER 13"),
    (30, "set x 0 0 1", "x", "STORED"),
    (30, "incr x 1", "", "NOT_NUMERIC"),
    (30, "get x", "", "HIT 0 x 8"),
];

pub(crate) const DUES: [Row; 22] = [
    (1000, "set p 0 -1 1", "p", "STORED"),
    (1000, "set q 0 1 1", "q", "STORED"),
    (1000, "set r 0 2592000 1", "r", "STORED"),
    (1000, "set s 0 2592001 1", "s", "STORED"),
    (1000, "get p", "", "MISS"),
    (1000, "get q", "", "HIT 0 q 2"),
    (1001, "get q", "", "MISS"),
    (2_592_000, "get s", "", "HIT 0 s 4"),
    (2_592_001, "get s", "", "MISS"),
    (2_592_999, "get r", "", "HIT 0 r 3"),
    (2_592_999, "touch r 5", "", "TOUCHED"),
    (2_593_000, "get r", "", "HIT 0 r 3"),
    (2_593_003, "gat 2 r", "", "HIT 0 r 3"),
    (2_593_004, "get r", "", "HIT 0 r 3"),
    (2_593_005, "get r", "", "MISS"),
    (2_593_005, "touch r 0", "", "NOT_FOUND"),
    (2_593_005, "gat 0 r", "", "MISS"),
    (2_593_005, "set k 0 0 1", "x", "STORED"),
    (2_593_005, "gat -1 k k", "", "HIT 0 x 5"),
    (2_593_005, "get k", "", "MISS"),
    (2_593_005, "set k 0 9 1", "x", "STORED"),
    (1, "get k", "", "HIT 0 x 6"),
];

pub(crate) const FLUSHES: [Row; 19] = [
    (100, "set k 0 0 1", "a", "STORED"),
    (100, "flush_all 5", "", "OK"),
    (104, "get k", "", "HIT 0 a 1"),
    (105, "get k", "", "MISS"),
    (105, "set k 0 0 1", "b", "STORED"),
    (110, "get k", "", "HIT 0 b 2"),
    (110, "delete k", "", "DELETED"),
    (110, "delete k", "", "NOT_FOUND"),
    (110, "set k 0 0 1", "c", "STORED"),
    (110, "flush_all", "", "OK"),
    (110, "get k", "", "MISS"),
    (110, "flush_all 5", "", "OK"),
    (110, "flush_all", "", "OK"),
    (110, "set k 0 0 1", "d", "STORED"),
    (116, "get k", "", "HIT 0 d 4"),
    (116, "flush_all 5", "", "OK"),
    (117, "flush_all 9", "", "OK"),
    (125, "get k", "", "HIT 0 d 4"),
    (126, "get k", "", "MISS"),
];

/// For a cache whose storage commands store at most three bytes of data.
pub(crate) const SMALL: [Row; 9] = [
    (0, "set k 0 0 4", "abcd", "TOO_LARGE"),
    (0, "set k 0 0 3", "abc", "STORED"),
    (0, "append k 0 0 1", "d", "TOO_LARGE"),
    (0, "get k", "", "HIT 0 abc 1"),
    (0, "set n 0 0 1", "9", "STORED"),
    (0, "incr n 9999", "", "NUMBER 10008"),
    (0, "get n", "", "HIT 0 10008 3"),
    (0, "version", "", "VERSION"),
    (0, "verbosity 1", "", "OK"),
];

/// For a cache that has one cas number left.
pub(crate) const LAST_NUMBER: [Row; 9] = [
    (0, "set n 0 0 1", "1", "STORED"),
    (0, "get n", "", "HIT 0 1 18446744073709551615"),
    (0, "set n 0 0 1", "2", "CAS_WORN"),
    (0, "incr n 1", "", "CAS_WORN"),
    (0, "add n 0 0 1", "2", "NOT_STORED"),
    (0, "touch n 5", "", "TOUCHED"),
    (4, "get n", "", "HIT 0 1 18446744073709551615"),
    (5, "get n", "", "MISS"),
    (5, "incr n 1", "", "NOT_FOUND"),
];

/// Main has room for two items of 30,000 bytes.
pub(crate) const EVICTIONS: [Row; 14] = [
    (0, "set a 0 0 30000", "", "STORED"),
    (0, "set b 0 0 30000", "", "STORED"),
    (0, "set c 0 0 30000", "", "STORED"),
    (0, "set c 0 0 30000", "", "STORED"),
    (0, "touch b 0", "", "TOUCHED"),
    (0, "touch b 0", "", "TOUCHED"),
    (0, "touch b 0", "", "TOUCHED"),
    (0, "set a 0 0 30000", "", "STORED"),
    (0, "set d 0 0 30000", "", "STORED"),
    (0, "set a 0 0 30000", "", "STORED"),
    (0, "delete a", "", "DELETED"),
    (0, "delete b", "", "DELETED"),
    (0, "delete c", "", "NOT_FOUND"),
    (0, "delete d", "", "NOT_FOUND"),
];

/// The key c is looked up once before it is stored.
pub(crate) const MISSES: [Row; 6] = [
    (0, "set a 0 0 30000", "", "STORED"),
    (0, "set b 0 0 30000", "", "STORED"),
    (0, "get c", "", "MISS"),
    (0, "set c 0 0 30000", "", "STORED"),
    (0, "delete a", "", "NOT_FOUND"),
    (0, "delete c", "", "DELETED"),
];

/// The new item under a is already due when it is stored. Its 60,000 bytes and b do not fit
/// together.
pub(crate) const GONE_AT_ONCE: [Row; 5] = [
    (5, "set a 0 0 30000", "", "STORED"),
    (5, "set b 0 0 20000", "", "STORED"),
    (5, "set a 0 -1 60000", "", "STORED"),
    (5, "delete a", "", "NOT_FOUND"),
    (5, "delete b", "", "DELETED"),
];

/// The limit of main is 64,881 bytes: 64,816 of data, a key of one byte, and 64.
pub(crate) const HEAVIEST: [Row; 4] = [
    (0, "set k 0 0 64817", "", "TOO_LARGE"),
    (0, "delete k", "", "NOT_FOUND"),
    (0, "set k 0 0 64816", "", "STORED"),
    (0, "delete k", "", "DELETED"),
];

/// What `stats` shows after the commands of `COUNTED`, one second before the pending flush takes
/// effect.
pub(crate) const BEFORE_THE_FLUSH: Counters = Counters {
    curr_items: 1,
    total_items: 1,
    bytes: 68,
    cmd_get: 4,
    cmd_set: 3,
    cmd_flush: 1,
    cmd_touch: 2,
    get_hits: 2,
    get_misses: 2,
    delete_misses: 1,
    delete_hits: 0,
    incr_misses: 1,
    incr_hits: 0,
    decr_misses: 0,
    decr_hits: 0,
    cas_misses: 0,
    cas_hits: 0,
    cas_badval: 1,
    touch_hits: 1,
    touch_misses: 1,
    evictions: 0,
    limit_maxbytes: 65_536,
    item_size_max: 1_048_576,
    store_too_large: 0,
};

/// What `stats` shows once the flush has taken the only item.
pub(crate) const AFTER_THE_FLUSH: Counters = Counters {
    curr_items: 0,
    bytes: 0,
    ..BEFORE_THE_FLUSH
};

/// Hits and misses of several commands, a cas number that is not the item's, and a delayed flush.
pub(crate) const COUNTED: [Row; 8] = [
    (7, "set k 0 0 3", "abc", "STORED"),
    (7, "add k 0 0 3", "abc", "NOT_STORED"),
    (7, "get k z", "", "HIT 0 abc 1"),
    (7, "gat 0 k z", "", "HIT 0 abc 1"),
    (7, "cas k 0 0 1 9", "x", "EXISTS"),
    (7, "incr z 1", "", "NOT_FOUND"),
    (7, "delete z", "", "NOT_FOUND"),
    (7, "flush_all 9", "", "OK"),
];

/// An item that is due at second 105.
pub(crate) const DUE: [Row; 2] = [
    (100, "set k 0 5 1", "a", "STORED"),
    (100, "get k", "", "HIT 0 a 1"),
];

/// A cache that was advanced to second 105 has lost the item, even for a call at an earlier second.
pub(crate) const GONE: [Row; 1] = [(100, "get k", "", "MISS")];

/// Fills a cache before it is frozen.
pub(crate) const BEFORE: [Row; 3] = [
    (0, "set a 0 0 30000", "", "STORED"),
    (0, "set b 0 0 30000", "", "STORED"),
    (0, "touch b 0", "", "TOUCHED"),
];

/// Outcomes of the cache and of its frozen copy: c was seen no more often than a, so it is evicted.
pub(crate) const AFTER: [Row; 4] = [
    (0, "set c 0 0 30000", "", "STORED"),
    (0, "delete c", "", "NOT_FOUND"),
    (0, "delete a", "", "DELETED"),
    (0, "delete b", "", "DELETED"),
];
