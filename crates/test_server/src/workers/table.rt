//! Streams and their replies, and wires that fail or take nothing.
use super::wires::{Cut, Ending, Plan};

/// Logs alice in, and looks up `k`.
const ASKING: &[u8] = b"set a 0 0 9\r\nalice one\r\ngets k\r\n";

/// The replies if `k` holds nothing.
const NOTHING: &[u8] = b"STORED\r\nEND\r\n";

/// Looks up `k`, and ends.
pub const ASKS: Plan = Plan {
    sends: ASKING,
    cut: Cut::At(0),
    ending: Ending::Ends,
    expects: NOTHING,
};

/// Logs alice in, stores three bytes under `k`, gets their cas number, and stores others by it.
const STORES_BY_NUMBER: &[u8] =
    b"set a 0 0 9\r\nalice one\r\nset k 5 0 3\r\nabc\r\ngets k\r\ncas k 5 0 3 1\r\nxyz\r\n";

/// Logs alice in on a second connection, which keeps pace with the first byte by byte. In both,
/// `gets` ends at byte 50 and `cas` at byte 70. The second looks `k` up once more.
const CONTENDS: &[u8] = b"set a 0 0 9\r\nalice one\r\ndelete q noreply\r\n\
    gets k\r\ncas k 5 0 3 1\r\nuvw\r\ngets k\r\n";

/// The replies to the first stream's login and `set`.
const TWICE_STORED: &[u8] = b"STORED\r\nSTORED\r\n";

/// The replies to the first stream up to its `gets`.
const SHOWN: &[u8] = b"STORED\r\nSTORED\r\nVALUE k 5 3 1\r\nabc\r\nEND\r\n";

/// All replies to the first stream.
const ALL: &[u8] = b"STORED\r\nSTORED\r\nVALUE k 5 3 1\r\nabc\r\nEND\r\nSTORED\r\n";

/// The replies to the first stream if its `cas` is too late.
const LATE: &[u8] = b"STORED\r\nSTORED\r\nVALUE k 5 3 1\r\nabc\r\nEND\r\nEXISTS\r\n";

/// The replies to the second stream if it finds nothing.
const MISSES: &[u8] = b"STORED\r\nEND\r\nNOT_FOUND\r\nEND\r\n";

/// The replies to the second stream if its `cas` comes first.
const WINS: &[u8] = b"STORED\r\nVALUE k 5 3 1\r\nabc\r\nEND\r\n\
    STORED\r\nVALUE k 5 3 2\r\nuvw\r\nEND\r\n";

/// The replies to the second stream if its `cas` comes after the first stream's.
const LOSES: &[u8] = b"STORED\r\nVALUE k 5 3 1\r\nabc\r\nEND\r\n\
    EXISTS\r\nVALUE k 5 3 2\r\nxyz\r\nEND\r\n";

/// What goes wrong with a wire.
enum Deed {
    FailsToRead,
    FailsToWrite,
    /// It takes 0 bytes, two times.
    TakesNothing,
}

/// Two streams in the same turns, a byte a turn, with a mishap on the first one's wire.
pub struct Mishap {
    deed: Deed,
    /// The first and the last read or write at which the mishap is tried, each in a hall of its
    /// own.
    pub from: u64,
    pub to: u64,
    /// What the first stream is sent.
    expects: &'static [u8],
    /// What the second stream is sent.
    other: &'static [u8],
}

/// Failed reads. The login is whole at byte 24, the `set` at 42, the `gets` at 50 and the `cas` at
/// 70.
pub const READS: &[Mishap] = &[
    Mishap {
        deed: Deed::FailsToRead,
        from: 1,
        to: 24,
        expects: b"",
        other: MISSES,
    },
    Mishap {
        deed: Deed::FailsToRead,
        from: 25,
        to: 42,
        expects: b"STORED\r\n",
        other: MISSES,
    },
    Mishap {
        deed: Deed::FailsToRead,
        from: 43,
        to: 50,
        expects: TWICE_STORED,
        other: WINS,
    },
    Mishap {
        deed: Deed::FailsToRead,
        from: 51,
        to: 70,
        expects: SHOWN,
        other: WINS,
    },
    Mishap {
        deed: Deed::FailsToRead,
        from: 71,
        to: 71,
        expects: ALL,
        other: LOSES,
    },
];

/// Failed writes. Each reply is one write.
pub const WRITES: &[Mishap] = &[
    Mishap {
        deed: Deed::FailsToWrite,
        from: 1,
        to: 1,
        expects: b"",
        other: MISSES,
    },
    Mishap {
        deed: Deed::FailsToWrite,
        from: 2,
        to: 2,
        expects: b"STORED\r\n",
        other: WINS,
    },
    Mishap {
        deed: Deed::FailsToWrite,
        from: 3,
        to: 3,
        expects: TWICE_STORED,
        other: WINS,
    },
    Mishap {
        deed: Deed::FailsToWrite,
        from: 4,
        to: 4,
        expects: SHOWN,
        other: LOSES,
    },
];

/// Writes that take nothing. The wire takes the reply two turns later, so it reads all that follows
/// two turns later.
pub const EMPTY_WRITES: &[Mishap] = &[
    Mishap {
        deed: Deed::TakesNothing,
        from: 1,
        to: 3,
        expects: LATE,
        other: WINS,
    },
    Mishap {
        deed: Deed::TakesNothing,
        from: 4,
        to: 4,
        expects: ALL,
        other: LOSES,
    },
];

impl Mishap {
    /// Returns the first stream's plan, with the mishap at the read or write of this number.
    pub fn storing(&self, n: u64) -> Plan {
        let ending = match self.deed {
            Deed::FailsToRead => Ending::FailsAtRead(n),
            Deed::FailsToWrite => Ending::FailsAtWrite(n),
            Deed::TakesNothing => Ending::TakesNothingAt(n),
        };
        Plan {
            sends: STORES_BY_NUMBER,
            cut: Cut::Bytes,
            ending,
            expects: self.expects,
        }
    }

    /// Returns the second stream's plan.
    pub fn contending(&self) -> Plan {
        Plan {
            sends: CONTENDS,
            cut: Cut::Bytes,
            ending: Ending::Ends,
            expects: self.other,
        }
    }
}

/// Looks up `k`, and stays with nothing more to say.
pub const RESTS: Plan = Plan {
    sends: ASKING,
    cut: Cut::At(0),
    ending: Ending::Rests,
    expects: NOTHING,
};

/// Stores one byte under `k`.
pub const STORES: Plan = Plan {
    sends: b"set a 0 0 9\r\nalice one\r\nset k 0 0 1\r\na\r\n",
    cut: Cut::At(0),
    ending: Ending::Ends,
    expects: b"STORED\r\nSTORED\r\n",
};

/// Appends one byte to `k`, and looks up both.
pub const APPENDS: Plan = Plan {
    sends: b"set a 0 0 9\r\nalice one\r\nappend k 0 0 1\r\nb\r\nget k\r\n",
    cut: Cut::At(0),
    ending: Ending::Ends,
    expects: b"STORED\r\nSTORED\r\nVALUE k 0 2\r\nab\r\nEND\r\n",
};

/// Stays, and never says anything.
pub const SILENT: Plan = Plan {
    sends: b"",
    cut: Cut::At(0),
    ending: Ending::Stays,
    expects: b"",
};

/// Alice's connection, whose first call a gate holds.
pub const HELD: Plan = Plan {
    sends: b"set a 0 0 9\r\nalice one\r\nset k 0 0 1\r\na\r\nget k\r\n",
    cut: Cut::At(0),
    ending: Ending::Ends,
    expects: b"STORED\r\nSTORED\r\nVALUE k 0 1\r\na\r\nEND\r\n",
};

/// Bob's connection, which must be served meanwhile.
pub const PASSES: Plan = Plan {
    sends: b"set a 0 0 7\r\nbob one\r\nset k 0 0 1\r\nb\r\n",
    cut: Cut::At(0),
    ending: Ending::Ends,
    expects: b"STORED\r\nSTORED\r\n",
};

/// A login and a hundred quiet commands.
pub const COUNTED: Plan = Plan {
    sends: b"set a 0 0 9\r\nalice one\r\n\
        delete k noreply\r\ndelete k noreply\r\ndelete k noreply\r\ndelete k noreply\r\n\
        delete k noreply\r\ndelete k noreply\r\ndelete k noreply\r\ndelete k noreply\r\n\
        delete k noreply\r\ndelete k noreply\r\ndelete k noreply\r\ndelete k noreply\r\n\
        delete k noreply\r\ndelete k noreply\r\ndelete k noreply\r\ndelete k noreply\r\n\
        delete k noreply\r\ndelete k noreply\r\ndelete k noreply\r\ndelete k noreply\r\n\
        delete k noreply\r\ndelete k noreply\r\ndelete k noreply\r\ndelete k noreply\r\n\
        delete k noreply\r\ndelete k noreply\r\ndelete k noreply\r\ndelete k noreply\r\n\
        delete k noreply\r\ndelete k noreply\r\ndelete k noreply\r\ndelete k noreply\r\n\
        delete k noreply\r\ndelete k noreply\r\ndelete k noreply\r\ndelete k noreply\r\n\
        delete k noreply\r\ndelete k noreply\r\ndelete k noreply\r\ndelete k noreply\r\n\
        delete k noreply\r\ndelete k noreply\r\ndelete k noreply\r\ndelete k noreply\r\n\
        delete k noreply\r\ndelete k noreply\r\ndelete k noreply\r\ndelete k noreply\r\n\
        delete k noreply\r\ndelete k noreply\r\ndelete k noreply\r\ndelete k noreply\r\n\
        delete k noreply\r\ndelete k noreply\r\ndelete k noreply\r\ndelete k noreply\r\n\
        delete k noreply\r\ndelete k noreply\r\ndelete k noreply\r\ndelete k noreply\r\n\
        delete k noreply\r\ndelete k noreply\r\ndelete k noreply\r\ndelete k noreply\r\n\
        delete k noreply\r\ndelete k noreply\r\ndelete k noreply\r\ndelete k noreply\r\n\
        delete k noreply\r\ndelete k noreply\r\ndelete k noreply\r\ndelete k noreply\r\n\
        delete k noreply\r\ndelete k noreply\r\ndelete k noreply\r\ndelete k noreply\r\n\
        delete k noreply\r\ndelete k noreply\r\ndelete k noreply\r\ndelete k noreply\r\n\
        delete k noreply\r\ndelete k noreply\r\ndelete k noreply\r\ndelete k noreply\r\n\
        delete k noreply\r\ndelete k noreply\r\ndelete k noreply\r\ndelete k noreply\r\n\
        delete k noreply\r\ndelete k noreply\r\ndelete k noreply\r\ndelete k noreply\r\n\
        delete k noreply\r\ndelete k noreply\r\ndelete k noreply\r\ndelete k noreply\r\n\
        delete k noreply\r\ndelete k noreply\r\ndelete k noreply\r\ndelete k noreply\r\n",
    cut: Cut::At(0),
    ending: Ending::Ends,
    expects: b"STORED\r\n",
};
