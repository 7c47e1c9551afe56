//! The resident memory of a server, by its users' budgets and the size of their items. docs/OPERATING.md, "Sizing",
//! says the rule in words. bench/sizing.py compares it with what servers with full budgets take.

/// The bytes of a MiB.
pub(crate) const MIB: u64 = 1_048_576;

/// What an item's record weighs in a budget, in bytes. Its key and its data weigh as many as they have.
const RECORD_WEIGHT: u64 = 64;

/// What an item takes in its partition's tables, in bytes: its record, its place in the index, and its links in lists
/// and wheel.
const IN_TABLES: Memory = Memory {
    likely: 144,
    at_most: 160,
};

/// The longest key that lies in its record, in bytes. A longer one has a block of its own.
const LONGEST_IN_RECORD: u64 = 22;

/// What a key with a block of its own takes beside the block, in bytes.
const BESIDE_KEY: Memory = Memory {
    likely: 14,
    at_most: 14,
};

/// What a block of up to 232 bytes takes beside those that it has room for, in bytes.
const BESIDE_ROOM: u64 = 24;

/// What a larger block takes beside the bytes in it.
const BESIDE_LARGE: u64 = 56;

/// What a block takes at most beside the bytes in it: up to 232 bytes, from 233 on, and from `MAPPED` on.
const MOST_BESIDE_SMALL: u64 = 88;

const MOST_BESIDE_LARGE: u64 = 72;

const MOST_BESIDE_MAPPED: u64 = 4_168;

/// The least bytes of a block that the C library may map by itself, in whole pages.
const MAPPED: u64 = 131_072;

/// The largest budget, in bytes.
const LARGEST_BUDGET: u64 = 1_073_741_824;

/// A sketch takes one part in so many of the next power of two from its budget.
const SKETCH_OF: u64 = 100;

/// What an empty server takes without its users.
pub(crate) const EMPTY_SERVER: Memory = Memory {
    likely: 3 * MIB,
    at_most: 6 * MIB,
};

/// What a user takes before it stores anything, without its sketch and its index, in bytes.
const EACH_USER: u64 = 131_072;

/// What a shard of the index takes before it has an item, in bytes. There is one for each MiB of a budget, and 256 at
/// most.
const EACH_SHARD: u64 = 450;

const MOST_SHARDS: u64 = 256;

/// How large the items of full budgets are.
#[derive(Clone, Copy)]
pub struct ItemSize {
    /// The bytes of a key: 1 to 250.
    pub key: u64,
    /// The bytes of an item's data: 0 to 1,048,576.
    pub data: u64,
}

/// Resident memory, in bytes.
#[derive(Clone, Copy)]
pub(crate) struct Memory {
    pub likely: u64,
    /// The same with tables that have just grown, and sizes that leave the most room in their blocks unused.
    pub at_most: u64,
}

impl Memory {
    /// No memory.
    const NONE: Memory = Memory {
        likely: 0,
        at_most: 0,
    };

    /// The same memory in either case.
    fn fixed(bytes: u64) -> Memory {
        Memory {
            likely: bytes,
            at_most: bytes,
        }
    }

    /// The sum of two, 2^64 - 1 bytes at most.
    pub(crate) fn and(self, other: Memory) -> Memory {
        Memory {
            likely: self.likely.saturating_add(other.likely),
            at_most: self.at_most.saturating_add(other.at_most),
        }
    }

    /// So many times this, 2^64 - 1 bytes at most.
    fn times(self, count: u64) -> Memory {
        Memory {
            likely: self.likely.saturating_mul(count),
            at_most: self.at_most.saturating_mul(count),
        }
    }
}

/// How many items of this size a budget holds. The budget is in bytes.
pub(crate) fn items_of(budget: u64, size: ItemSize) -> u64 {
    let weight = size
        .key
        .saturating_add(size.data)
        .saturating_add(RECORD_WEIGHT);
    budget / weight.max(1)
}

/// The bytes of the block of memory that so many bytes of a key or of data have.
fn likely_block(bytes: u64) -> u64 {
    match bytes {
        0..=8 => 8 + BESIDE_ROOM,
        9..=40 => 40 + BESIDE_ROOM,
        41..=72 => 72 + BESIDE_ROOM,
        73..=104 => 104 + BESIDE_ROOM,
        105..=168 => 168 + BESIDE_ROOM,
        169..=232 => 232 + BESIDE_ROOM,
        _ => bytes.saturating_add(BESIDE_LARGE),
    }
}

/// The most bytes of such a block.
fn largest_block(bytes: u64) -> u64 {
    let beside = match bytes {
        0..=232 => MOST_BESIDE_SMALL,
        233..MAPPED => MOST_BESIDE_LARGE,
        _ => MOST_BESIDE_MAPPED,
    };
    bytes.saturating_add(beside)
}

/// The block of so many bytes of a key or of data.
fn block(bytes: u64) -> Memory {
    Memory {
        likely: likely_block(bytes),
        at_most: largest_block(bytes),
    }
}

/// What a key of so many bytes takes outside its item's record.
fn key_block(bytes: u64) -> Memory {
    if bytes <= LONGEST_IN_RECORD {
        Memory::NONE
    } else {
        block(bytes).and(BESIDE_KEY)
    }
}

/// What an item of this size takes.
fn item(size: ItemSize) -> Memory {
    IN_TABLES.and(key_block(size.key)).and(block(size.data))
}

/// The bytes of the sketch for a budget of bytes.
fn sketch(budget: u64) -> u64 {
    budget.min(LARGEST_BUDGET).next_power_of_two() / SKETCH_OF
}

/// The bytes of an index without items for a budget of bytes.
fn empty_index(budget: u64) -> u64 {
    (budget / MIB).min(MOST_SHARDS).saturating_mul(EACH_SHARD)
}

/// What a user takes whose budget, in bytes, is full of items of this size.
pub(crate) fn full_user(budget: u64, size: ItemSize) -> Memory {
    let items = item(size).times(items_of(budget, size));
    let empty = sketch(budget).saturating_add(empty_index(budget));
    items.and(Memory::fixed(empty.saturating_add(EACH_USER)))
}
