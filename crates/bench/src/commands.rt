//! Commands for measuring: keys of 16 bytes and data of 100 bytes.

use crate::fault::Fault;
use std::alloc::Global;
use tc_grammar::{Command, Form, Head, StoreKind};
use tc_item::{Blob, Key, Keys, NoMemory};

/// The bytes of each item's data.
const DATA: usize = 100;

/// The second at which all items are due. All that is timed happens before it.
const DUE: u64 = 60;

/// A prime, so that its multiples reach each place of a span once.
const STRIDE: u64 = 2_654_435_761;

/// The numbers of `count` items, from `first` on.
#[derive(Clone, Copy)]
pub(crate) struct Span {
    pub(crate) first: u32,
    pub(crate) count: u32,
}

impl Span {
    /// Returns the number at a place, in an order that looks random.
    fn number(self, place: u32) -> u32 {
        let stirred = u64::from(place).wrapping_mul(STRIDE);
        let offset = stirred.checked_rem(u64::from(self.count)).unwrap_or(0);
        let offset = u32::try_from(offset).unwrap_or(0);
        self.first.wrapping_add(offset)
    }
}

/// What a command does with its key.
#[derive(Clone, Copy)]
pub(crate) enum Ask<'a> {
    Get,
    /// A `set` of this data.
    Set(&'a Blob),
    Delete,
}

/// Returns the key of an item, 16 bytes long.
fn key(alloc: Global, number: u32) -> Result<Key, Fault> {
    let text = format!(in alloc; "user:{number:011}")?;
    Ok(Key::new(alloc, text.as_bytes())?)
}

/// Returns an item's data, shared with no other item.
pub(crate) fn data(alloc: Global) -> Result<Blob, NoMemory> {
    let bytes = vec![in alloc; b'x'; DATA]?;
    Blob::new(alloc, bytes)
}

/// Returns a `set` with flags 0, which is due at `DUE`.
fn set(key: Key, blob: Blob) -> Command {
    let head = Head {
        kind: StoreKind::Set,
        key,
        flags: 0,
        exptime: DUE as i64,
        cas_unique: 0,
        quiet: false,
    };
    Command::Store(head, blob)
}

/// Returns the command on the item of this number.
fn command(alloc: Global, ask: Ask, number: u32) -> Result<Command, Fault> {
    let key = key(alloc, number)?;
    match ask {
        Ask::Get => Ok(Command::Get {
            form: Form::Bare,
            keys: Keys::one(key),
        }),
        Ask::Set(data) => Ok(set(key, data.copy()?)),
        Ask::Delete => Ok(Command::Delete { key, quiet: false }),
    }
}

/// Returns a `set` of an item with data of its own.
pub(crate) fn item(alloc: Global, number: u32) -> Result<Command, Fault> {
    let data = data(alloc)?;
    command(alloc, Ask::Set(&data), number)
}

/// Returns one command for each item of a span, in an order that looks random.
pub(crate) fn commands(alloc: Global, ask: Ask, span: Span) -> Result<Vec<Command>, Fault> {
    let mut commands = Vec::new(alloc);
    for place in 0..span.count {
        let command = command(alloc, ask, span.number(place))?;
        commands.push(command)?;
    }
    Ok(commands)
}

/// Returns one `get` of `count` items of a span, from place `first` on.
fn get_from(alloc: Global, span: Span, first: u32, count: u32) -> Result<Command, Fault> {
    let mut keys = Keys::new();
    for nth in 0..count {
        let key = key(alloc, span.number(first.wrapping_add(nth)))?;
        keys.push(alloc, key)?;
    }
    Ok(Command::Get {
        form: Form::Bare,
        keys,
    })
}

/// Returns `get`s of `each` keys each, which name the items of a span in an order that looks
/// random.
pub(crate) fn many_gets(alloc: Global, span: Span, each: u32) -> Result<Vec<Command>, Fault> {
    let mut gets = Vec::new(alloc);
    for nth in 0..span.count / each.max(1) {
        let get = get_from(alloc, span, nth.wrapping_mul(each), each)?;
        gets.push(get)?;
    }
    Ok(gets)
}
