//! Commands, most of them on the key `k`, and checks of their outcomes.
use std::alloc::Global;
use std::test::Fail;
use tc_grammar::{Command, Form, Head, StoreKind, Way};
use tc_item::{Blob, Key, Keys};
use tc_stats::Outcome;

fn key(alloc: Global) -> Result<Key, Fail> {
    Ok(Key::new(alloc, b"k")?)
}

/// Returns a storage command with flags 7.
fn store(
    alloc: Global,
    kind: StoreKind,
    key: Key,
    exptime: i64,
    data: &[u8],
) -> Result<Command, Fail> {
    let head = Head {
        kind,
        key,
        flags: 7,
        exptime,
        cas_unique: 0,
        quiet: false,
    };
    let blob = Blob::new(alloc, Vec::from_slice(alloc, data)?)?;
    Ok(Command::Store(head, blob))
}

/// Returns a `set` of `k` that is never due.
pub fn set(alloc: Global, data: &[u8]) -> Result<Command, Fail> {
    store(alloc, StoreKind::Set, key(alloc)?, 0, data)
}

/// Returns a `set` of another key, with this exptime.
pub fn set_of(alloc: Global, key: &[u8], exptime: i64, data: &[u8]) -> Result<Command, Fail> {
    store(alloc, StoreKind::Set, Key::new(alloc, key)?, exptime, data)
}

/// Returns an `append` to `k`.
pub fn append(alloc: Global, data: &[u8]) -> Result<Command, Fail> {
    store(alloc, StoreKind::Append, key(alloc)?, 0, data)
}

/// Returns a `get` or `gets` of `k`.
pub fn look_up(alloc: Global, form: Form) -> Result<Command, Fail> {
    let keys = Keys::one(key(alloc)?);
    Ok(Command::Get { form, keys })
}

/// Returns a `get` of `k`.
pub fn get(alloc: Global) -> Result<Command, Fail> {
    look_up(alloc, Form::Bare)
}

/// Returns a `get` of another key.
pub fn get_of(alloc: Global, key: &[u8]) -> Result<Command, Fail> {
    Ok(Command::Get {
        form: Form::Bare,
        keys: Keys::one(Key::new(alloc, key)?),
    })
}

/// Returns a `touch` of another key, with this exptime.
pub fn touch_of(alloc: Global, key: &[u8], exptime: i64) -> Result<Command, Fail> {
    Ok(Command::Touch {
        key: Key::new(alloc, key)?,
        exptime,
        quiet: false,
    })
}

/// Returns a `flush_all` without delay.
pub fn flush() -> Command {
    Command::Flush {
        delay: 0,
        quiet: false,
    }
}

/// Returns an `incr` of `k`.
pub fn incr(alloc: Global, value: u64) -> Result<Command, Fail> {
    Ok(Command::Count {
        way: Way::Incr,
        key: key(alloc)?,
        value,
        quiet: false,
    })
}

/// Returns whether an outcome is one hit with this data and flags 7.
pub fn shows(outcome: &Outcome, data: &[u8]) -> bool {
    let Outcome::Values(hits) = outcome else {
        return false;
    };
    match hits.as_slice() {
        [hit] => hit.blob.as_slice() == data && hit.flags == 7,
        _ => false,
    }
}

/// Returns whether an outcome is a look-up that found nothing.
pub fn shows_nothing(outcome: &Outcome) -> bool {
    match outcome {
        Outcome::Values(hits) => hits.is_empty(),
        _ => false,
    }
}
