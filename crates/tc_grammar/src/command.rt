//! Commands: what a line asks a cache to do.
ghost use Rattle.std.specs.Prelude.{◌≡◌, IfOk};
ghost use Rattle.tc_grammar.specs.declared.command.Command.TheVariants.{Store, Get, Gat, Delete, Count, Touch};
ghost use Rattle.tc_grammar.specs.Outlines.{is_quiet};

use std::alloc::Global;
use tc_item::{Blob, Key, Keys, NoMemory};

/// The six storage commands.
#[derive(Clone, Copy, Debug, PartialEq, Eq)]
pub enum StoreKind {
    Set,
    Add,
    Replace,
    Append,
    Prepend,
    Cas,
}

/// Whether hits show their cas numbers: `gets` and `gats` do.
#[derive(Clone, Copy, Debug, PartialEq, Eq)]
pub enum Form {
    Bare,
    WithCas,
}

/// The direction of a count.
#[derive(Clone, Copy, Debug, PartialEq, Eq)]
pub enum Way {
    Incr,
    Decr,
}

/// A storage line without its block.
#[derive(Debug, PartialEq, Eq, Drop)]
pub struct Head {
    pub kind: StoreKind,
    pub key: Key,
    pub flags: u32,
    /// As on the line: -2^31 to 2^32 - 1 (`tc_item::exptime`).
    pub exptime: i64,
    /// The cas number that the line compares; 0 for all kinds but `cas`.
    pub cas_unique: u64,
    /// Whether the line has `noreply`.
    pub quiet: bool,
}

impl Head {
    /// Returns an equal head.
    pub fn copy(&self, alloc: Global) -> Result<Head, NoMemory>
        ensures { IfOk result (λ head. head ≡ self.now) }
    {
        let key = self.key.copy(alloc)?;
        Ok(Head {
            kind: self.kind,
            key,
            flags: self.flags,
            exptime: self.exptime,
            cas_unique: self.cas_unique,
            quiet: self.quiet,
        })
    }
}

/// A request for a cache, or for its connection (`Quit`). `quiet` means that the line has
/// `noreply`. An exptime is -2^31 to 2^32 - 1.
#[derive(Debug, PartialEq, Eq, Drop)]
pub enum Command {
    /// A storage line and its block.
    Store(Head, Blob),
    Get {
        form: Form,
        keys: Keys,
    },
    Gat {
        form: Form,
        exptime: i64,
        keys: Keys,
    },
    Delete {
        key: Key,
        quiet: bool,
    },
    Count {
        way: Way,
        key: Key,
        value: u64,
        quiet: bool,
    },
    Touch {
        key: Key,
        exptime: i64,
        quiet: bool,
    },
    /// A flush after `delay` seconds; 0 if the line names no delay.
    Flush {
        delay: u32,
        quiet: bool,
    },
    Stats,
    Version,
    Verbosity {
        level: u32,
        quiet: bool,
    },
    Quit,
}

/// Copies a storage command; the block is shared.
fn copy_store(alloc: Global, head: &Head, blob: &Blob) -> Result<Command, NoMemory>
    ensures { IfOk result (λ command. command ≡ Store head.now blob.now) }
{
    let blob = blob.copy()?;
    let head = head.copy(alloc)?;
    Ok(Command::Store(head, blob))
}

/// Copies a look-up.
fn copy_get(alloc: Global, form: Form, keys: &Keys) -> Result<Command, NoMemory>
    ensures { IfOk result (λ command. command ≡ Get form keys.now) }
{
    let keys = keys.copy(alloc)?;
    Ok(Command::Get { form, keys })
}

/// Copies a look-up with an exptime.
fn copy_gat(alloc: Global, form: Form, exptime: i64, keys: &Keys) -> Result<Command, NoMemory>
    ensures { IfOk result (λ command. command ≡ Gat form exptime keys.now) }
{
    let keys = keys.copy(alloc)?;
    Ok(Command::Gat {
        form,
        exptime,
        keys,
    })
}

/// Copies a deletion.
fn copy_delete(alloc: Global, key: &Key, quiet: bool) -> Result<Command, NoMemory>
    ensures { IfOk result (λ command. command ≡ Delete key.now quiet) }
{
    let key = key.copy(alloc)?;
    Ok(Command::Delete { key, quiet })
}

/// Copies a count.
fn copy_count(
    alloc: Global,
    way: Way,
    key: &Key,
    value: u64,
    quiet: bool,
) -> Result<Command, NoMemory>
    ensures { IfOk result (λ command. command ≡ Count way key.now value quiet) }
{
    let key = key.copy(alloc)?;
    Ok(Command::Count {
        way,
        key,
        value,
        quiet,
    })
}

/// Copies a touch.
fn copy_touch(alloc: Global, key: &Key, exptime: i64, quiet: bool) -> Result<Command, NoMemory>
    ensures { IfOk result (λ command. command ≡ Touch key.now exptime quiet) }
{
    let key = key.copy(alloc)?;
    Ok(Command::Touch {
        key,
        exptime,
        quiet,
    })
}

impl Command {
    /// Whether the line has `noreply`. A look-up never does.
    pub fn is_quiet(&self) -> bool
        ensures { result ≡ is_quiet self.now }
    {
        match self {
            Command::Store(head, _) => head.quiet,
            Command::Delete { quiet, .. } => *quiet,
            Command::Count { quiet, .. } => *quiet,
            Command::Touch { quiet, .. } => *quiet,
            Command::Flush { quiet, .. } => *quiet,
            Command::Verbosity { quiet, .. } => *quiet,
            Command::Get { .. }
            | Command::Gat { .. }
            | Command::Stats
            | Command::Version
            | Command::Quit => false,
        }
    }

    /// Returns an equal command. A block is shared, not copied.
    pub fn copy(&self, alloc: Global) -> Result<Command, NoMemory>
        ensures { IfOk result (λ command. command ≡ self.now) }
    {
        match self {
            Command::Store(head, blob) => copy_store(alloc, head, blob),
            Command::Get { form, keys } => copy_get(alloc, *form, keys),
            Command::Gat {
                form,
                exptime,
                keys,
            } => copy_gat(alloc, *form, *exptime, keys),
            Command::Delete { key, quiet } => copy_delete(alloc, key, *quiet),
            Command::Count {
                way,
                key,
                value,
                quiet,
            } => copy_count(alloc, *way, key, *value, *quiet),
            Command::Touch {
                key,
                exptime,
                quiet,
            } => copy_touch(alloc, key, *exptime, *quiet),
            Command::Flush { delay, quiet } => Ok(Command::Flush {
                delay: *delay,
                quiet: *quiet,
            }),
            Command::Stats => Ok(Command::Stats),
            Command::Version => Ok(Command::Version),
            Command::Verbosity { level, quiet } => Ok(Command::Verbosity {
                level: *level,
                quiet: *quiet,
            }),
            Command::Quit => Ok(Command::Quit),
        }
    }
}
