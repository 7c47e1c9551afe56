//! Reads a line without keeping its keys, and without memory.
ghost use Rattle.std.specs.Prelude.{◌≡◌, None, Some, IsTrue, false, option_map};
ghost use Rattle.tc_grammar.specs.Counting.{count_line};
ghost use Rattle.tc_grammar.specs.Keyed.{delete_of, touch_of};
ghost use Rattle.tc_grammar.specs.Lines.{ready, bad_format, unknown};
ghost use Rattle.tc_grammar.specs.Outlines.{is_quiet, outline_of, outline_of_command};
ghost use Rattle.tc_grammar.specs.Reading.{reading, said_by};
ghost use Rattle.tc_grammar.specs.Retrieval.{keys_of, get_of, gat_of};
ghost use Rattle.tc_grammar.specs.Storage.{head_of, storage_line};

use crate::command::{Command, Form, StoreKind, Way};
use crate::ending::{read_quiet, read_quiet_after_zero};
use crate::fault::Fault;
use crate::number::{read_exptime, read_number, read_u32};
use crate::storage_line::{LONGEST_BLOCK, read_ending};
use crate::tokens::Tokens;
use crate::unkeyed::{read_end, read_flush, read_verbosity};
use crate::verb::{Verb, verb_named};
use tc_item::is_key;

/// What it takes to pass a line over: whether it gets a reply, and how many bytes belong to it. It
/// lacks which command it is, its keys and its numbers.
#[derive(Clone, Copy, PartialEq, Eq)]
pub enum Outline {
    /// A whole command other than `quit`. It gets no reply if `quiet`.
    Command {
        quiet: bool,
    },
    /// `quit`, which ends the connection.
    Quit,
    /// A storage line. A block of `length` bytes and a line end follow it. It gets no reply if
    /// `quiet`.
    NeedsBlock {
        quiet: bool,
        length: u32,
    },
    /// A fault. It gets no reply if `quiet`. The reader skips `skip` bytes behind the line.
    Refused {
        fault: Fault,
        quiet: bool,
        skip: u32,
    },
}

/// Returns the fault of a line of the wrong form, with the bytes to skip behind it.
fn bad_format(skip: u32) -> Outline
    ensures { result ≡ outline_of (bad_format skip) }
{
    Outline::Refused {
        fault: Fault::BadFormat,
        quiet: false,
        skip,
    }
}

/// Returns the outline of a command, or a bad format if there is none.
fn outline_command(command: Option<Command>) -> Outline
    ensures { result ≡ outline_of (ready command) }
{
    match command {
        None => bad_format(0),
        Some(Command::Quit) => Outline::Quit,
        Some(command) => Outline::Command {
            quiet: command.is_quiet(),
        },
    }
}

/// Checks all of a storage line but its length. Returns whether it is quiet, or `None` if it has
/// the wrong form.
#[tactic(auto, unfolding(crate::specs::Storage::head_of))]
fn read_head_quiet(
    kind: StoreKind,
    key: &[u8],
    flags: &[u8],
    exptime: &[u8],
    rest: Tokens,
) -> Option<bool>
    ensures { result ≡ option_map (λ head. head.quiet) (head_of kind key.now flags.now exptime.now rest.entry) }
{
    if !is_key(key) {
        return None;
    }
    read_u32(flags)?;
    read_exptime(exptime)?;
    let (_, quiet) = read_ending(kind, rest)?;
    Some(quiet)
}

/// Outlines the tokens after a storage command's name.
#[tactic(auto, unfolding(crate::specs::Storage::storage_line))]
fn outline_storage(kind: StoreKind, mut tokens: Tokens, block_limit: u32) -> Outline
    ensures { result ≡ outline_of (storage_line block_limit kind tokens.entry) }
{
    let Some(key) = tokens.next() else {
        return bad_format(0)
    };
    let Some(flags) = tokens.next() else {
        return bad_format(0)
    };
    let Some(exptime) = tokens.next() else {
        return bad_format(0)
    };
    let Some(bytes) = tokens.next() else {
        return bad_format(0)
    };
    let Some(length) = read_number(bytes, LONGEST_BLOCK) else {
        return bad_format(0)
    };
    let length = length as u32;
    let Some(quiet) = read_head_quiet(kind, key, flags, exptime, tokens) else {
        return bad_format(length + 2);
    };
    if length > block_limit {
        return Outline::Refused {
            fault: Fault::TooLarge,
            quiet,
            skip: length + 2,
        };
    }
    Outline::NeedsBlock { quiet, length }
}

/// Outlines the tokens after `incr` or `decr`.
#[tactic(auto, unfolding(crate::specs::Counting::count_line))]
fn outline_count(way: Way, mut tokens: Tokens) -> Outline
    ensures { result ≡ outline_of (count_line way tokens.entry) }
{
    let Some(key) = tokens.next() else {
        return bad_format(0)
    };
    let Some(value) = tokens.next() else {
        return bad_format(0)
    };
    if !is_key(key) {
        return bad_format(0);
    }
    let Some(quiet) = read_quiet(tokens) else {
        return bad_format(0)
    };
    let Some(_) = read_number(value, u64::MAX) else {
        return Outline::Refused {
            fault: Fault::BadDelta,
            quiet: false,
            skip: 0,
        };
    };
    Outline::Command { quiet }
}

/// Whether all tokens are keys, and there is at least one.
fn are_keys(mut tokens: Tokens) -> bool
    ensures keys { IsTrue result → keys_of tokens.entry ≡ Some tokens.entry }
    ensures none { result ≡ false → keys_of tokens.entry ≡ None }
{
    let Some(first) = tokens.next() else {
        return false
    };
    if !is_key(first) {
        return false;
    }
    while let Some(token) = tokens.next() {
        if !is_key(token) {
            return false;
        }
    }
    true
}

/// Outlines the tokens after `get` or `gets`.
#[tactic(auto, unfolding(crate::specs::Retrieval::get_of))]
fn outline_get(form: Form, tokens: Tokens) -> Outline
    ensures { result ≡ outline_of (ready (get_of form tokens.entry)) }
{
    if are_keys(tokens) {
        Outline::Command { quiet: false }
    } else {
        bad_format(0)
    }
}

/// Outlines the tokens after `gat` or `gats`.
#[tactic(auto, unfolding(crate::specs::Retrieval::gat_of))]
fn outline_gat(form: Form, mut tokens: Tokens) -> Outline
    ensures { result ≡ outline_of (ready (gat_of form tokens.entry)) }
{
    let Some(exptime) = tokens.next() else {
        return bad_format(0)
    };
    let Some(_) = read_exptime(exptime) else {
        return bad_format(0)
    };
    if are_keys(tokens) {
        Outline::Command { quiet: false }
    } else {
        bad_format(0)
    }
}

/// Outlines the tokens after `delete`.
#[tactic(auto, unfolding(crate::specs::Keyed::delete_of))]
fn outline_delete(mut tokens: Tokens) -> Outline
    ensures { result ≡ outline_of (ready (delete_of tokens.entry)) }
{
    let Some(key) = tokens.next() else {
        return bad_format(0)
    };
    if !is_key(key) {
        return bad_format(0);
    }
    let Some(quiet) = read_quiet_after_zero(tokens) else {
        return bad_format(0)
    };
    Outline::Command { quiet }
}

/// Outlines the tokens after `touch`.
#[tactic(auto, unfolding(crate::specs::Keyed::touch_of))]
fn outline_touch(mut tokens: Tokens) -> Outline
    ensures { result ≡ outline_of (ready (touch_of tokens.entry)) }
{
    let Some(key) = tokens.next() else {
        return bad_format(0)
    };
    let Some(exptime) = tokens.next() else {
        return bad_format(0)
    };
    if !is_key(key) {
        return bad_format(0);
    }
    let Some(_) = read_exptime(exptime) else {
        return bad_format(0)
    };
    let Some(quiet) = read_quiet(tokens) else {
        return bad_format(0)
    };
    Outline::Command { quiet }
}

/// Outlines the tokens after a name.
fn outline_args(verb: Verb, tokens: Tokens, block_limit: u32) -> Outline
    ensures { result ≡ outline_of (said_by block_limit (Some verb) tokens.entry) }
{
    match verb {
        Verb::Store(kind) => outline_storage(kind, tokens, block_limit),
        Verb::Count(way) => outline_count(way, tokens),
        Verb::Get(form) => outline_get(form, tokens),
        Verb::Gat(form) => outline_gat(form, tokens),
        Verb::Delete => outline_delete(tokens),
        Verb::Touch => outline_touch(tokens),
        Verb::FlushAll => outline_command(read_flush(tokens)),
        Verb::Stats => outline_command(read_end(Command::Stats, tokens)),
        Verb::Version => outline_command(read_end(Command::Version, tokens)),
        Verb::Verbosity => outline_command(read_verbosity(tokens)),
        Verb::Quit => outline_command(read_end(Command::Quit, tokens)),
    }
}

/// Returns the fault of a name that no command has.
fn unknown() -> Outline
    ensures { result ≡ outline_of unknown }
{
    Outline::Refused {
        fault: Fault::UnknownCommand,
        quiet: false,
        skip: 0,
    }
}

/// Returns the outline of what `parse_line` reads from the same line and limit, and takes no
/// memory. The line comes without its end, and `block_limit` is in bytes.
pub fn outline_line(line: &[u8], block_limit: u32) -> Outline
    ensures { result ≡ outline_of (reading block_limit line.now) }
{
    let mut tokens = Tokens::new(line);
    let Some(name) = tokens.next() else {
        return unknown()
    };
    let Some(verb) = verb_named(name) else {
        return unknown()
    };
    outline_args(verb, tokens, block_limit)
}
