//! The lines of `set`, `add`, `replace`, `append`, `prepend` and `cas`.
ghost use Rattle.std.specs.Prelude.{◌≡◌, IfOk};
ghost use Rattle.tc_item.specs.KeyRule.{is_key};
ghost use Rattle.tc_grammar.specs.Lines.{IsAnswered, IsBounded};
ghost use Rattle.tc_grammar.specs.Storage.{ending_of, head_of, storage_line};

use crate::command::{Head, StoreKind};
use crate::ending::read_quiet;
use crate::fault::Fault;
use crate::line::{Line, refuse_format};
use crate::number::{read_exptime, read_number, read_u32};
use crate::tokens::{Tokens, Word};
use std::alloc::Global;
use tc_item::{Key, NoMemory};

/// The greatest length that a line may announce for its block, in bytes.
pub(crate) const LONGEST_BLOCK: u64 = (1 << 31) - 1;

/// Reads what follows the block's length: for `cas` a number, and the ending. Returns the number,
/// or 0, and whether the line is quiet.
#[tactic(auto, unfolding(crate::specs::Storage::ending_of))]
pub(crate) fn read_ending(kind: StoreKind, mut tokens: Tokens) -> Option<(u64, bool)>
    ensures { result ≡ ending_of kind tokens.entry }
{
    match kind {
        StoreKind::Cas => {
            let unique = read_number(tokens.next()?, u64::MAX)?;
            Some((unique, read_quiet(tokens)?))
        }
        _ => Some((0, read_quiet(tokens)?)),
    }
}

/// Reads all of a storage line but its length; `None` if it has the wrong form.
#[tactic(auto, unfolding(crate::specs::Storage::head_of))]
fn read_head(
    alloc: Global,
    kind: StoreKind,
    key: &Word,
    flags: &[u8],
    exptime: &[u8],
    rest: Tokens,
) -> Result<Option<Head>, NoMemory>
    requires { key.now.is_key ≡ is_key key.now.bytes.now }
    ensures { IfOk result (λ h. h ≡ head_of kind key.now.bytes.now flags.now exptime.now rest.entry) }
{
    if !key.is_key {
        return Ok(None);
    }
    let Some(flags) = read_u32(flags) else {
        return Ok(None)
    };
    let Some(exptime) = read_exptime(exptime) else {
        return Ok(None)
    };
    let Some((cas_unique, quiet)) = read_ending(kind, rest) else {
        return Ok(None)
    };
    let key = Key::from_key_bytes(alloc, key.bytes)?;
    Ok(Some(Head {
        kind,
        key,
        flags,
        exptime,
        cas_unique,
        quiet,
    }))
}

/// Reads the tokens after a storage command's name. A wrong form that names a length skips the
/// block and its line end, and so does a block of more than `block_limit` bytes, which is
/// `TooLarge`.
#[tactic(auto, unfolding(crate::specs::Storage::storage_line))]
pub fn read_storage_line(
    alloc: Global,
    kind: StoreKind,
    mut tokens: Tokens,
    block_limit: u32,
) -> Result<Line, NoMemory>
    ensures reading { IfOk result (λ line. line ≡ storage_line block_limit kind tokens.entry) }
    ensures bounded { IfOk result (IsBounded block_limit) }
    ensures answered { IfOk result IsAnswered }
{
    let Some(key) = tokens.next_word() else {
        return Ok(refuse_format(0))
    };
    let Some(flags) = tokens.next() else {
        return Ok(refuse_format(0))
    };
    let Some(exptime) = tokens.next() else {
        return Ok(refuse_format(0))
    };
    let Some(bytes) = tokens.next() else {
        return Ok(refuse_format(0))
    };
    let Some(length) = read_number(bytes, LONGEST_BLOCK) else {
        return Ok(refuse_format(0))
    };
    let length = length as u32;
    let Some(head) = read_head(alloc, kind, &key, flags, exptime, tokens)? else {
        return Ok(refuse_format(length + 2));
    };
    if length > block_limit {
        return Ok(Line::Refused {
            fault: Fault::TooLarge,
            quiet: head.quiet,
            skip: length + 2,
        });
    }
    Ok(Line::NeedsBlock(head, length))
}
