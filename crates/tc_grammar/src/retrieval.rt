//! `get`, `gets`, `gat` and `gats`.
ghost use Rattle.std.specs.Prelude.{◌≡◌, ◌∷◌, true, IfOk};
ghost use Rattle.tc_item.specs.KeyRule.{is_key};
ghost use Rattle.tc_grammar.specs.Lines.{IsAnswered, IsBounded, ready};
ghost use Rattle.tc_grammar.specs.Retrieval.{keys_of, get_of, gat_of};

use crate::command::{Command, Form};
use crate::line::{Line, refuse_format};
use crate::number::read_exptime;
use crate::tokens::Tokens;
use std::alloc::Global;
use tc_item::{Key, Keys, NoMemory};

/// What most keys take at least on a line, in bytes, with the space before them.
const USUAL_WORD: usize = 9;

/// Shrinks a list that has more than twice the room it needs.
fn fit(keys: &mut Vec<Key>)
    ensures { keys.new.items ≡ keys.old.items }
{
    if keys.capacity() / 2 > keys.len() {
        keys.shrink_to(0);
    }
}

/// Reads the keys behind a first one, up to the line's end. Returns `None` if a token is no key.
fn read_more_keys(alloc: Global, first: Key, mut tokens: Tokens) -> Result<Option<Keys>, NoMemory>
    requires { is_key first ≡ true }
    ensures { IfOk result (λ keys. keys ≡ keys_of (first ∷ tokens.entry)) }
{
    let mut keys = Vec::with_capacity(alloc, 1 + tokens.bytes_left() / USUAL_WORD)?;
    keys.push(first)?;
    while let Some(word) = tokens.next_word() {
        if !word.is_key {
            return Ok(None);
        }
        keys.push(Key::from_key_bytes(alloc, word.bytes)?)?;
    }
    fit(&mut keys);
    Ok(Some(Keys::from_vec(alloc, keys)?))
}

/// Reads one or more keys, up to the line's end; otherwise returns `None`. A single key takes no
/// list.
fn read_keys(alloc: Global, mut tokens: Tokens) -> Result<Option<Keys>, NoMemory>
    ensures { IfOk result (λ keys. keys ≡ keys_of tokens.entry) }
{
    let Some(first) = tokens.next_word() else {
        return Ok(None)
    };
    if !first.is_key {
        return Ok(None);
    }
    let key = Key::from_key_bytes(alloc, first.bytes)?;
    if tokens.is_at_end() {
        return Ok(Some(Keys::one(key)));
    }
    read_more_keys(alloc, key, tokens)
}

#[tactic(auto, unfolding(crate::specs::Retrieval::get_of))]
/// Reads the tokens after `get` or `gets`: one or more keys.
pub fn read_get(alloc: Global, form: Form, tokens: Tokens) -> Result<Line, NoMemory>
    ensures reading { IfOk result (λ line. line ≡ ready (get_of form tokens.entry)) }
    ensures bounded { IfOk result (IsBounded 0) }
    ensures answered { IfOk result IsAnswered }
{
    let Some(keys) = read_keys(alloc, tokens)? else {
        return Ok(refuse_format(0))
    };
    Ok(Line::Ready(Command::Get { form, keys }))
}

#[tactic(auto, unfolding(crate::specs::Retrieval::gat_of))]
/// Reads the tokens after `gat` or `gats`: an exptime and one or more keys.
pub fn read_gat(alloc: Global, form: Form, mut tokens: Tokens) -> Result<Line, NoMemory>
    ensures reading { IfOk result (λ line. line ≡ ready (gat_of form tokens.entry)) }
    ensures bounded { IfOk result (IsBounded 0) }
    ensures answered { IfOk result IsAnswered }
{
    let Some(exptime) = tokens.next() else {
        return Ok(refuse_format(0))
    };
    let Some(exptime) = read_exptime(exptime) else {
        return Ok(refuse_format(0))
    };
    let Some(keys) = read_keys(alloc, tokens)? else {
        return Ok(refuse_format(0))
    };
    Ok(Line::Ready(Command::Gat {
        form,
        exptime,
        keys,
    }))
}
