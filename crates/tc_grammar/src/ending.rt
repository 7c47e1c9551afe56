//! The end of a line: nothing more, or `noreply`.
ghost use Rattle.std.specs.Prelude.{◌≡◌, ◌∷◌};
ghost use Rattle.tc_grammar.specs.Ending.{quiet_of, without_zero};

use crate::tokens::Tokens;

/// Returns `Some(true)` if `token` is `noreply` and the last of its line, otherwise `None`.
#[tactic(auto, unfolding(crate::specs::Ending::quiet_of))]
fn is_quiet(token: &[u8], mut rest: Tokens) -> Option<bool>
    ensures { result ≡ quiet_of (token.now ∷ rest.entry) }
{
    if token != b"noreply".as_slice() {
        return None;
    }
    match rest.next() {
        None => Some(true),
        Some(_) => None,
    }
}

/// Reads the rest of a line: `Some(false)` if it is empty, `Some(true)` if it is `noreply` alone,
/// otherwise `None`.
#[tactic(auto, unfolding(crate::specs::Ending::quiet_of))]
pub fn read_quiet(mut tokens: Tokens) -> Option<bool>
    ensures { result ≡ quiet_of tokens.entry }
{
    match tokens.next() {
        None => Some(false),
        Some(token) => is_quiet(token, tokens),
    }
}

/// Reads the rest of a line as `read_quiet` does, but first skips one `0`, if it is there.
#[tactic(auto, unfolding(crate::specs::Ending::quiet_of, crate::specs::Ending::without_zero))]
pub fn read_quiet_after_zero(mut tokens: Tokens) -> Option<bool>
    ensures { result ≡ quiet_of (without_zero tokens.entry) }
{
    let Some(token) = tokens.next() else {
        return Some(false)
    };
    if token == b"0".as_slice() {
        return read_quiet(tokens);
    }
    is_quiet(token, tokens)
}
