//! `flush_all`, `verbosity`, and the lines of a name alone.
ghost use Rattle.std.specs.Prelude.{◌≡◌};
ghost use Rattle.tc_grammar.specs.Ending.{ended};
ghost use Rattle.tc_grammar.specs.Lines.{ready};
ghost use Rattle.tc_grammar.specs.Unkeyed.{delayed, flush_of, verbosity_of};

use crate::command::Command;
use crate::ending::read_quiet;
use crate::line::{Line, ready};
use crate::number::read_u32;
use crate::tokens::Tokens;

/// Returns the command if the line ends here.
pub fn read_end(command: Command, mut tokens: Tokens) -> Option<Command>
    ensures { result ≡ ended command tokens.entry }
{
    match tokens.next() {
        None => Some(command),
        Some(_) => None,
    }
}

#[tactic(auto, unfolding(crate::specs::Unkeyed::delayed))]
fn read_delayed(delay: &[u8], rest: Tokens) -> Option<Command>
    ensures { result ≡ delayed delay.now rest.entry }
{
    let delay = read_u32(delay)?;
    let quiet = read_quiet(rest)?;
    Some(Command::Flush { delay, quiet })
}

#[tactic(auto, unfolding(crate::specs::Unkeyed::flush_of))]
/// Reads the tokens after `flush_all`: perhaps a delay in seconds, and an ending.
pub fn read_flush(mut tokens: Tokens) -> Option<Command>
    ensures { result ≡ flush_of tokens.entry }
{
    let Some(token) = tokens.next() else {
        return Some(Command::Flush {
            delay: 0,
            quiet: false,
        });
    };
    if token == b"noreply".as_slice() {
        let command = Command::Flush {
            delay: 0,
            quiet: true,
        };
        return read_end(command, tokens);
    }
    read_delayed(token, tokens)
}

#[tactic(auto, unfolding(crate::specs::Unkeyed::verbosity_of))]
/// Reads the tokens after `verbosity`: a level and an ending.
pub fn read_verbosity(mut tokens: Tokens) -> Option<Command>
    ensures { result ≡ verbosity_of tokens.entry }
{
    let level = read_u32(tokens.next()?)?;
    let quiet = read_quiet(tokens)?;
    Some(Command::Verbosity { level, quiet })
}

/// Reads a line whose name must be its only token.
pub fn read_lone_name(command: Command, tokens: Tokens) -> Line
    ensures { result ≡ ready (ended command tokens.entry) }
{
    ready(read_end(command, tokens))
}

/// Returns what the tokens after `flush_all` spell.
pub fn read_flush_line(tokens: Tokens) -> Line
    ensures { result ≡ ready (flush_of tokens.entry) }
{
    ready(read_flush(tokens))
}

/// Returns what the tokens after `verbosity` spell.
pub fn read_verbosity_line(tokens: Tokens) -> Line
    ensures { result ≡ ready (verbosity_of tokens.entry) }
{
    ready(read_verbosity(tokens))
}
