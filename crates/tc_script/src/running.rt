//! Runs a script from a reader, and prints to a writer.
ghost use Rattle.std.specs.Prelude.{◌≡◌, IfSome, IfOk, IfErr, OnOk, OnErr};
ghost use Rattle.std.specs.Io.KnownBytes.{Appends};
ghost use Rattle.tc_script.specs.Plans.{reading_of};
ghost use Rattle.tc_script.specs.Refusing.{IsFaultOf};
ghost use Rattle.tc_script.specs.Answering.{ended_of, IsPrintOf, IsBegun, IsUnread, IsEndOf, IsUnwritten};

use crate::playing::play;
use crate::printing::print;
use crate::script::{Script, ScriptFault};
use std::alloc::Global;
use std::hash::RandomState;
use std::io::{self, ErrorKind, Read, Write};
use tc_kinds::Kind;

/// How the run of a script ended.
#[derive(Clone, Copy, Debug, PartialEq, Eq)]
pub enum Ended {
    /// The script ran, and all of its output is written.
    Done,
    /// This line, counted from 1, is the first refused one. Nothing ran or was written.
    BadLine(u64),
    /// Memory was refused. Nothing was written.
    NoMemory,
    /// Reading failed, and nothing was written; or writing failed, and only a front part of the
    /// output is written.
    Stream,
}

/// Returns how the run of a text that is no script ends.
fn ended_by(fault: ScriptFault) -> Ended
    ensures { result ≡ ended_of fault }
{
    match fault {
        ScriptFault::BadLine(number) => Ended::BadLine(number),
        ScriptFault::NoMemory => Ended::NoMemory,
    }
}

/// Reads all bytes that a reader has left.
fn read_all<R: Read>(alloc: Global, input: &mut R) -> Result<Vec<u8>, Ended>
    ensures text { IfOk result (λ text. IfSome (R.remaining input.old)
        (λ bytes. text.items ≡ bytes)) }
    ensures fault { IfErr result IsUnread }
{
    let mut text = Vec::new(alloc);
    match input.read_to_end(&mut text) {
        Ok(_) => Ok(text),
        Err(error) if error.kind() == ErrorKind::OutOfMemory => Err(Ended::NoMemory),
        Err(_) => Err(Ended::Stream),
    }
}

/// Runs a script, and returns what it prints.
fn run_text<C: Kind>(
    alloc: Global,
    hasher: RandomState,
    text: &[u8],
) -> Result<Vec<u8>, ScriptFault>
    ensures printed { IfOk result (λ printed. IsPrintOf text.now printed.items) }
    ensures fault { IfErr result (IsFaultOf (reading_of text.now)) }
{
    let script = Script::read(alloc, text)?;
    let outputs = play::<C>(alloc, hasher, script)?;
    Ok(print(alloc, &outputs)?)
}

/// Writes and flushes all bytes. If that fails, a front part of them is written.
fn write_out<W: Write>(out: &mut W, text: &[u8]) -> io::Result<()>
    ensures written { OnOk result (Appends (W.contents out.old) (W.contents out.new) text.now) }
    ensures begun { OnErr result (IsBegun text.now (W.contents out.old) (W.contents out.new)) }
{
    let mut rest = text;
    for _ in 0..u64::MAX {
        if rest.is_empty() {
            return out.flush();
        }
        match out.write(rest) {
            Ok(0) => return Err(ErrorKind::WriteZero.into()),
            Ok(n) => rest = &rest[n..],
            Err(error) if error.kind() == ErrorKind::Interrupted => {}
            Err(error) => return Err(error),
        }
    }
    Err(ErrorKind::Interrupted.into())
}

/// Reads a script, and runs it from the beginning on a server of its own, each user with a cache of
/// the kind. It writes a line for each opened connection, by rising number:
/// `conn <c> <open|closed> =<all bytes sent, escaped>`. The output is the same for each kind and
/// each hasher.
pub fn run_script<C: Kind, R: Read, W: Write>(
    alloc: Global,
    hasher: RandomState,
    input: &mut R,
    out: &mut W,
) -> Ended
    ensures ended { IfSome (R.remaining input.old)
        (λ text. IsEndOf text (W.contents out.old) (W.contents out.new) result) }
    ensures unwritten { IsUnwritten (W.contents out.old) (W.contents out.new) result }
{
    let text = match read_all(alloc, input) {
        Ok(text) => text,
        Err(ended) => return ended,
    };
    match run_text::<C>(alloc, hasher, &text) {
        Err(fault) => ended_by(fault),
        Ok(printed) => match write_out(out, &printed) {
            Ok(()) => Ended::Done,
            Err(_) => Ended::Stream,
        },
    }
}
