//! Which outcomes a command can have, and the text of its reply. `values.rt` has VALUE lines and
//! rows of counters. These functions write to an `Output`, and know no connection.
ghost use Rattle.std.specs.Prelude.{◌≡◌, ◌≤◌, ◌+◌, ◌++◌, true, false, codes, IsOk, OnOk, OnErr};
ghost use Rattle.tc_session.specs.SessionView.{reply_room};
ghost use Rattle.tc_session.specs.Texts.{fault_line, line_end};
ghost use Rattle.tc_session.specs.Replies.{is_refusal, is_store_end, can_end, form_of, reply_of, render, is_long};
ghost use Rattle.tc_stats.specs.StatsRows.{version_text};

use crate::output::Output;
use tc_grammar::{Command, Fault, Form, StoreKind};
use tc_item::NoMemory;
use tc_stats::{Outcome, VERSION};

/// Whether a storage command of this kind refuses with this outcome because of what its key holds.
fn is_refusal(kind: StoreKind, outcome: &Outcome) -> bool
    ensures { result ≡ is_refusal kind outcome.now }
{
    match kind {
        StoreKind::Set => false,
        StoreKind::Cas => matches!(outcome, Outcome::NotFound | Outcome::Exists),
        StoreKind::Add | StoreKind::Replace | StoreKind::Append | StoreKind::Prepend => {
            matches!(outcome, Outcome::NotStored)
        }
    }
}

/// Whether a storage command of any kind can have this outcome.
fn is_store_end(outcome: &Outcome) -> bool
    ensures { result ≡ is_store_end outcome.now }
{
    matches!(
        outcome,
        Outcome::Stored | Outcome::TooLarge | Outcome::CasWorn
    )
}

/// Whether the command can have this outcome. A cache returns no other; a caller that makes
/// outcomes by hand may check.
pub fn can_end(command: &Command, outcome: &Outcome) -> bool
    ensures { result ≡ can_end command.now outcome.now }
{
    match command {
        Command::Store(head, _) => is_store_end(outcome) || is_refusal(head.kind, outcome),
        Command::Get { .. } | Command::Gat { .. } => matches!(outcome, Outcome::Values(_)),
        Command::Delete { .. } => matches!(outcome, Outcome::Deleted | Outcome::NotFound),
        Command::Count { .. } => matches!(
            outcome,
            Outcome::Number(_) | Outcome::NotFound | Outcome::NotNumeric | Outcome::CasWorn
        ),
        Command::Touch { .. } => matches!(outcome, Outcome::Touched | Outcome::NotFound),
        Command::Flush { .. } | Command::Verbosity { .. } => matches!(outcome, Outcome::Done),
        Command::Version => matches!(outcome, Outcome::Version),
        Command::Stats => matches!(outcome, Outcome::Stats(_)),
        Command::Quit => false,
    }
}

/// Whether the command's VALUE lines show cas numbers.
pub(crate) fn form_of(command: &Command) -> Form
    ensures { result ≡ form_of command.now }
{
    match command {
        Command::Get { form, .. } => *form,
        Command::Gat { form, .. } => *form,
        _ => Form::Bare,
    }
}

/// Appends a fault's line.
pub(crate) fn write_fault(out: &mut Output, fault: Fault)
    requires { reply_room ≤ out.old.room }
    ensures bytes { out.new.bytes ≡ out.old.bytes ++ fault_line fault }
    ensures room { out.old.room ≤ out.new.room + reply_room }
{
    out.write(fault.text().as_bytes());
    out.write(b"\r\n");
}

/// Appends the line with the server's version.
pub(crate) fn write_version(out: &mut Output)
    requires { reply_room ≤ out.old.room }
    ensures { out.new.bytes
        ≡ out.old.bytes ++ (codes "VERSION " ++ (version_text ++ line_end)) }
{
    out.write(b"VERSION ");
    out.write(VERSION.as_bytes());
    out.write(b"\r\n");
}

/// Appends the reply to an outcome. If memory is refused, nothing changes.
fn write_outcome(out: &mut Output, form: Form, outcome: &Outcome) -> Result<(), NoMemory>
    requires { reply_room ≤ out.old.room }
    ensures bytes { OnOk result (out.new.bytes ≡ out.old.bytes ++ reply_of form outcome.now) }
    ensures unchanged_on_err { OnErr result (out.new.bytes ≡ out.old.bytes) }
    ensures room_on_err { OnErr result (out.old.room ≤ out.new.room) }
    ensures short { is_long outcome.now ≡ false → IsOk result }
{
    match outcome {
        Outcome::Stored => out.write(b"STORED\r\n"),
        Outcome::NotStored => out.write(b"NOT_STORED\r\n"),
        Outcome::Exists => out.write(b"EXISTS\r\n"),
        Outcome::NotFound => out.write(b"NOT_FOUND\r\n"),
        Outcome::Deleted => out.write(b"DELETED\r\n"),
        Outcome::Touched => out.write(b"TOUCHED\r\n"),
        Outcome::Number(number) => {
            out.write_number(*number);
            out.write(b"\r\n");
        }
        Outcome::Values(hits) => return out.write_values(form, hits.as_slice()),
        Outcome::Done => out.write(b"OK\r\n"),
        Outcome::Stats(statistics) => return out.write_stats(statistics.counters()),
        Outcome::Version => write_version(out),
        Outcome::TooLarge => write_fault(out, Fault::TooLarge),
        Outcome::NotNumeric => write_fault(out, Fault::NotNumeric),
        Outcome::CasWorn => write_fault(out, Fault::CasWorn),
    }
    Ok(())
}

/// Appends the reply to a command, unless its line has `noreply`. If memory is refused, nothing
/// changes.
pub(crate) fn write_reply(
    out: &mut Output,
    command: &Command,
    outcome: &Outcome,
) -> Result<(), NoMemory>
    requires room { reply_room ≤ out.old.room }
    requires can_end { can_end command.now outcome.now ≡ true }
    ensures bytes { OnOk result (out.new.bytes ≡ out.old.bytes ++ render command.now outcome.now) }
    ensures unchanged_on_err { OnErr result (out.new.bytes ≡ out.old.bytes) }
    ensures room_on_err { OnErr result (out.old.room ≤ out.new.room) }
    ensures short { is_long outcome.now ≡ false → IsOk result }
{
    if command.is_quiet() {
        return Ok(());
    }
    write_outcome(out, form_of(command), outcome)
}
