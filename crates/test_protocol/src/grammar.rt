//! Tests of what no clause says of lines: a table made by hand, exact texts, and each call with
//! memory to spare. A line that is refused memory is read again.

mod table;

use crate::fixtures::{command, expect_number, expect_text};
use std::alloc::{AllocError, Global};
use std::process::Abort;
use std::test::Fail;
use table::{
    AT_A_MEBIBYTE, COPIED, COUNTERS, FAULTS, KEYED, LONG_KEY, NAMES, REFUSED_STORAGE, RETRIEVAL,
    STORAGE, UNKEYED,
};
use tc_grammar::{Command, Fault, Line, each_line_spells_one_thing, parse_line};
use tc_item::NoMemory;

/// Returns what a line spells. Reads it once more if memory was refused.
fn said(alloc: Global, line: &str, block_limit: u32) -> Result<Line, NoMemory> {
    match parse_line(alloc, line.as_bytes(), block_limit) {
        Ok(line) => Ok(line),
        Err(NoMemory) => parse_line(alloc, line.as_bytes(), block_limit),
    }
}

/// Returns what a line spells, as text.
fn text_of(alloc: Global, line: &Line) -> Result<String, AllocError> {
    format!(in alloc; "{line:?}")
}

/// Reads a line, and returns what it spells as text.
fn shown(alloc: Global, line: &str, block_limit: u32) -> Result<String, AllocError> {
    match said(alloc, line, block_limit) {
        Ok(said) => text_of(alloc, &said),
        Err(NoMemory) => String::from_str(alloc, "out of memory"),
    }
}

/// Expects a line to spell `want`.
fn expect_line(
    rt: &(impl AllocGlobal + Abort),
    line: &str,
    block_limit: u32,
    want: &str,
) -> Result<(), Fail> {
    let shown = shown(rt.alloc(), line, block_limit)?;
    expect_text(rt, shown.as_str(), want, line);
    Ok(())
}

/// Expects each line of a table to spell what the table says.
fn expect_lines(
    rt: &(impl AllocGlobal + Abort),
    block_limit: u32,
    rows: &[(&str, &str)],
) -> Result<(), Fail> {
    for (line, want) in rows {
        expect_line(rt, line, block_limit, want)?;
    }
    Ok(())
}

/// Guards clients against a misspelt command that does something, such as one in upper case.
#[test]
fn each_name_of_the_table_is_read(rt: HostRuntime) -> Result<(), Fail> {
    each_line_spells_one_thing();
    expect_lines(&rt, 256, &NAMES)
}

/// Guards look-ups: all keys of a line must be read, with spaces and bytes as the protocol allows.
#[test]
fn each_retrieval_line_of_the_table_is_read(rt: HostRuntime) -> Result<(), Fail> {
    expect_lines(&rt, 256, &RETRIEVAL)
}

/// Guards stored flags, lifetimes and lengths at the ends of their ranges.
#[test]
fn each_storage_line_of_the_table_is_read(rt: HostRuntime) -> Result<(), Fail> {
    expect_lines(&rt, 256, &STORAGE)
}

/// Guards the stream after a bad `set`: its block must be skipped, not run as commands.
#[test]
fn each_refused_storage_line_of_the_table_is_read(rt: HostRuntime) -> Result<(), Fail> {
    expect_lines(&rt, 256, &REFUSED_STORAGE)
}

/// Guards counters against a bad delta, and gives the client the protocol's own message for it.
#[test]
fn each_counter_line_of_the_table_is_read(rt: HostRuntime) -> Result<(), Fail> {
    expect_lines(&rt, 256, &COUNTERS)
}

/// Guards old clients that send `delete KEY 0`, and refuses deletes with another time.
#[test]
fn each_delete_and_touch_of_the_table_is_read(rt: HostRuntime) -> Result<(), Fail> {
    expect_lines(&rt, 256, &KEYED)
}

/// Guards a cache against a malformed `flush_all`, which must flush nothing.
#[test]
fn each_line_without_a_key_of_the_table_is_read(rt: HostRuntime) -> Result<(), Fail> {
    expect_lines(&rt, 256, &UNKEYED)
}

/// Guards the limit of a key: a longer one must be refused, not cut.
#[test]
fn a_key_of_251_bytes_is_of_no_form(rt: HostRuntime) -> Result<(), Fail> {
    expect_lines(&rt, 256, &LONG_KEY)
}

/// Guards the limit of items: a block of exactly the limit is read, and one byte more is refused.
#[test]
fn the_limit_of_a_block_is_the_one_handed_in(rt: HostRuntime) -> Result<(), Fail> {
    expect_lines(&rt, 1_048_576, &AT_A_MEBIBYTE)
}

/// Returns whether a copy of a command equals it. Returns false if memory is refused.
fn equals_its_copy(alloc: Global, command: &Command) -> bool {
    match command.copy(alloc) {
        Ok(copied) => copied == *command,
        Err(NoMemory) => false,
    }
}

/// Expects a copy of a stream's first command to equal it.
fn expect_copy(rt: &(impl AllocGlobal + Abort), stream: &str) -> Result<(), Fail> {
    match command(rt.alloc(), stream) {
        Ok(command) => assert!(rt; equals_its_copy(rt.alloc(), &command), "{stream}"),
        Err(fail) => return Err(fail),
    }
    Ok(())
}

/// Expects a copy of each stream's first command to equal it.
fn expect_copies(rt: &(impl AllocGlobal + Abort), streams: &[&str]) -> Result<(), Fail> {
    for stream in streams {
        expect_copy(rt, stream)?;
    }
    Ok(())
}

/// Guards the audit's journal: a kept command must be the one that the client sent.
#[test]
fn a_copy_of_a_command_equals_it(rt: HostRuntime) -> Result<(), Fail> {
    expect_copies(&rt, &COPIED)
}

/// Expects these numbers and texts of faults.
fn expect_faults(rt: &impl Abort, rows: &[(Fault, u64, &str)]) {
    for (fault, number, text) in rows {
        expect_number(rt, u64::from(fault.number()), *number, text);
        expect_text(rt, fault.text(), text, text);
    }
}

/// Guards clients that match error lines byte for byte.
#[test]
fn each_fault_has_its_number_and_its_text(rt: HostRuntime) {
    expect_faults(&rt, &FAULTS);
}
