//! User rows that no text of settings can contain: bytes that are not UTF-8, numbers that TOML
//! cannot hold, and faults that need all memory or a long text. examples/settings.rows has the
//! others.

use crate::fixtures::{expect_number, expect_text, row};
use std::alloc::{AllocError, Global};
use std::process::Abort;
use std::test::Fail;
use tc_users::{Field, SettingsFault, Text, TextFault, UserSpec, Users};

/// Expects this fault, or none.
fn expect_fault(rt: &impl Abort, got: Option<SettingsFault>, want: Option<SettingsFault>) {
    assert!(rt; got == want, "{got:?}");
}

/// Returns the fault of a table with this row alone, or none.
fn row_fault(alloc: Global, row: UserSpec) -> Result<Option<SettingsFault>, Fail> {
    let mut rows = Vec::new(alloc);
    rows.push(row)?;
    Ok(Users::build(rows).err())
}

/// Returns the fault of a row with this name and this token, or none.
fn text_fault(alloc: Global, name: &[u8], token: &[u8]) -> Result<Option<SettingsFault>, Fail> {
    row_fault(alloc, row(alloc, name, token)?)
}

/// Bytes that a name may not have.
const NOT_IN_NAMES: [u8; 14] = [0, 32, 43, 44, 47, 58, 64, 91, 94, 96, 123, 127, 128, 255];

/// Bytes that a token may not have.
const NOT_IN_TOKENS: [u8; 5] = [0, 32, 127, 128, 255];

/// Expects a byte at the end of a name, or of a token, to be refused with its place.
fn expect_bad_byte(rt: &(impl AllocGlobal + Abort), in_name: bool, byte: u8) -> Result<(), Fail> {
    let fault = TextFault::BadByte { place: 2, byte };
    if in_name {
        let got = text_fault(rt.alloc(), &[b'Z', b'_', byte], b"t")?;
        expect_fault(rt, got, Some(SettingsFault::BadName { user: 1, fault }));
    } else {
        let got = text_fault(rt.alloc(), b"a-.9", &[33, 126, byte])?;
        let field = Field::Token(1);
        expect_fault(rt, got, Some(SettingsFault::BadToken { field, fault }));
    }
    Ok(())
}

/// Expects each byte to be refused at the end of a name, or of a token.
fn expect_bad_bytes(
    rt: &(impl AllocGlobal + Abort),
    in_name: bool,
    bytes: &[u8],
) -> Result<(), Fail> {
    for byte in bytes {
        expect_bad_byte(rt, in_name, *byte)?;
    }
    Ok(())
}

/// Guards the message by which an operator finds the bad byte in a name or a token.
#[test]
fn a_byte_outside_a_name_or_a_token_is_shown_with_its_place(rt: HostRuntime) -> Result<(), Fail> {
    expect_bad_bytes(&rt, true, &NOT_IN_NAMES)?;
    expect_bad_bytes(&rt, false, &NOT_IN_TOKENS)
}

/// Returns alice's row with two faults: her second token equals her first, and her largest item has
/// 0 bytes.
fn same_tokens(alloc: Global) -> Result<UserSpec, Fail> {
    let mut alice = row(alloc, b"alice", b"one")?;
    alice.second = Some(Text::copy(alloc, b"one")?);
    alice.largest = 0;
    Ok(alice)
}

/// Returns alice's row with a budget of 2^64 - 1 bytes.
fn largest_budget(alloc: Global) -> Result<UserSpec, Fail> {
    let mut alice = row(alloc, b"alice", b"one")?;
    alice.budget = u64::MAX;
    Ok(alice)
}

/// Guards start-up: a table with a bad row is refused, and the operator reads its first fault.
#[test]
fn rows_are_refused_by_their_first_fault(rt: HostRuntime) -> Result<(), Fail> {
    let want = SettingsFault::SameToken { user: 1 };
    expect_fault(
        &rt,
        row_fault(rt.alloc(), same_tokens(rt.alloc())?)?,
        Some(want),
    );
    let found = 18_446_744_073_709_551_615;
    let want = SettingsFault::BudgetRange { user: 1, found };
    expect_fault(
        &rt,
        row_fault(rt.alloc(), largest_budget(rt.alloc())?)?,
        Some(want),
    );
    Ok(())
}

/// Returns a fault's text.
fn words(alloc: Global, fault: SettingsFault) -> Result<String, AllocError> {
    format!(in alloc; "{fault}")
}

/// A fault, its number and its text.
type Told = (SettingsFault, u64, &'static str);

/// Faults that no short text of settings can cause.
const OF_NO_TEXT: [Told; 2] = [
    (SettingsFault::NoMemory, 9, "out of memory"),
    (
        SettingsFault::TooManyUsers {
            found: 4_294_967_296,
        },
        13,
        "there are 4294967296 users; wanted: at most 4294967295",
    ),
];

/// Expects the number and the text of each fault.
fn expect_told(rt: &(impl AllocGlobal + Abort), rows: &[Told]) -> Result<(), Fail> {
    for (fault, number, want) in rows {
        expect_number(rt, u64::from(fault.number()), *number, want);
        expect_text(rt, words(rt.alloc(), *fault)?.as_str(), want, want);
    }
    Ok(())
}

/// Guards the messages and numbers of faults that an operator meets only on a huge or starved
/// machine.
#[test]
fn want_of_memory_and_too_many_users_are_told(rt: HostRuntime) -> Result<(), Fail> {
    expect_told(&rt, &OF_NO_TEXT)
}
