//! Counter text of `incr` and `decr`. Expected values are by hand from doc/protocol.txt.

use std::alloc::Global;
use std::test::Fail;
use tc_counter::{decr, incr, read, write_into};
use tc_item::NoMemory;

/// Texts that spell a number, and that number. Leading zeros and trailing spaces are allowed.
const SPELLED: [(&str, u64); 9] = [
    ("0", 0),
    ("00", 0),
    ("7", 7),
    ("0042", 42),
    ("1 ", 1),
    ("99      ", 99),
    ("00000000000000000001", 1),
    ("18446744073709551615", 18446744073709551615),
    ("18446744073709551615   ", 18446744073709551615),
];

/// Texts that spell no number: empty, over 20 digits, above 2^64 - 1, or with another byte.
const SPELLING_NOTHING: [&str; 19] = [
    "",
    " ",
    "18446744073709551616",
    "99999999999999999999",
    "000000000000000000001",
    "118446744073709551615",
    " 1",
    "1 2",
    "1  2 ",
    "+1",
    "-1",
    "1\t",
    "\t1",
    "1\r\n",
    "1.0",
    "0x1",
    "a",
    "1a",
    "/:",
];

/// Guards `incr` and `decr` on data that a client padded, or that is as large as a counter can be.
#[test]
fn counter_text_is_read_as_its_number(rt: HostRuntime) {
    for (text, number) in &SPELLED {
        assert!(rt; read(text.as_bytes()) == Some(*number), "{text:?}");
    }
}

/// Guards data that is no counter: `incr` must refuse it, not overwrite it.
#[test]
fn other_data_is_no_number(rt: HostRuntime) {
    for text in &SPELLING_NOTHING {
        assert!(rt; read(text.as_bytes()).is_none(), "{text:?}");
    }
}

/// Returns whether `number`, appended to `n=`, yields `wanted`.
fn is_written(alloc: Global, number: u64, wanted: &str) -> Result<bool, NoMemory> {
    let mut out = Vec::from_slice(alloc, b"n=")?;
    write_into(number, &mut out)?;
    Ok(out.as_slice() == wanted.as_bytes())
}

/// Guards the replies of `incr` and `decr`, which show the number alone.
#[test]
fn a_number_is_appended_without_padding(rt: HostRuntime) -> Result<(), Fail> {
    assert!(rt; is_written(rt.alloc(), 0, "n=0")?);
    assert!(rt; is_written(rt.alloc(), 1000, "n=1000")?);
    assert!(rt; is_written(rt.alloc(), 18446744073709551615, "n=18446744073709551615")?);
    Ok(())
}

/// Guards clients that rely on the protocol's wrap-around instead of a saturated counter.
#[test]
fn incr_wraps_at_two_to_the_64(rt: HostRuntime) {
    assert!(rt;
        incr(5, 7) == 12
            && incr(18446744073709551615, 1) == 0
            && incr(18446744073709551615, 18446744073709551615) == 18446744073709551614
    );
}

/// Guards clients that rely on the protocol's floor: no `decr` wraps to a huge number.
#[test]
fn decr_stops_at_zero(rt: HostRuntime) {
    assert!(rt; decr(12, 7) == 5 && decr(7, 7) == 0 && decr(3, 7) == 0);
}
