//! The ring of waiting look-ups: filled, refused and emptied.

use std::process::Abort;
use std::test::Fail;
use tc_item::{Moment, Slot};
use tc_readbuf::{Full, LookUp, ReadBuf};

/// Returns the look-up of this number: a hit if it is even, a miss if it is odd.
fn noted(number: usize) -> LookUp {
    if number % 2 == 0 {
        LookUp::Hit(Slot(number), 7)
    } else {
        LookUp::Miss(number as u64)
    }
}

/// Notes 128 records, which fill the ring, and expects the next one to be refused.
fn expect_filled(rt: &impl Abort, waiting: &mut ReadBuf) {
    assert!(rt; waiting.is_empty() && waiting.take().is_none());
    for number in 0..128 {
        assert!(rt;
            waiting.note(noted(number), Moment::FIRST).is_ok(),
            "{number}"
        );
    }
    assert!(rt; waiting.is_full() && waiting.len() == 128);
    assert!(rt; waiting.note(noted(128), Moment::LAST) == Err(Full));
}

/// Takes all 128 records, in the order noted.
fn expect_emptied(rt: &impl Abort, waiting: &mut ReadBuf) {
    for number in 0..128 {
        let first = Some((noted(number), Moment::FIRST));
        assert!(rt; waiting.take() == first, "{number}");
    }
    assert!(rt; !waiting.is_full() && waiting.len() == 0);
}

/// Guards eviction: hits apply in the order of their `get`s, and none is lost when the ring is
/// full.
#[test]
fn records_are_taken_in_the_order_noted(rt: HostRuntime) -> Result<(), Fail> {
    let mut waiting = ReadBuf::new(rt.alloc())?;
    expect_filled(&rt, &mut waiting);
    expect_emptied(&rt, &mut waiting);
    Ok(())
}

/// Guards the text of `Full`, so that whoever reads it learns the limit.
#[test]
fn a_full_ring_says_how_many_wait(rt: HostRuntime) -> Result<(), Fail> {
    let text = format!(in rt.alloc(); "{Full}")?;
    assert!(rt; text.as_str() == "128 records wait already");
    Ok(())
}
