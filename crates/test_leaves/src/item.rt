//! Tests of what no clause says of keys, lists of keys, blobs and moments: outside examples, exact
//! texts, and each call with memory to spare. If an allocation is refused, a test ends in an error
//! or expects that nothing changed.

use std::alloc::{AllocError, Global};
use std::collections::HashMap;
use std::test::Fail;
use tc_item::exptime::due;
use tc_item::{
    Blob, Due, Item, KeptDue, Key, KeyFault, Keys, Moment, NoMemory, alive, is_key, key_run, weight,
};

/// Returns the moment of this second, or the last moment if there is none.
fn at(second: u64) -> Moment {
    Moment::try_new(second).unwrap_or(Moment::LAST)
}

fn key_of(alloc: Global, text: &str) -> Result<Key, KeyFault> {
    Key::new(alloc, text.as_bytes())
}

/// Returns whether `bytes` are a key that keeps them, if `wanted` is `None`, or have the fault
/// `wanted`.
fn is_judged(alloc: Global, bytes: &[u8], wanted: Option<KeyFault>) -> bool {
    match Key::new(alloc, bytes) {
        Ok(key) => wanted.is_none() && is_key(bytes) && key.as_bytes() == bytes,
        Err(fault) => wanted == Some(fault) && !is_key(bytes),
    }
}

/// Returns the same for one byte, repeated this many times.
fn is_judged_over(
    alloc: Global,
    byte: u8,
    times: usize,
    wanted: Option<KeyFault>,
) -> Result<bool, AllocError> {
    let bytes = vec![in alloc; byte; times]?;
    Ok(is_judged(alloc, &bytes, wanted))
}

/// Guards the protocol's limit: a client's key of 250 bytes works, and a longer one is refused.
#[test]
fn a_key_has_1_to_250_bytes(rt: HostRuntime) -> Result<(), Fail> {
    assert!(rt; is_judged(rt.alloc(), b"", Some(KeyFault::Empty)));
    for times in &[1, 22, 23, 250] {
        assert!(rt;
            is_judged_over(rt.alloc(), b'k', *times, None)?,
            "{times} bytes"
        );
    }
    assert!(rt; is_judged_over(rt.alloc(), b'k', 251, Some(KeyFault::TooLong))?);
    Ok(())
}

/// Guards keys in UTF-8 and other encodings, and refuses the bytes that would break a line.
#[test]
fn a_key_has_any_bytes_but_0_to_32_and_127(rt: HostRuntime) {
    for bad in &[0, 9, 10, 13, 31, 32, 127] {
        let fault = Some(KeyFault::BadByte);
        assert!(rt;
            is_judged(rt.alloc(), &[b'a', *bad, b'z'], fault),
            "byte {bad}"
        );
    }
    for good in &[33, 48, 126, 128, 160, 255] {
        assert!(rt;
            is_judged(rt.alloc(), &[b'a', *good, b'z'], None),
            "byte {good}"
        );
    }
}

/// Guards the order of faults: a key with both faults reports its length.
#[test]
fn a_long_key_is_too_long_before_it_has_a_bad_byte(rt: HostRuntime) -> Result<(), Fail> {
    assert!(rt; is_judged_over(rt.alloc(), b' ', 251, Some(KeyFault::TooLong))?);
    assert!(rt; is_judged_over(rt.alloc(), b' ', 250, Some(KeyFault::BadByte))?);
    Ok(())
}

/// Bytes, and the number of bytes before the first that a key may not have. The code compares
/// sixteen bytes together, so the lengths lie around multiples of sixteen.
const RUNS: [(&[u8], usize); 10] = [
    (b"", 0),
    (b" ", 0),
    (b"key\r", 3),
    (b"0123456789abcde f", 15),
    (b"0123456789abcdef", 16),
    (b"0123456789abcdef g", 16),
    (b"0123456789abcdef0123\x7f0123456789abcdef", 20),
    (b"0123456789abcdef0123456789abcde\x00", 31),
    (b"0123456789abcdef0123456789abcdef012 ", 35),
    (b"\x21\x7e\x80\xff\x20", 4),
];

/// Guards parsing: a bad byte must end the key wherever it lies in a block of sixteen.
#[test]
fn a_run_of_key_bytes_ends_before_the_first_other(rt: HostRuntime) {
    for (bytes, wanted) in &RUNS {
        assert!(rt; key_run(bytes) == *wanted, "{bytes:?}");
    }
}

/// A moment in seconds, an exptime, and the due that the exptime means at that moment.
const EXPTIMES: [(u64, i64, Due); 8] = [
    (1_000, i64::MIN, Due::At(1_000)),
    (1_000, -1, Due::At(1_000)),
    (1_000, 0, Due::Never),
    (1_000, 1, Due::At(1_001)),
    (1_000, 2_592_000, Due::At(2_593_000)),
    (1_000, 2_592_001, Due::At(2_592_001)),
    (1_000, 4_294_967_295, Due::At(4_294_967_295)),
    (1_099_511_627_775, 2_592_000, Due::At(1_099_514_219_775)),
];

/// Guards lifetimes: up to 30 days an exptime is relative, above it is absolute, below 0 it is
/// over.
#[test]
fn an_exptime_is_read_as_the_protocol_says(rt: HostRuntime) {
    for (second, exptime, wanted) in &EXPTIMES {
        assert!(rt; due(*exptime, at(*second)) == *wanted, "exptime {exptime}");
    }
}

/// Returns whether an item with this due is alive at this second.
fn lives(alloc: Global, due: Due, second: u64) -> Result<bool, NoMemory> {
    let blob = Blob::new(alloc, Vec::new(alloc))?;
    let item = Item {
        flags: 5,
        due: KeptDue::new(due),
        cas: 1,
        blob,
    };
    Ok(alive(&item, at(second)))
}

/// Guards look-ups: an expired item must not be served, and a living one must be.
#[test]
fn an_item_is_alive_until_the_second_of_its_due(rt: HostRuntime) -> Result<(), Fail> {
    assert!(rt; lives(rt.alloc(), Due::At(1_001), 0)?);
    assert!(rt; lives(rt.alloc(), Due::At(1_001), 1_000)?);
    assert!(rt; !lives(rt.alloc(), Due::At(1_001), 1_001)?);
    assert!(rt; lives(rt.alloc(), Due::Never, 1_099_511_627_775)?);
    assert!(rt; !lives(rt.alloc(), Due::At(0), 0)?);
    Ok(())
}

/// Returns the weight in bytes of an item with a key of one byte and this many bytes of data.
fn weight_of(alloc: Global, data: u32) -> Result<u64, KeyFault> {
    let key = key_of(alloc, "k")?;
    Ok(weight(&key, data))
}

/// Guards the documented weight, key and data and 64 bytes, by which operators size budgets.
#[test]
fn a_key_of_one_byte_and_one_byte_of_data_weigh_66(rt: HostRuntime) -> Result<(), Fail> {
    assert!(rt; weight_of(rt.alloc(), 1)? == 66);
    assert!(rt; weight_of(rt.alloc(), 64_816)? == 64_881);
    assert!(rt; weight_of(rt.alloc(), 4_294_967_295)? == 4_294_967_360);
    Ok(())
}

/// Guards the range of the clock, and the order of moments.
#[test]
fn a_moment_is_below_2_to_the_40(rt: HostRuntime) {
    assert!(rt; Moment::try_new(1_099_511_627_775) == Some(Moment::LAST));
    assert!(rt; Moment::try_new(1_099_511_627_776).is_none());
    assert!(rt; Moment::FIRST.seconds() == 0);
    let (early, late) = (Moment::new(3), Moment::new(4));
    assert!(rt; early < late && early.later(late) == late && late.later(early) == late);
}

const NAMES: [&str; 10] = ["a", "b", "a", "d", "e", "f", "g", "h", "i", "j"];

/// Appends a key of this name.
fn push(alloc: Global, keys: &mut Keys, name: &str) -> Result<(), KeyFault> {
    let key = key_of(alloc, name)?;
    Ok(keys.push(alloc, key)?)
}

/// Returns a list of keys with these names.
fn keys_of(alloc: Global, names: &[&str]) -> Result<Keys, KeyFault> {
    let mut keys = Keys::new();
    for name in names {
        push(alloc, &mut keys, name)?;
    }
    Ok(keys)
}

/// Returns whether the keys have these names, in order.
fn are_named(keys: &Keys, names: &[&str]) -> bool {
    let mut pairs = keys.as_slice().iter().zip(names);
    keys.len() == names.len()
        && keys.is_empty() == names.is_empty()
        && pairs.all(|(key, name)| key.as_bytes() == name.as_bytes())
}

/// Returns whether a copy of a list with these names equals the list and has the names, in order.
fn are_kept(alloc: Global, names: &[&str]) -> Result<bool, KeyFault> {
    let keys = keys_of(alloc, names)?;
    let copied = keys.copy(alloc)?;
    Ok(copied == keys && are_named(&copied, names))
}

/// Returns whether `Keys::one` equals a list with that one key pushed.
fn is_one(alloc: Global, name: &str) -> Result<bool, KeyFault> {
    let keys = keys_of(alloc, &[name])?;
    let one = Keys::one(key_of(alloc, name)?);
    Ok(one == keys)
}

/// Guards `get` with several keys: each is looked up, in the order asked, however many there are.
#[test]
fn keys_are_kept_in_order_and_copied(rt: HostRuntime) -> Result<(), Fail> {
    assert!(rt; are_kept(rt.alloc(), &[])?);
    assert!(rt; are_kept(rt.alloc(), &["a"])?);
    assert!(rt; are_kept(rt.alloc(), &NAMES)?);
    assert!(rt; is_one(rt.alloc(), "a")?);
    Ok(())
}

/// Pushes a key. Returns whether the length rose by one, or stayed if memory was refused.
fn grows(alloc: Global, keys: &mut Keys, name: &str) -> Result<bool, KeyFault> {
    let before = keys.len();
    let key = key_of(alloc, name)?;
    let more = usize::from(keys.push(alloc, key).is_ok());
    Ok(keys.len() == before.saturating_add(more))
}

/// Guards a `get` that is read while memory is short: no key is doubled or lost.
#[test]
fn a_refused_push_leaves_the_keys_as_they_were(rt: HostRuntime) -> Result<(), Fail> {
    let mut keys = Keys::new();
    for name in &NAMES {
        let has_grown = grows(rt.alloc(), &mut keys, name)?;
        assert!(rt; has_grown, "{name}");
    }
    Ok(())
}

/// Returns whether a copy stays as it was when the list gets one more key.
fn leaves_a_copy(alloc: Global, names: &[&str]) -> Result<bool, KeyFault> {
    let mut keys = keys_of(alloc, names)?;
    let copied = keys.copy(alloc)?;
    push(alloc, &mut keys, "more")?;
    Ok(are_named(&copied, names) && keys.len() == names.len().saturating_add(1))
}

/// Guards the audit's journal: the kept copy of a command must not change with the original.
#[test]
fn a_key_pushed_after_a_copy_is_not_in_the_copy(rt: HostRuntime) -> Result<(), Fail> {
    assert!(rt; leaves_a_copy(rt.alloc(), &[])?);
    assert!(rt; leaves_a_copy(rt.alloc(), &["a"])?);
    assert!(rt; leaves_a_copy(rt.alloc(), &NAMES)?);
    Ok(())
}

const LONG: &str = "a_key_of_more_than_thirty_two_bytes";

/// Returns a map with a short key at 1 and a long key at 2.
fn places(alloc: Global) -> Result<HashMap<Key, u32>, Fail> {
    let mut places = HashMap::new(alloc);
    places.insert(key_of(alloc, "short")?, 1)?;
    places.insert(key_of(alloc, LONG)?, 2)?;
    Ok(places)
}

/// Returns the value under a copy of the key with this name.
fn place_of(alloc: Global, name: &str) -> Result<Option<u32>, Fail> {
    let key = key_of(alloc, name)?;
    let copied = key.copy(alloc)?;
    let places = places(alloc)?;
    Ok(places.get(&copied).copied())
}

/// Guards look-ups: equal bytes are one key, whether they lie in place or in shared memory.
#[test]
fn a_map_finds_a_key_by_an_equal_one(rt: HostRuntime) -> Result<(), Fail> {
    assert!(rt; place_of(rt.alloc(), "short")? == Some(1));
    assert!(rt; place_of(rt.alloc(), LONG)? == Some(2));
    assert!(rt; place_of(rt.alloc(), "shorT")?.is_none());
    Ok(())
}

/// Returns the hash of a copy of a key.
fn hash_of(alloc: Global, text: &str) -> Result<u64, KeyFault> {
    let key = key_of(alloc, text)?;
    let copied = key.copy(alloc)?;
    Ok(copied.fnv_hash())
}

/// Guards popularity counts and hints: a key that keeps its hash and one that computes it must
/// agree. The first value is FNV's own example; an independent program computed the others.
#[test]
fn a_key_has_the_hash_of_its_bytes_at_each_length(rt: HostRuntime) -> Result<(), Fail> {
    assert!(rt; hash_of(rt.alloc(), "foobar")? == 0x85944171f73967e8);
    assert!(rt; hash_of(rt.alloc(), "fourteen_bytes")? == 0x916f9f177c002459);
    assert!(rt; hash_of(rt.alloc(), "fifteen_bytes_x")? == 0x6a10a7ae8cea7405);
    assert!(rt; hash_of(rt.alloc(), "twenty_two_bytes_exact")? == 0xe1dae1fbdad44dbd);
    assert!(rt; hash_of(rt.alloc(), "twenty_three_bytes_long")? == 0x99422f3e3fa10376);
    Ok(())
}

fn blob_of(alloc: Global, text: &str) -> Result<Blob, NoMemory> {
    Blob::new(alloc, Vec::from_slice(alloc, text.as_bytes())?)
}

/// Returns a copy of a blob that was dropped.
fn copied(alloc: Global, text: &str) -> Result<Blob, NoMemory> {
    let blob = blob_of(alloc, text)?;
    blob.copy()
}

/// Returns whether a blob and a copy of one both show this text.
fn is_shown(alloc: Global, text: &str) -> Result<bool, NoMemory> {
    let copied = copied(alloc, text)?;
    let blob = blob_of(alloc, text)?;
    Ok(
        copied.as_slice() == text.as_bytes()
            && copied.len() == text.len()
            && copied.is_empty() == text.is_empty()
            && copied == blob,
    )
}

/// Guards stored data: a block that looks like a reply, or is empty, comes back byte for byte.
#[test]
fn a_blob_shows_the_bytes_that_it_was_made_of(rt: HostRuntime) -> Result<(), Fail> {
    assert!(rt; is_shown(rt.alloc(), "\r\nEND\r\n")?);
    assert!(rt; is_shown(rt.alloc(), "")?);
    Ok(())
}

/// Data lengths in bytes around each size class of the blocks.
const BLOCK_ENDS: [usize; 13] = [0, 8, 9, 40, 41, 72, 73, 104, 105, 168, 169, 232, 233];

/// Returns this many bytes `a`, the last one replaced by `z`.
fn bytes_of(alloc: Global, length: usize) -> Result<Vec<u8>, AllocError> {
    let mut bytes = vec![in alloc; b'a'; length]?;
    if let Some(last) = bytes.last_mut() {
        *last = b'z';
    }
    Ok(bytes)
}

/// Returns whether a blob shows these bytes, and its copy still does after the blob is dropped.
fn shows(blob: Blob, bytes: &[u8]) -> Result<bool, NoMemory> {
    let shown = blob.as_slice() == bytes && blob.len() == bytes.len();
    let copy = blob.copy()?;
    drop(blob);
    Ok(shown && copy.as_slice() == bytes)
}

/// Returns whether a blob of this length shows its bytes, by either constructor, and so does its
/// copy.
fn is_shown_whole(alloc: Global, length: usize) -> Result<bool, NoMemory> {
    let bytes = bytes_of(alloc, length)?;
    Ok(
        shows(Blob::from_slice(alloc, &bytes)?, &bytes)?
            && shows(Blob::new(alloc, bytes_of(alloc, length)?)?, &bytes)?,
    )
}

/// Guards stored data at the edges of each size class, where a byte could be cut off.
#[test]
fn a_blob_shows_its_bytes_in_whatever_block_they_lie(rt: HostRuntime) -> Result<(), Fail> {
    for length in &BLOCK_ENDS {
        assert!(rt; is_shown_whole(rt.alloc(), *length)?, "{length} bytes");
    }
    Ok(())
}

/// Returns whether a fault prints as `wanted`.
fn reads(alloc: Global, fault: KeyFault, wanted: &str) -> Result<bool, AllocError> {
    let text = format!(in alloc; "{fault}")?;
    Ok(text.as_str() == wanted)
}

/// Returns whether `NoMemory` prints as `wanted`.
fn refusal_reads(alloc: Global, wanted: &str) -> Result<bool, AllocError> {
    let text = format!(in alloc; "{NoMemory}")?;
    Ok(text.as_str() == wanted)
}

/// Returns whether a list of one key, as a slice and as `Keys`, prints as `wanted`.
fn key_reads(alloc: Global, bytes: &[u8], wanted: &str) -> Result<bool, Fail> {
    let keys = Keys::one(Key::new(alloc, bytes)?);
    let text = format!(in alloc; "{:?} {keys:?}", keys.as_slice())?;
    Ok(text.as_str() == wanted)
}

/// Guards the messages from which an operator learns what is wrong with a key.
#[test]
fn faults_and_keys_are_shown_as_text(rt: HostRuntime) -> Result<(), Fail> {
    let alloc = rt.alloc();
    assert!(rt; reads(alloc, KeyFault::Empty, "the key is empty")?);
    assert!(rt; reads(alloc, KeyFault::TooLong, "the key has more than 250 bytes")?);
    assert!(rt;
        reads(
            alloc,
            KeyFault::BadByte,
            "the key has a control byte or a space"
        )?
    );
    assert!(rt; reads(alloc, KeyFault::NoMemory, "out of memory")?);
    assert!(rt; refusal_reads(alloc, "out of memory")?);
    assert!(rt; key_reads(alloc, b"user:1", "[\"user:1\"] [\"user:1\"]")?);
    assert!(rt; key_reads(alloc, &[255], "[[255]] [[255]]")?);
    Ok(())
}
