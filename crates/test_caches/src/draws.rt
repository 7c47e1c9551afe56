//! Commands drawn from a fixed seed.

use crate::fixtures::command;
use std::alloc::Global;
use std::process::Abort;
use tc_counter::write_into;
use tc_grammar::Command;
use tc_item::NoMemory;

/// The number of keys, `k0` to `k511`. Over half of the draws are of the first sixteen.
pub(crate) const KEYS: u64 = 512;

/// The text before a command's key, and the text after it.
pub(crate) type Form = (&'static str, &'static str);

static FORMS: [Form; 32] = [
    ("set ", " 0 0 1"),
    ("set ", " 5 0 40"),
    ("set ", " 0 20 700"),
    ("set ", " 1 0 4600"),
    ("set ", " 2 9 6100"),
    ("set ", " 0 0 20000"),
    ("set ", " 0 0 15000"),
    ("set ", " 0 -1 10"),
    ("add ", " 0 0 900"),
    ("add ", " 0 3 8000"),
    ("replace ", " 3 4 2000"),
    ("append ", " 0 0 300"),
    ("prepend ", " 0 0 7"),
    ("cas ", " 9 0 100 40"),
    ("incr ", " 7"),
    ("decr ", " 3"),
    ("delete ", ""),
    ("touch ", " 0"),
    ("touch ", " 6"),
    ("gat 12 ", ""),
    ("gats 0 ", " k1 k2"),
    ("get ", ""),
    ("get ", ""),
    ("get ", ""),
    ("get ", ""),
    ("get ", ""),
    ("get ", " k4"),
    ("get ", " k5 k300 k7"),
    ("gets ", ""),
    ("gets ", ""),
    ("gets ", " k3 k3 other"),
    ("gets ", ""),
];

/// A pseudo-random sequence from a fixed seed, by Knuth's MMIX generator.
#[derive(Drop)]
pub(crate) struct Draws {
    state: u64,
}

impl Draws {
    pub(crate) fn new() -> Draws {
        Draws { state: 1 }
    }

    /// Draws a number below `end`, which must be at most 2^33.
    pub(crate) fn below(&mut self, end: u64) -> u64 {
        self.state = self
            .state
            .wrapping_mul(6_364_136_223_846_793_005)
            .wrapping_add(1_442_695_040_888_963_407);
        (self.state >> 33).wrapping_mul(end) >> 31
    }

    /// Draws one element, or none if there is none.
    fn one_of<'a, T>(&mut self, all: &'a [T]) -> Option<&'a T> {
        let place = self.below(all.len() as u64);
        all.get(place as usize)
    }

    /// Draws the number of a key: half of the time one of the first sixteen, otherwise any.
    fn key(&mut self) -> u64 {
        if self.below(2) == 0 {
            self.below(16)
        } else {
            self.below(KEYS)
        }
    }
}

/// Appends the key with this number.
pub(crate) fn push_key(text: &mut Vec<u8>, key: u64) -> Result<(), NoMemory> {
    text.push(b'k')?;
    write_into(key, text)
}

/// Appends the line of a command on a key.
pub(crate) fn push_line(text: &mut Vec<u8>, form: &Form, key: u64) -> Result<(), NoMemory> {
    text.extend_from_slice(form.0.as_bytes())?;
    push_key(text, key)?;
    text.extend_from_slice(form.1.as_bytes())?;
    Ok(())
}

/// Draws a line without a key, in about 41 of 5,000 cases.
fn bare_line(draws: &mut Draws) -> Option<&'static str> {
    match draws.below(5_000) {
        0 => Some("flush_all 9"),
        1 => Some("flush_all"),
        2..=40 => Some("stats"),
        _ => None,
    }
}

/// Draws the line of a command.
fn line(alloc: Global, draws: &mut Draws) -> Result<Vec<u8>, NoMemory> {
    if let Some(line) = bare_line(draws) {
        return Ok(Vec::from_slice(alloc, line.as_bytes())?);
    }
    let form = draws.one_of(&FORMS).unwrap_or(&FORMS[0]);
    let mut text = Vec::new(alloc);
    push_line(&mut text, form, draws.key())?;
    Ok(text)
}

/// Draws the next command. Its data begins with a digit.
pub(crate) fn drawn(
    rt: &impl Abort,
    alloc: Global,
    draws: &mut Draws,
) -> Result<Command, NoMemory> {
    let line = line(alloc, draws)?;
    command(rt, alloc, &line, "7")
}
