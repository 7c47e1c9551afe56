//! Cuts a line at its spaces, from the front.
ghost use Rattle.std.specs.Prelude.{◌≡◌, ◌≤◌, ◌<◌, ◌∷◌, [], drop, length, MatchOption, IsTrue};
ghost use Rattle.std.specs.List.{prefix_len};
ghost use Rattle.tc_item.specs.KeyRule.{is_key, is_key_byte};
ghost use Rattle.tc_grammar.specs.Tokens.{tokens};
ghost use Rattle.tc_grammar.specs.Words.{word_length};

use std::marker::Model;
use tc_item::{LONGEST_KEY, key_run};

/// The tokens of a line that are not read yet.
#[derive(Drop)]
pub struct Tokens<'a> {
    rest: &'a [u8],
}

impl<'a> Model for Tokens<'a> {
    ghost use Rattle.std.specs.Prelude.{ℕ, List};
    ghost use Rattle.tc_grammar.specs.Tokens.{tokens};

    ghost Value = { List (List ℕ) };

    ghost view = { λ t. tokens t.rest.now };
}

/// Counts the spaces at the front.
fn space_length(bytes: &[u8]) -> usize
    ensures within { result ≤ length bytes.now }
    ensures same { tokens (drop result bytes.now) ≡ tokens bytes.now }
    ensures word { result < length bytes.now → 0 < word_length (drop result bytes.now) }
{
    for (i, byte) in bytes.iter().enumerate() {
        if *byte != b' ' {
            return i;
        }
    }
    bytes.len()
}

/// Counts the bytes before the first space, one by one.
fn first_space(bytes: &[u8]) -> usize
    ensures value { result ≡ word_length bytes.now }
    ensures within { result ≤ length bytes.now }
{
    for (i, byte) in bytes.iter().enumerate() {
        if *byte == b' ' {
            return i;
        }
    }
    bytes.len()
}

/// A token, and whether it is a key.
#[derive(Clone, Copy)]
pub struct Word<'a> {
    pub bytes: &'a [u8],
    pub is_key: bool,
}

/// Whether a token is a key, if its first `run` bytes may be in a key and the next may not.
fn is_key_run(token: &[u8], run: usize) -> bool
    requires some { 0 < length token.now }
    requires run { prefix_len is_key_byte token.now ≡ run }
    ensures { result ≡ is_key token.now }
{
    run == token.len() && run <= LONGEST_KEY
}

impl<'a> Tokens<'a> {
    /// Begins at the front of a line.
    pub fn new(line: &'a [u8]) -> Tokens<'a>
        ensures { result ≡ tokens line.now }
    {
        Tokens { rest: line }
    }

    /// Whether no byte is left. Trailing spaces count as bytes.
    pub fn is_at_end(&self) -> bool
        ensures { IsTrue result → self.now ≡ [] }
    {
        self.rest.is_empty()
    }

    /// Returns the number of bytes left, spaces included.
    pub fn bytes_left(&self) -> usize {
        self.rest.len()
    }

    /// Takes the next token, and says whether it is a key. It passes bytes that a key may have in
    /// groups, since most tokens have no others.
    pub fn next_word(&mut self) -> Option<Word<'a>>
        ensures { MatchOption result ((self.old ≡ []) × (self.new ≡ []))
            (λ word. (self.old ≡ word.bytes.now ∷ self.new)
            × (word.is_key ≡ is_key word.bytes.now)) }
    {
        let bytes = &self.rest[space_length(self.rest)..];
        if bytes.is_empty() {
            return None;
        }
        let run = key_run(bytes);
        let length = run + first_space(&bytes[run..]);
        let (token, rest) = bytes.split_at(length);
        self.rest = rest;
        Some(Word {
            bytes: token,
            is_key: is_key_run(token, run),
        })
    }

    /// Takes the next token.
    pub fn next(&mut self) -> Option<&'a [u8]>
        ensures { MatchOption result ((self.old ≡ []) × (self.new ≡ []))
            (λ token. self.old ≡ token.now ∷ self.new) }
    {
        match self.next_word() {
            Some(word) => Some(word.bytes),
            None => None,
        }
    }
}
