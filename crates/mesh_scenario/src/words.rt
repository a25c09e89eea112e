ghost use Rattle.std.specs.Prelude.{◌≡◌, ◌≤◌, ◌∷◌, [], length, IfSome, IfNone};
ghost use Rattle.std.specs.List.{position_or_len};
ghost use Rattle.mesh_model.specs.Scenario.Words.{line_words, is_separator};
ghost use Rattle.mesh_scenario.specs.Inner.Taking.{word_found, is_in_word};

use memchr::memchr2;
use std::marker::Model;

/// A word of a line, and the rest of the line from the word's first byte on.
#[derive(Clone, Copy)]
pub struct Found<'a> {
    pub word: &'a [u8],
    pub text: &'a [u8],
}

/// The words of a line that weren't taken yet.
#[derive(Drop)]
pub struct Words<'a> {
    rest: &'a [u8],
}

impl<'a> Model for Words<'a> {
    ghost use Rattle.std.specs.Prelude.{List};
    ghost use Rattle.mesh_model.specs.Scenario.Words.{Word, line_words};

    ghost Value = { List Word };

    ghost view = { λ w. line_words w.rest.now };
}

/// Whether a byte stands between words.
fn is_separator(byte: u8) -> bool
    ensures { result ≡ is_separator byte }
{
    byte == b' ' || byte == b'\t'
}

/// How many separators stand before the first word.
fn separators(line: &[u8]) -> usize
    ensures value { result ≡ position_or_len is_in_word line.now }
    ensures within { result ≤ length line.now }
{
    line.iter()
        .position(|byte| !is_separator(*byte))
        .unwrap_or(line.len())
}

/// How many bytes stand before the first separator.
fn word_length(text: &[u8]) -> usize
    ensures value { result ≡ position_or_len is_separator text.now }
    ensures within { result ≤ length text.now }
{
    memchr2(b' ', b'\t', text).unwrap_or(text.len())
}

impl<'a> Words<'a> {
    /// The words of this line.
    pub fn of(line: &'a [u8]) -> Words<'a>
        ensures { result ≡ line_words line.now }
    {
        Words { rest: line }
    }

    /// Takes the next word.
    pub fn next(&mut self) -> Option<Found<'a>>
        ensures some { IfSome result (λ found. self.old ≡ word_found found ∷ self.new) }
        ensures none { IfNone result (self.old ≡ []) }
    {
        let text = &self.rest[separators(self.rest)..];
        if text.is_empty() {
            return None;
        }
        let (word, rest) = text.split_at(word_length(text));
        self.rest = rest;
        Some(Found { word, text })
    }
}
