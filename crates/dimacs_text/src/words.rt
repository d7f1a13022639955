ghost use Rattle.std.specs.Prelude.{◌≡◌, ◌<◌, ◌≤◌, [], ◌∷◌, length, IfSome, IfNone};
ghost use Rattle.std.specs.Bool.{OnTrue, OnFalse};
ghost use Rattle.std.specs.Iterator.{YieldsFirst, item_count};
ghost use Rattle.dimacs_text.specs.Words.{lines_left, without_comment, words_of, words_in, words_left};

use byte_scan::Scan;
use std::marker::Model;
use tokens::{Whitespace, first_word};

/// A word of a text, and the place of its first byte, from 0.
#[derive(Drop)]
pub(crate) struct Word<'a> {
    at: u64,
    bytes: &'a [u8],
}

impl<'a> Model for Word<'a> {
    ghost use Rattle.tokens.specs.Words.{Part};

    ghost Value = { Part };

    ghost view = { λ w. record { at = w.at; bytes = w.bytes.now } };
}

impl<'a> Word<'a> {
    /// The place of its first byte.
    pub(crate) fn at(&self) -> u64
        ensures { result ≡ self.now.at }
    {
        self.at
    }

    pub(crate) fn bytes(&self) -> &'a [u8]
        ensures { result.now ≡ self.now.bytes }
    {
        self.bytes
    }
}

/// The words of a text that are left, in order.
#[derive(Drop)]
pub(crate) struct Words<'a> {
    /// What is left of a line, and its place.
    at: u64,
    line: &'a [u8],
    /// The lines behind it.
    lines: Scan<'a>,
}

impl<'a> Model for Words<'a> {
    ghost use Rattle.std.specs.Prelude.{◌+◌, ◌<◌, ◌≤◌, ◌^◌, length};
    ghost use Rattle.dimacs_text.specs.Words.{Left};

    ghost Value = { Left };

    ghost view = { λ w. record { line = record { at = w.at; bytes = w.line.now }; lines = w.lines } };

    ghost invariant = { λ w. (w.at + length w.line.now ≤ w.lines.at) × (w.lines.at ≤ length w.lines.bytes)
        × (length w.lines.bytes < 2 ^ 64) };
}

impl<'a> Words<'a> {
    /// All words of the text.
    pub(crate) fn new(text: &'a [u8]) -> Words<'a>
        ensures { words_left result ≡ words_in text.now }
    {
        Words {
            at: 0,
            line: &[],
            lines: Scan::new(text),
        }
    }

    /// The next word of the line.
    fn next_in_line(&mut self) -> Option<Word<'a>>
        ensures word { IfSome result (λ w. words_left self.old ≡ w ∷ words_left self.new) }
        ensures none { IfNone result (words_of self.new.line ≡ []) }
        ensures same { IfNone result (words_left self.new ≡ words_left self.old) }
        ensures lines { self.new.lines ≡ self.old.lines }
    {
        let (bytes, behind) = first_word::<Whitespace>(self.line)?;
        let at = self.at + (self.line.len() - bytes.len() - behind.len()) as u64;
        self.at += (self.line.len() - behind.len()) as u64;
        self.line = behind;
        Some(Word { at, bytes })
    }

    /// Goes to the next line, if there is one. Of a comment nothing is read.
    fn next_line(&mut self) -> bool
        requires { words_of self.old.line ≡ [] }
        ensures same { words_left self.new ≡ words_left self.old }
        ensures moved { OnTrue result (lines_left self.new < lines_left self.old) }
        ensures end { OnFalse result (words_left self.new ≡ []) }
    {
        let at = self.lines.at();
        let Some(line) = self.lines.line() else {
            return false;
        };
        self.at = at;
        self.line = without_comment(line);
        true
    }
}

impl<'a> Iterator for Words<'a> {
    type Item = Word<'a>;

    ghost next_gives = { YieldsFirst words_left };

    ghost remaining = { item_count words_left };

    /// The next word, from a later line where this one is used up: clauses may run over lines.
    fn next(&mut self) -> Option<Word<'a>> {
        loop {
            if let Some(word) = self.next_in_line() {
                return Some(word);
            }
            if !self.next_line() {
                return None;
            }
        }
    }
}

/// The line, or nothing where it is a comment.
fn without_comment(line: &[u8]) -> &[u8]
    ensures line { result.now ≡ without_comment line.now }
    ensures within { length result.now ≤ length line.now }
{
    match line {
        [b'c', ..] => &[],
        _ => line,
    }
}
