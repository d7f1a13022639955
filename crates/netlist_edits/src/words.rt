ghost use Rattle.std.specs.Prelude.{◌≡◌, ◌==◌, ◌∷◌, [], IfSome, IfNone, position};
ghost use Rattle.byte_scan.specs.HeaderLine.{words_of};
ghost use Rattle.netlist_edits.specs.Line.{words_left};
ghost use Rattle.std.specs.Option.{option_copied};

use std::marker::Model;

/// The words of a line that are left, in order. Exactly one space parts two of them, so two spaces that
/// follow each other have an empty word between, as one in front or at the end has beside it.
#[derive(Drop)]
pub(crate) struct Words<'a> {
    /// None where no word is left.
    rest: Option<&'a [u8]>,
}

impl<'a> Model for Words<'a> {
    ghost use Rattle.std.specs.Prelude.{ℕ, List};
    ghost use Rattle.std.specs.Option.{option_copied};
    ghost use Rattle.netlist_edits.specs.Line.{words_left};

    ghost Value = { List (List ℕ) };

    ghost view = { λ w. words_left (option_copied w.rest) };
}

impl<'a> Words<'a> {
    /// All words of a line.
    pub(crate) fn of(line: &'a [u8]) -> Words<'a>
        ensures { result ≡ words_of line.now }
    {
        Words { rest: Some(line) }
    }

    /// The next word.
    pub(crate) fn next(&mut self) -> Option<&'a [u8]>
        ensures word { IfSome result (λ w. self.old ≡ w.now ∷ self.new) }
        ensures none { IfNone result (self.old ≡ []) }
    {
        let (word, rest) = first_word(self.rest?);
        self.rest = rest;
        Some(word)
    }
}

/// The first word of a line, and what is left behind the space that ends it, if there is one.
fn first_word(line: &[u8]) -> (&[u8], Option<&[u8]>)
    ensures { words_of line.now ≡ result.0.now ∷ words_left (option_copied result.1) }
{
    match first_space(line) {
        Some(end) => (line.split_at(end).0, Some(line.split_at(end + 1).1)),
        None => (line, None),
    }
}

/// The place of the first space.
fn first_space(line: &[u8]) -> Option<usize>
    ensures { result ≡ position (λ b. b == 32) line.now }
{
    line.iter().position(|b| *b == b' ')
}
