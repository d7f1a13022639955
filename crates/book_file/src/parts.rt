//! The parts of a text between the bytes that part them: its lines, and the words of a line.
ghost use Rattle.std.specs.Prelude.{◌≡◌, ◌+◌, ◌<◌, ◌==◌, ◌∷◌, [], length, IfSome, IfNone};
ghost use Rattle.std.specs.List.{slice_split};
ghost use Rattle.std.specs.Iterator.{YieldsFirstBy, item_count};
ghost use Rattle.book_file.specs.Lines.{words_of};

use memchr::memchr;
use std::marker::Model;

/// What stands before the first such byte, and what stands behind it; none where there is no such byte.
pub(crate) fn cut(byte: u8, text: &[u8]) -> Option<(&[u8], &[u8])>
    ensures parts { IfSome result (λ parts. slice_split (λ b. b == byte) text.now
        ≡ parts.0.now ∷ slice_split (λ b. b == byte) parts.1.now) }
    ensures shorter { IfSome result
        (λ parts. length parts.0.now + length parts.1.now < length text.now) }
    ensures none { IfNone result (slice_split (λ b. b == byte) text.now ≡ text.now ∷ []) }
{
    match memchr(byte, text) {
        Some(at) => {
            let (before, _) = text.split_at(at);
            let (_, behind) = text.split_at(at + 1);
            Some((before, behind))
        }
        None => None,
    }
}

/// The words of a line that are left, which spaces part. Where two spaces stand together, or one at an end of
/// the line, there is an empty word.
#[derive(Drop)]
pub(crate) struct Words<'a> {
    rest: Option<&'a [u8]>,
}

impl<'a> Model for Words<'a> {
    ghost use Rattle.std.specs.Prelude.{ℕ, List, []};
    ghost use Rattle.std.specs.Option.{option_map_or};
    ghost use Rattle.book_file.specs.Lines.{words_of};

    ghost Value = { List (List ℕ) };

    ghost view = { λ w. option_map_or (λ rest. words_of rest.now) w.rest [] };
}

impl<'a> Words<'a> {
    /// All words of the line.
    pub(crate) fn new(line: &'a [u8]) -> Words<'a>
        ensures { result ≡ words_of line.now }
    {
        Words { rest: Some(line) }
    }
}

impl<'a> Iterator for Words<'a> {
    type Item = &'a [u8];

    ghost next_gives = { YieldsFirstBy (λ w. w.now) (λ words. words) };

    ghost remaining = { item_count (λ words. words) };

    fn next(&mut self) -> Option<&'a [u8]> {
        let line = self.rest?;
        match cut(b' ', line) {
            Some((word, rest)) => {
                self.rest = Some(rest);
                Some(word)
            }
            None => {
                self.rest = None;
                Some(line)
            }
        }
    }
}
