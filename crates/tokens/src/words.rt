ghost use Rattle.std.specs.Prelude.{◌≡◌, ℕ, ◌+◌, ◌-◌, ◌≤◌, Bool, [], ◌∷◌, not, length, position, IfSome, IfNone};
ghost use Rattle.std.specs.Iterator.{YieldsFirstBy, item_count};
ghost use Rattle.tokens.specs.Words.{is_space, is_whitespace, words_by, placed_words};

use std::marker::PhantomData;

/// Which bytes part the words of a line.
pub trait Blanks {
    ghost blank: { ℕ → Bool };

    fn is_blank(byte: u8) -> bool
        ensures { result ≡ blank byte };
}

/// The space alone.
#[derive(Clone, Copy)]
pub struct Space;

impl Blanks for Space {
    ghost blank = { is_space };

    fn is_blank(byte: u8) -> bool {
        byte == b' '
    }
}

/// Space, tab, CR and LF.
#[derive(Clone, Copy)]
pub struct Whitespace;

impl Blanks for Whitespace {
    ghost blank = { is_whitespace };

    fn is_blank(byte: u8) -> bool {
        matches!(byte, b' ' | b'\t' | b'\r' | b'\n')
    }
}

/// The words of a line that are left, in order.
#[derive(Drop)]
pub struct Words<'a, B> {
    line: &'a [u8],
    blanks: PhantomData<B>,
}

impl<'a, B: Blanks> Words<'a, B> {
    /// All words of the line.
    pub fn new(line: &'a [u8]) -> Words<'a, B>
        ensures { result.line.now ≡ line.now }
    {
        Words {
            line,
            blanks: PhantomData,
        }
    }
}

impl<'a, B: Blanks> Iterator for Words<'a, B> {
    type Item = &'a [u8];

    ghost next_gives = { YieldsFirstBy (λ w. w.now) (λ s. words_by B.blank s.line.now) };

    ghost remaining = { item_count (λ s. words_by B.blank s.line.now) };

    fn next(&mut self) -> Option<&'a [u8]> {
        let (word, rest) = first_word::<B>(self.line)?;
        self.line = rest;
        Some(word)
    }
}

/// The first word of a line, and what stands behind it.
pub fn first_word<B: Blanks>(line: &[u8]) -> Option<(&[u8], &[u8])>
    ensures word { IfSome result
        (λ found. words_by B.blank line.now ≡ found.0.now ∷ words_by B.blank found.1.now) }
    ensures none { IfNone result (words_by B.blank line.now ≡ []) }

    // The same with the places of the words, if the line stands at some place of a text.
    ensures within { IfSome result (λ found. length found.0.now + length found.1.now ≤ length line.now) }
    ensures placed { IfSome result (λ found. (at : ℕ) → placed_words B.blank at line.now
        ≡ record {
          at = at + (length line.now - length found.0.now - length found.1.now);
          bytes = found.0.now;
        }
        ∷ placed_words B.blank (at + (length line.now - length found.1.now)) found.1.now) }
{
    let (_, rest) = line.split_at(first_letter::<B>(line)?);
    let end = first_blank::<B>(rest).unwrap_or(rest.len());
    Some(rest.split_at(end))
}

fn first_letter<B: Blanks>(line: &[u8]) -> Option<usize>
    ensures { result ≡ position (λ b. not (B.blank b)) line.now }
{
    line.iter().position(|b| !B::is_blank(*b))
}

fn first_blank<B: Blanks>(line: &[u8]) -> Option<usize>
    ensures { result ≡ position B.blank line.now }
{
    line.iter().position(|b| B::is_blank(*b))
}
