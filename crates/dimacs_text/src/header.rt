ghost use Rattle.std.specs.Prelude.{◌≡◌, ◌<◌, ◌^◌, drop, IfSome, OnSome};
ghost use Rattle.dimacs_text.specs.Words.{words_left};
ghost use Rattle.dimacs_text.specs.Reading.{announced_in, header_in};

use crate::words::Words;
use tokens::size_in;

/// What a header announces.
#[derive(Clone, Copy)]
pub(crate) struct Header {
    /// The greatest variable.
    pub(crate) variables: u32,
    /// How many clauses there are.
    pub(crate) clauses: u32,
}

/// The header that the next four words are, if they are one.
pub(crate) fn header_in(words: &mut Words) -> Option<Header>
    ensures header { result ≡ header_in (words_left words.old) }
    ensures bound { IfSome result (λ h. h.variables < 2 ^ 31) }
    ensures rest { OnSome result (words_left words.new ≡ drop 4 (words_left words.old)) }
{
    let p = words.next()?;
    let cnf = words.next()?;
    let variables = words.next()?;
    let clauses = words.next()?;
    if p.bytes() != b"p".as_slice() || cnf.bytes() != b"cnf".as_slice() {
        return None;
    }
    Some(Header {
        variables: announced_in(variables.bytes())?,
        clauses: announced_in(clauses.bytes())?,
    })
}

/// The number of variables or of clauses that the word announces, if it announces one.
fn announced_in(word: &[u8]) -> Option<u32>
    ensures number { result ≡ announced_in word.now }
    ensures bound { IfSome result (λ n. n < 2 ^ 31) }
{
    let size = size_in(word)?;
    if size < 1 << 31 {
        Some(size as u32)
    } else {
        None
    }
}
