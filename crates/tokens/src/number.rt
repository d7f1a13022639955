ghost use Rattle.std.specs.Prelude.{◌≡◌};
ghost use Rattle.tokens.specs.Numbers.{size_in, number_in};

use byte_scan::Scan;

/// A number as a word writes it: digits, with a minus sign in front where it is negative.
#[derive(Clone, Copy)]
pub struct Number {
    pub minus: bool,
    pub size: u64,
}

/// The number that the word writes, if it writes one.
pub fn number_in(word: &[u8]) -> Option<Number>
    ensures { result ≡ number_in word.now }
{
    let (minus, digits) = match word {
        [b'-', digits @ ..] => (true, digits),
        _ => (false, word),
    };
    let size = size_in(digits)?;
    if minus && size == 0 {
        return None;
    }
    Some(Number { minus, size })
}

/// The size that the word writes, if it is one digit or more and nothing else.
pub fn size_in(word: &[u8]) -> Option<u64>
    ensures { result ≡ size_in word.now }
{
    let mut scan = Scan::new(word);
    let size = scan.number()?;
    if scan.at() < word.len() as u64 {
        return None;
    }
    Some(size)
}
