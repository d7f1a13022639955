use rand_core::SeedableRng;
use rand_core::utils::NextWord;
use rand_pcg::Lcg128Xsl64;
use std::alloc::AllocError;

/// How many words of 64 patterns are drawn for each input, in which each input is true half of the time.
const EVEN: u32 = 66;

/// How many words are drawn in which inputs are rarely true, and as many in which they are rarely false: on
/// counters of ones nodes differ only there.
const RARE: u32 = 11;

/// How many words are drawn in which an input is mostly like the one before it, and as many in which it is
/// mostly like the one before that: in two operands long runs make long carries.
const LIKE: u32 = 8;

/// How many words are drawn.
pub(crate) const DRAWN: u32 = EVEN + 2 * RARE + 2 * LIKE;

/// Draws the words of so many inputs, behind the first so many of the seed: word w of input i stands at w
/// times the inputs and i.
pub(crate) fn draw(
    words: &mut Vec<u64>,
    inputs: u32,
    seed: u64,
    first: u64,
) -> Result<(), AllocError> {
    let mut generator = Lcg128Xsl64::seed_from_u64(seed);
    for _ in 0..first {
        let _drawn = generator.next_word();
    }
    for word in 0..DRAWN {
        draw_word(words, inputs, &mut generator, word)?;
    }
    Ok(())
}

/// Draws a word of each input, in the way that its number asks for.
fn draw_word(
    words: &mut Vec<u64>,
    inputs: u32,
    generator: &mut Lcg128Xsl64,
    word: u32,
) -> Result<(), AllocError> {
    if word < EVEN {
        return draw_rare(words, inputs, generator, 0, 0);
    }
    let rare = word - EVEN;
    if rare < 2 * RARE {
        let usual = if rare % 2 == 1 { u64::MAX } else { 0 };
        return draw_rare(words, inputs, generator, rare / 2, usual);
    }
    let like = rare - 2 * RARE;
    draw_like(words, inputs, generator, like / 2, like as usize % 2 + 1)
}

/// Draws a word of each input, of which a bit differs from this one once in 2, 4, 8 and so on.
fn draw_rare(
    words: &mut Vec<u64>,
    inputs: u32,
    generator: &mut Lcg128Xsl64,
    often: u32,
    usual: u64,
) -> Result<(), AllocError> {
    for _ in 0..inputs {
        words.push(rare(generator, often) ^ usual)?;
    }
    Ok(())
}

/// Draws a word of each input that seldom differs from that of the input so many places before.
fn draw_like(
    words: &mut Vec<u64>,
    inputs: u32,
    generator: &mut Lcg128Xsl64,
    often: u32,
    back: usize,
) -> Result<(), AllocError> {
    let first = words.len();
    for _ in 0..inputs {
        let drawn = generator.next_word();
        let place = words.len();
        let word = if place >= first.saturating_add(back) {
            let fresh = rare(generator, often.saturating_add(1));
            let before = word_at(words, place.saturating_sub(back));
            (before & !fresh) | (drawn & fresh)
        } else {
            drawn
        };
        words.push(word)?;
    }
    Ok(())
}

/// A word in which a bit is set once in 2, 4, 8 and so on.
fn rare(generator: &mut Lcg128Xsl64, often: u32) -> u64 {
    let mut word = generator.next_word();
    for _ in 0..often {
        word &= generator.next_word();
    }
    word
}

/// The word at a place; 0 outside the list.
#[inline(always)]
pub(crate) fn word_at(words: &[u64], place: usize) -> u64 {
    match words.get(place) {
        Some(word) => *word,
        None => 0,
    }
}
