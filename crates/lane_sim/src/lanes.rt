ghost use Rattle.std.specs.Prelude.{◌≡◌, ◌≤◌, ◌<◌, ◌+◌, ◌*◌, ◌&&◌, nat_lt, ℕ, Bool, length, bit_and, bit_xor, replicate};
ghost use Rattle.std.specs.List.{slice_index_or};
ghost use Rattle.std.specs.Simd.Lanes.{zip2, chunk, put_chunk};
ghost use Rattle.word_sim.specs.Patterns.{is_set, words_of};
ghost use Rattle.word_sim.specs.Rows.{HasBits, mask_of, turned};

use std::simd::prelude::*;

/// How many words go through lanes at a time.
const LANES: usize = 4;

/// The values of an AND of two rows of values, each taken as it is or negated.
pub(crate) fn put_gate(
    words: &mut [u64],
    left: &[u64],
    left_neg: bool,
    right: &[u64],
    right_neg: bool,
    count: u64,
)
    requires words { length words.old ≡ words_of count }
    requires left { length left.now ≡ words_of count }
    requires right { length right.now ≡ words_of count }
    ensures size { length words.new ≡ words_of count }
    ensures bits { (f g : ℕ → Bool) → HasBits count f left.now → HasBits count g right.now
        → HasBits count (λ p. turned left_neg (f p) && turned right_neg (g p)) words.new }
{
    put_both(words, left, mask_of(left_neg), right, mask_of(right_neg));
    clear_tail(words, count);
}

/// The mask that turns all bits of a word, or none.
fn mask_of(neg: bool) -> u64
    ensures { result ≡ mask_of neg }
{
    if neg { u64::MAX } else { 0 }
}

/// The values of an AND of two rows, each of which is turned where its mask has all bits: in lanes as many
/// words as fill them, and the others one by one.
fn put_both(words: &mut [u64], left: &[u64], left_mask: u64, right: &[u64], right_mask: u64)
    requires left { length left.now ≡ length words.old }
    requires right { length right.now ≡ length words.old }
    ensures size { length words.new ≡ length words.old }
    ensures words { (w : ℕ) → w < length words.old → slice_index_or words.new w 0
        ≡ bit_and (bit_xor (slice_index_or left.now w 0) left_mask)
        (bit_xor (slice_index_or right.now w 0) right_mask) }
{
    let whole = words.len() / LANES;
    for k in 0..whole {
        put_lanes(words, LANES * k, left, left_mask, right, right_mask);
    }
    for w in LANES * whole..words.len() {
        words[w] = (left[w] ^ left_mask) & (right[w] ^ right_mask);
    }
}

/// The same of the words that fill the lanes from a place on.
fn put_lanes(
    words: &mut [u64],
    at: usize,
    left: &[u64],
    left_mask: u64,
    right: &[u64],
    right_mask: u64,
)
    requires words { at + LANES ≤ length words.old }
    requires left { at + LANES ≤ length left.now }
    requires right { at + LANES ≤ length right.now }
    ensures { words.new ≡ put_chunk at words.old (zip2 bit_and
        (zip2 bit_xor (chunk at LANES left.now) (replicate LANES left_mask))
        (zip2 bit_xor (chunk at LANES right.now) (replicate LANES right_mask))) }
{
    let left = u64x4::from_slice(&left[at..]) ^ u64x4::splat(left_mask);
    let right = u64x4::from_slice(&right[at..]) ^ u64x4::splat(right_mask);
    (left & right).copy_to_slice(&mut words[at..]);
}

/// Clears the bits behind the first so many.
fn clear_tail(words: &mut [u64], count: u64)
    requires { length words.old ≡ words_of count }
    ensures size { length words.new ≡ length words.old }
    ensures bits { (w b : ℕ) → w < length words.old → b < 64
        → is_set (slice_index_or words.new w 0) b
        ≡ (nat_lt (64 * w + b) count && is_set (slice_index_or words.old w 0) b) }
{
    let rest = count % 64;
    if rest != 0 {
        let last = (count / 64) as usize;
        words[last] &= (1 << rest) - 1;
    }
}
