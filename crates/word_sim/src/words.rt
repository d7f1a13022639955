ghost use Rattle.std.specs.Prelude.{◌≡◌, ◌<◌, ◌+◌, ◌*◌, ◌^◌, ◌&&◌, nat_lt, ℕ, Bool, true, length, bit_and, bit_xor};
ghost use Rattle.std.specs.List.{slice_index_or};
ghost use Rattle.word_sim.specs.Patterns.{is_set, words_of};
ghost use Rattle.word_sim.specs.Rows.{HasBits, mask_of, turned};

/// Clears the bits behind the first so many.
pub(crate) fn clear_tail(words: &mut [u64], count: u64)
    requires { length words.old ≡ words_of count }
    ensures size { length words.new ≡ length words.old }
    ensures bits { (w b : ℕ) → w < length words.old → b < 64
        → is_set (slice_index_or words.new w 0) b
        ≡ (nat_lt (64 * w + b) count && is_set (slice_index_or words.old w 0) b) }
{
    let rest = count % 64;
    if rest != 0 {
        let last = (count / 64) as usize;
        words[last] &= (1 << rest) - 1;
    }
}

/// The values that are all true.
pub(crate) fn put_true(words: &mut [u64], count: u64)
    requires { length words.old ≡ words_of count }
    ensures { HasBits count (λ p. true) words.new }
{
    for word in words.iter_mut() {
        *word = u64::MAX;
    }
    clear_tail(words, count);
}

/// The values of an AND of two rows, each of which is turned where its mask has all bits.
pub(crate) fn put_both(
    words: &mut [u64],
    left: &[u64],
    left_mask: u64,
    right: &[u64],
    right_mask: u64,
)
    requires left { length left.now ≡ length words.old }
    requires right { length right.now ≡ length words.old }
    ensures size { length words.new ≡ length words.old }
    ensures words { (w : ℕ) → w < length words.old → slice_index_or words.new w 0
        ≡ bit_and (bit_xor (slice_index_or left.now w 0) left_mask)
        (bit_xor (slice_index_or right.now w 0) right_mask) }
{
    for w in 0..words.len() {
        words[w] = (left[w] ^ left_mask) & (right[w] ^ right_mask);
    }
}

/// The mask that turns all bits of a word, or none.
fn mask_of(neg: bool) -> u64
    ensures { result ≡ mask_of neg }
{
    if neg { u64::MAX } else { 0 }
}

/// The values of an AND of two rows of values, each taken as it is or negated.
pub(crate) fn put_gate(
    words: &mut [u64],
    left: &[u64],
    left_neg: bool,
    right: &[u64],
    right_neg: bool,
    count: u64,
)
    requires words { length words.old ≡ words_of count }
    requires left { length left.now ≡ words_of count }
    requires right { length right.now ≡ words_of count }
    ensures size { length words.new ≡ words_of count }
    ensures bits { (f g : ℕ → Bool) → HasBits count f left.now → HasBits count g right.now
        → HasBits count (λ p. turned left_neg (f p) && turned right_neg (g p)) words.new }
{
    put_both(words, left, mask_of(left_neg), right, mask_of(right_neg));
    clear_tail(words, count);
}
