ghost use Rattle.std.specs.Prelude.{◌≡◌, ◌≤◌, ◌<◌, ◌*◌, length};
ghost use Rattle.word_sim.specs.Patterns.{words_of};
ghost use Rattle.word_sim.specs.Rows.{mask_of};
ghost use Rattle.sig_classes.specs.Alike.{alike, bucket_of, filled_mask, first_bit, hash_of, mixed, normal_word};

/// The first bit of a row of values.
pub fn first_bit(row: &[u64]) -> bool
    ensures { result ≡ first_bit row.now }
{
    match row.first() {
        Some(word) => *word & 1 == 1,
        None => false,
    }
}

/// All bits where the row is to be turned, else none.
fn turn_of(row: &[u64]) -> u64
    ensures { result ≡ mask_of (first_bit row.now) }
{
    if first_bit(row) { u64::MAX } else { 0 }
}

/// The bits of word w that so many values fill.
fn filled_mask(count: u64, w: usize) -> u64
    requires { 64 * w ≤ count }
    ensures { result ≡ filled_mask count w }
{
    let rest = count - 64 * w as u64;
    if rest < 64 { (1 << rest) - 1 } else { u64::MAX }
}

/// Word w of the normal form of a row of so many values.
fn normal_word(row: &[u64], turn: u64, w: usize, count: u64) -> u64
    requires size { length row.now ≡ words_of count }
    requires word { w < length row.now }
    requires turn { turn ≡ mask_of (first_bit row.now) }
    ensures { result ≡ normal_word count row.now w }
{
    (row[w] ^ turn) & filled_mask(count, w)
}

/// Whether two rows of so many values are equal or complements.
pub fn is_alike(a: &[u64], b: &[u64], count: u64) -> bool
    requires a { length a.now ≡ words_of count }
    requires b { length b.now ≡ words_of count }
    ensures { result ≡ alike count a.now b.now }
{
    let turn_a = turn_of(a);
    let turn_b = turn_of(b);
    for w in 0..a.len() {
        if normal_word(a, turn_a, w, count) != normal_word(b, turn_b, w, count) {
            return false;
        }
    }
    true
}

/// One step of a hash.
///
/// It multiplies by 2 to the 64 over the golden ratio (Knuth, The Art of Computer Programming 6.4), and lets
/// the upper bits count for the next word.
fn mixed(hash: u64, word: u64) -> u64
    ensures { result ≡ mixed hash word }
{
    let product = (hash ^ word).wrapping_mul(0x9E37_79B9_7F4A_7C15);
    product ^ (product >> 32)
}

/// A hash of a class and the row's normal form: alike rows of one class have the same.
fn hash(class: u32, row: &[u64], count: u64) -> u64
    requires { length row.now ≡ words_of count }
    ensures { result ≡ hash_of class count row.now }
{
    let turn = turn_of(row);
    let mut hash = u64::from(class);
    for w in 0..row.len() {
        hash = mixed(hash, normal_word(row, turn, w, count));
    }
    hash
}

/// The bucket of a class and a row among so many.
pub fn bucket(class: u32, row: &[u64], count: u64, buckets: u32) -> usize
    requires size { length row.now ≡ words_of count }
    requires some { 0 < buckets }
    ensures bucket { result ≡ bucket_of buckets (hash_of class count row.now) }
    ensures inside { result < buckets }
{
    let upper = hash(class, row, count) >> 32;
    (upper * u64::from(buckets) >> 32) as usize
}
