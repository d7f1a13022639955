ghost use Rattle.std.specs.Prelude.{◌≡◌, ◌≤◌, ◌<◌, ◌+◌, ◌*◌, ◌&&◌, ℕ, Bool, length, take};
ghost use Rattle.lane_sim.specs.Known.{AreKnown};
ghost use Rattle.netlist.specs.Net.{nodes_of};
ghost use Rattle.word_sim.specs.Patterns.{words_of};
ghost use Rattle.word_sim.specs.Rows.{AreFilled, AreRows, HasBits, IsPut, row_at, turned};

use crate::lanes::put_gate;
use netlist::{Fanins, Net, laws};
use word_sim::{Pool, fill_sources};

/// What is known of the rows of all nodes before they are filled: the first words of each.
#[derive(Clone, Copy)]
pub(crate) struct Known<'a> {
    /// Rows that stand one after another.
    pub rows: &'a [u64],
    /// How many words each of them has.
    pub stride: usize,
    /// How many of these are known.
    pub words: usize,
}

/// Writes the row of every node on every pattern of the pool, as `word_sim::fill` does: that of position p
/// stands at `p * words`, and bit b of its word w is the node's value on pattern 64 w + b. The bits behind
/// the last pattern are 0.
pub fn fill(net: &Net, pool: &Pool, buf: &mut [u64])
    requires inputs { pool.now.inputs ≡ length net.now.a.inputs }
    requires room { length buf.old ≡ length (nodes_of net.now) * words_of (length pool.now.patterns) }
    ensures { AreRows net.now pool.now.patterns buf.new }
{
    let nothing = Known {
        rows: &[],
        stride: 0,
        words: 0,
    };
    fill_behind(net, pool, nothing, buf);
}

/// Writes all rows, whose first words are known.
pub(crate) fn fill_behind(net: &Net, pool: &Pool, known: Known, buf: &mut [u64])
    requires inputs { pool.now.inputs ≡ length net.now.a.inputs }
    requires room { length buf.old ≡ length (nodes_of net.now) * words_of (length pool.now.patterns) }
    requires known { AreKnown net.now pool.now.patterns known.words known.stride known.rows.now }
    ensures { AreRows net.now pool.now.patterns buf.new }
{
    fill_sources(net, pool, buf);
    fill_gates(net, pool, known, buf);
}

/// The rows of the gates.
fn fill_gates(net: &Net, pool: &Pool, known: Known, buf: &mut [u64])
    requires inputs { pool.now.inputs ≡ length net.now.a.inputs }
    requires known { AreKnown net.now pool.now.patterns known.words known.stride known.rows.now }
    requires filled { AreFilled net.now pool.now.patterns (1 + length net.now.a.inputs) buf.old }
    ensures { AreRows net.now pool.now.patterns buf.new }
{
    laws::is_net(net);
    let words = pool.words() as usize;
    let count = pool.patterns();
    let first = 1 + pool.inputs() as usize;
    for (k, gate) in net.all_fanins().iter().enumerate() {
        let position = first + k;
        let row = first_words(known, position);
        fill_gate(*gate, row, buf, position, words, count);
    }
}

/// The known words of a row.
fn first_words(known: Known, position: usize) -> &[u64]
    requires wide { known.words ≤ known.stride }
    requires room { (position + 1) * known.stride ≤ length known.rows.now }
    ensures { result.now ≡ take known.entry.words (row_at known.entry.stride position known.entry.rows.now) }
{
    let from = position * known.stride;
    &known.rows[from..from + known.words]
}

/// The row of the gate with a position, of its first words, which are known, and the rows of its fanins.
fn fill_gate(
    gate: Fanins,
    known: &[u64],
    buf: &mut [u64],
    position: usize,
    words: usize,
    count: u64,
)
    requires left { gate.left.position < position }
    requires right { gate.right.position < position }
    requires words { words ≡ words_of count }
    requires known { 64 * length known.now ≤ count }
    requires room { (position + 1) * words ≤ length buf.old }
    ensures put { IsPut words position buf.old buf.new }
    ensures row { (f g : ℕ → Bool) → HasBits count f (row_at words gate.left.position buf.old)
        → HasBits count g (row_at words gate.right.position buf.old)
        → HasBits (64 * length known.now) (λ p. turned gate.left.neg (f p) && turned gate.right.neg (g p))
        known.now
        → HasBits count (λ p. turned gate.left.neg (f p) && turned gate.right.neg (g p))
        (row_at words position buf.new) }
{
    let (done, rest) = buf.split_at_mut(position * words);
    let left = row(done, gate.left.position, words);
    let right = row(done, gate.right.position, words);
    put_row(
        &mut rest[..words],
        known,
        left,
        gate.left.neg,
        right,
        gate.right.neg,
        count,
    );
}

/// The row of a position.
fn row(rows: &[u64], position: u32, words: usize) -> &[u64]
    requires { (position + 1) * words ≤ length rows.now }
    ensures { result.now ≡ row_at words position rows.now }
{
    let from = position as usize * words;
    &rows[from..from + words]
}

/// The row of a gate, of its first words, which are known, and the words of its fanins' rows behind those.
///
/// Where nothing is known nothing is copied: a copy of no words is a call, which costs more than a short row.
fn put_row(
    row: &mut [u64],
    known: &[u64],
    left: &[u64],
    left_neg: bool,
    right: &[u64],
    right_neg: bool,
    count: u64,
)
    requires row { length row.old ≡ words_of count }
    requires left { length left.now ≡ words_of count }
    requires right { length right.now ≡ words_of count }
    requires known { 64 * length known.now ≤ count }
    ensures size { length row.new ≡ words_of count }
    ensures bits { (f g : ℕ → Bool) → HasBits count f left.now → HasBits count g right.now
        → HasBits (64 * length known.now) (λ p. turned left_neg (f p) && turned right_neg (g p)) known.now
        → HasBits count (λ p. turned left_neg (f p) && turned right_neg (g p)) row.new }
{
    if known.is_empty() {
        put_gate(row, left, left_neg, right, right_neg, count);
    } else {
        put_behind(row, known, left, left_neg, right, right_neg, count);
    }
}

/// The same, of words that are copied and others behind them.
fn put_behind(
    row: &mut [u64],
    known: &[u64],
    left: &[u64],
    left_neg: bool,
    right: &[u64],
    right_neg: bool,
    count: u64,
)
    requires row { length row.old ≡ words_of count }
    requires left { length left.now ≡ words_of count }
    requires right { length right.now ≡ words_of count }
    requires known { 64 * length known.now ≤ count }
    ensures size { length row.new ≡ words_of count }
    ensures bits { (f g : ℕ → Bool) → HasBits count f left.now → HasBits count g right.now
        → HasBits (64 * length known.now) (λ p. turned left_neg (f p) && turned right_neg (g p)) known.now
        → HasBits count (λ p. turned left_neg (f p) && turned right_neg (g p)) row.new }
{
    let (first, new) = row.split_at_mut(known.len());
    first.copy_from_slice(known);
    put_gate(
        new,
        &left[known.len()..],
        left_neg,
        &right[known.len()..],
        right_neg,
        count - 64 * known.len() as u64,
    );
}
