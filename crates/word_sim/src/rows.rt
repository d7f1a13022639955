ghost use Rattle.std.specs.Prelude.{◌≡◌, ◌≤◌, ◌<◌, ◌+◌, ◌*◌, ◌&&◌, ℕ, Bool, length};
ghost use Rattle.netlist.specs.Net.{nodes_of};
ghost use Rattle.word_sim.specs.Patterns.{truth_of, words_of};
ghost use Rattle.word_sim.specs.Rows.{AreFilled, AreRows, HasBits, IsKeptFrom, IsPut, row_at, turned};

use crate::pool::Pool;
use crate::words::{put_gate, put_true};
use netlist::{Fanins, Net, laws};

/// Writes the row of every node on every pattern of the pool: that of position p stands at `p * words`,
/// and bit b of its word w is the node's value on pattern 64 w + b. The bits behind the last pattern
/// are 0.
///
/// Each gate is touched once, in the order of positions, and its fanins are found by their positions.
pub fn fill(net: &Net, pool: &Pool, buf: &mut [u64])
    requires inputs { pool.now.inputs ≡ length net.now.a.inputs }
    requires room { length buf.old ≡ length (nodes_of net.now) * words_of (length pool.now.patterns) }
    ensures { AreRows net.now pool.now.patterns buf.new }
{
    laws::is_net(net);
    fill_sources(net, pool, buf);
    fill_gates(net, pool, buf);
}

/// Writes the rows of the nodes that no gate defines, the constant and the inputs, where `fill` writes them,
/// and nothing else.
pub fn fill_sources(net: &Net, pool: &Pool, buf: &mut [u64])
    requires inputs { pool.now.inputs ≡ length net.now.a.inputs }
    requires room { length buf.old ≡ length (nodes_of net.now) * words_of (length pool.now.patterns) }
    ensures filled { AreFilled net.now pool.now.patterns (1 + length net.now.a.inputs) buf.new }
    ensures rest { IsKeptFrom (words_of (length pool.now.patterns)) (1 + length net.now.a.inputs)
        buf.old buf.new }
{
    fill_constant(net, pool, buf);
    fill_inputs(net, pool, buf);
}

/// The row of the constant, which is true.
fn fill_constant(net: &Net, pool: &Pool, buf: &mut [u64])
    requires { length buf.old ≡ length (nodes_of net.now) * words_of (length pool.now.patterns) }
    ensures filled { AreFilled net.now pool.now.patterns 1 buf.new }
    ensures rest { IsKeptFrom (words_of (length pool.now.patterns)) 1 buf.old buf.new }
{
    put_true(&mut buf[..pool.words() as usize], pool.patterns());
}

/// The rows of the inputs.
fn fill_inputs(net: &Net, pool: &Pool, buf: &mut [u64])
    requires inputs { pool.now.inputs ≡ length net.now.a.inputs }
    requires filled { AreFilled net.now pool.now.patterns 1 buf.old }
    ensures filled { AreFilled net.now pool.now.patterns (1 + length net.now.a.inputs) buf.new }
    ensures rest { IsKeptFrom (words_of (length pool.now.patterns)) (1 + length net.now.a.inputs)
        buf.old buf.new }
{
    for input in 0..pool.inputs() {
        fill_input(pool, input, buf);
    }
}

/// The row of an input, whose position is the next after its index.
fn fill_input(pool: &Pool, input: u32, buf: &mut [u64])
    requires input { input < pool.now.inputs }
    requires room { (input + 2) * words_of (length pool.now.patterns) ≤ length buf.old }
    ensures put { IsPut (words_of (length pool.now.patterns)) (input + 1) buf.old buf.new }
    ensures row { HasBits (length pool.now.patterns) (truth_of pool.now.patterns input)
        (row_at (words_of (length pool.now.patterns)) (input + 1) buf.new) }
    ensures rest { IsKeptFrom (words_of (length pool.now.patterns)) (input + 1 + 1) buf.old buf.new }
{
    let words = pool.words() as usize;
    let (_, rest) = buf.split_at_mut((input as usize + 1) * words);
    put_input(pool, input, &mut rest[..words]);
}

/// The values of an input.
fn put_input(pool: &Pool, input: u32, row: &mut [u64])
    requires input { input < pool.now.inputs }
    requires words { length row.old ≡ words_of (length pool.now.patterns) }
    ensures { HasBits (length pool.now.patterns) (truth_of pool.now.patterns input) row.new }
{
    for w in 0..pool.words() {
        row[w as usize] = pool.word(input, w);
    }
}

/// The rows of the gates.
fn fill_gates(net: &Net, pool: &Pool, buf: &mut [u64])
    requires inputs { pool.now.inputs ≡ length net.now.a.inputs }
    requires filled { AreFilled net.now pool.now.patterns (1 + length net.now.a.inputs) buf.old }
    ensures { AreRows net.now pool.now.patterns buf.new }
{
    laws::is_net(net);
    let words = pool.words() as usize;
    let count = pool.patterns();
    let first = 1 + pool.inputs() as usize;
    for (k, gate) in net.all_fanins().iter().enumerate() {
        fill_gate(*gate, buf, first + k, words, count);
    }
}

/// The row of the gate with a position, of the rows of its fanins.
pub(crate) fn fill_gate(gate: Fanins, buf: &mut [u64], position: usize, words: usize, count: u64)
    requires left { gate.left.position < position }
    requires right { gate.right.position < position }
    requires words { words ≡ words_of count }
    requires room { (position + 1) * words ≤ length buf.old }
    ensures put { IsPut words position buf.old buf.new }
    ensures rest { IsKeptFrom words (position + 1) buf.old buf.new }
    ensures row { (f g : ℕ → Bool) → HasBits count f (row_at words gate.left.position buf.old)
        → HasBits count g (row_at words gate.right.position buf.old)
        → HasBits count (λ p. turned gate.left.neg (f p) && turned gate.right.neg (g p))
        (row_at words position buf.new) }
{
    let (done, rest) = buf.split_at_mut(position * words);
    let left = row(done, gate.left.position, words);
    let right = row(done, gate.right.position, words);
    put_gate(
        &mut rest[..words],
        left,
        gate.left.neg,
        right,
        gate.right.neg,
        count,
    );
}

/// The row of a position.
pub(crate) fn row(rows: &[u64], position: u32, words: usize) -> &[u64]
    requires { (position + 1) * words ≤ length rows.now }
    ensures { result.now ≡ row_at words position rows.now }
{
    let from = position as usize * words;
    &rows[from..from + words]
}
