ghost use Rattle.std.specs.Prelude.{◌≡◌, ◌<◌, length, OnOk};
ghost use Rattle.netlist.specs.Net.{nodes_of};
ghost use Rattle.lemma_book.specs.Book.{IsLegal};
ghost use Rattle.sweep_workers.specs.Swept.{IsPoolFor};

use crate::patterns::{difference_in, join, mask_of};
use circuit_search::{Caps, Search};
use lemma_book::{Book, Entry, Task};
use lits::{Lit, Node, Side};
use netlist::Net;
use std::alloc::{AllocError, Global};
use word_sim::{Pool, Sigs, signatures};

/// How many words of the pool's patterns tell which gates are rare.
const WORDS: u32 = 4;

/// How many of a circuit's rare gates are tried.
const MOST: u32 = 64;

/// How far the search for one goes: most are reached without a choice.
const CAPS: Caps = Caps {
    conflicts: 10,
    decisions: 200,
};

/// A gate that has one value on all of some patterns.
#[derive(Clone, Copy)]
struct Rare {
    position: u32,
    node: Node,
    value: bool,
}

/// An input on which an output differs, among those that give rare gates their other value.
///
/// Where two circuits differ on a single input, hardly a drawn pattern is that one; but then some gate has its
/// other value nearly nowhere else, and a short search from that gate to the inputs finds it. So the gates that
/// have one value on all of some patterns are tried, from the last one on, and what they lead to is evaluated at
/// the outputs. Nothing is tried where each output's sides are one root.
pub(crate) fn rare_difference(
    alloc: Global,
    net: &Net,
    book: &Book,
    pool: &Pool,
) -> Result<Option<Vec<bool>>, AllocError>
    requires legal { IsLegal net.now book.now }
    requires fits { IsPoolFor net.now pool.now }
{
    if !has_open_output(net, book) {
        return Ok(None);
    }
    let part = pool.part(alloc, 0, WORDS)?;
    let sigs = signatures(alloc, net, &part)?;
    let mut search = Search::new(alloc, net)?;
    let mut inputs = pool.part(alloc, 0, 1)?;
    let gates = rare_gates(alloc, net, book, &sigs, Side::A)?;
    reach(alloc, net, book, gates.as_slice(), &mut search, &mut inputs)?;
    let gates = rare_gates(alloc, net, book, &sigs, Side::B)?;
    reach(alloc, net, book, gates.as_slice(), &mut search, &mut inputs)?;
    match difference_in(alloc, net, &inputs)? {
        Some(difference) => Ok(Some(Vec::from_slice(alloc, difference.input.as_slice())?)),
        None => Ok(None),
    }
}

/// Whether the sides of some output have two roots.
fn has_open_output(net: &Net, book: &Book) -> bool {
    for output in 0..net.outputs() {
        let sides = (net.output(Side::A, output), net.output(Side::B, output));
        if let (Some(first), Some(second)) = sides {
            if book.root(first) != book.root(second) {
                return true;
            }
        }
    }
    false
}

/// The rare gates of one circuit that aren't merged, from the last one on.
fn rare_gates(
    alloc: Global,
    net: &Net,
    book: &Book,
    sigs: &Sigs,
    side: Side,
) -> Result<Vec<Rare>, AllocError>
    requires { length sigs.now.rows ≡ length (nodes_of net.now) }
{
    let mut gates = Vec::new(alloc);
    for position in (0..net.positions()).rev() {
        if let Some(value) = steady(sigs, position) {
            let node = net.node(position);
            if is_of(node, side) && !book.is_merged(node) {
                gates.push(Rare {
                    position,
                    node,
                    value,
                })?;
            }
        }
    }
    Ok(gates)
}

/// Whether the node is a gate of this circuit.
fn is_of(node: Node, side: Side) -> bool {
    match node {
        Node::Gate(other, _) => other == side,
        Node::Const | Node::Input(_) | Node::Xor(_) => false,
    }
}

/// The value of a node that has it on all patterns, where they fill their words.
fn steady(sigs: &Sigs, position: u32) -> Option<bool>
    requires { position < length sigs.now.rows }
{
    let row = sigs.row(position);
    let value = !row.is_empty() && row[0] & 1 == 1;
    for word in row {
        if *word != mask_of(value) {
            return None;
        }
    }
    Some(value)
}

/// Lets the inputs join that give rare gates of a circuit their other value, as far as a short search finds them.
///
/// An AND that becomes true has true fanins, so these need no search of their own: only where the search fails
/// for a gate are its fanins tried. On a decoder with one wrong input the wrong minterm is reached so, below two
/// gates of the output's XOR, of which one is never true.
fn reach(
    alloc: Global,
    net: &Net,
    book: &Book,
    gates: &[Rare],
    search: &mut Search,
    inputs: &mut Pool,
) -> Result<(), AllocError>
    requires legal { IsLegal net.now book.now }
    requires fits { IsPoolFor net.now inputs.old }
    ensures { OnOk result (IsPoolFor net.now inputs.new) }
{
    let mut led = vec![in alloc; false; 2 * net.positions() as usize]?;
    let mut left = MOST;
    for gate in gates {
        let is_reached = is_marked(&led, gate);
        if is_reached || try_gate(alloc, net, book, gate, search, &mut left, inputs)? {
            lead(&mut led, net, gate);
        }
    }
    Ok(())
}

/// Lets an input join that gives a gate its other value. Tells whether one was found.
fn try_gate(
    alloc: Global,
    net: &Net,
    book: &Book,
    gate: &Rare,
    search: &mut Search,
    left: &mut u32,
    inputs: &mut Pool,
) -> Result<bool, AllocError>
    requires legal { IsLegal net.now book.now }
    requires fits { IsPoolFor net.now inputs.old }
    ensures { OnOk result (IsPoolFor net.now inputs.new) }
{
    if *left == 0 {
        return Ok(false);
    }
    *left -= 1;
    let found = search.pair(alloc, net, book, &task_of(gate), CAPS)?;
    if let Some(Entry::Apart { ref input, .. }) = found {
        join(inputs, input.as_slice())?;
        return Ok(true);
    }
    Ok(false)
}

/// The question whether a gate always has its value.
fn task_of(gate: &Rare) -> Task {
    let Rare { node, value, .. } = *gate;
    let lit = Lit {
        node: Node::Const,
        neg: !value,
    };
    Task { node, lit }
}

/// Marks the fanins of an AND that becomes true as literals that do.
fn lead(led: &mut [bool], net: &Net, gate: &Rare) {
    if gate.value {
        return;
    }
    let first = net.positions().wrapping_sub(net.all_fanins().len() as u32);
    if let Some(fanins) = net.fanins(gate.position.wrapping_sub(first)) {
        mark(led, fanins.left.position, fanins.left.neg);
        mark(led, fanins.right.position, fanins.right.neg);
    }
}

/// Marks a literal.
fn mark(led: &mut [bool], position: u32, neg: bool) {
    let place = place_of(position, neg);
    if place < led.len() {
        led[place] = true;
    }
}

/// Whether the literal is marked that is true where the gate has its other value.
fn is_marked(led: &[bool], gate: &Rare) -> bool {
    let place = place_of(gate.position, gate.value);
    place < led.len() && led[place]
}

/// The place of a literal's mark.
fn place_of(position: u32, neg: bool) -> usize {
    2 * position as usize + usize::from(neg)
}
