ghost use Rattle.std.specs.Prelude.{◌≡◌, ◌<◌, ◌+◌, Bool, List, length, IfOk};
ghost use Rattle.netlist.specs.Net.{nodes_of};
ghost use Rattle.word_sim.specs.Rows.{AreSignatures};
ghost use Rattle.sig_classes.specs.Leader.{AreTasks};
ghost use Rattle.sig_classes.specs.Chains.{AreBefore};
ghost use Rattle.sig_classes.specs.Pass.{HasFirsts, IsNextTask, is_gate, lit_between, task_at};

use crate::alike::first_bit;
use crate::chains::Firsts;
use lemma_book::{Book, Task};
use lits::{Lit, Node};
use netlist::Net;
use std::alloc::{AllocError, Global};
use word_sim::Sigs;

/// The pairs that are to be asked for, in the order of positions: each gate that isn't merged, with its
/// leader, but not a gate that leads itself, nor one whose query with its leader spent its budget.
///
/// One pass over the rows: each is compared with the first member of its class, found by a hash of the
/// row up to complement, and nothing of a row is copied.
pub fn tasks(alloc: Global, net: &Net, sigs: &Sigs, book: &Book) -> Result<Vec<Task>, AllocError>
    requires sigs { length sigs.now.rows ≡ length (nodes_of net.now) }
    ensures { IfOk result (λ v. (patterns : List (List Bool)) → AreSignatures net.now patterns sigs.now
        → AreTasks net.now book.now.entries patterns v.items) }
{
    netlist::laws::is_net(net);
    let mut firsts = Firsts::with_room(alloc, net.positions())?;
    let mut tasks = Vec::new(alloc);
    for position in 0..net.positions() {
        if let Some(task) = enter(net, sigs, book, &mut firsts, position) {
            tasks.push(task)?;
        }
    }
    Ok(tasks)
}

/// Takes the next position into its class, and gives its task, if one is due.
fn enter(net: &Net, sigs: &Sigs, book: &Book, firsts: &mut Firsts, position: u32) -> Option<Task>
    requires sigs { length sigs.now.rows ≡ length (nodes_of net.now) }
    requires room { length firsts.old.behind ≡ length (nodes_of net.now) }
    requires position { position < length (nodes_of net.now) }
    requires order { AreBefore position firsts.old }
    ensures room { length firsts.new.behind ≡ length firsts.old.behind }
    ensures order { AreBefore (position + 1) firsts.new }
    ensures members { HasFirsts net.now book.now.entries sigs.now position firsts.old
        → HasFirsts net.now book.now.entries sigs.now (position + 1) firsts.new }
    ensures task { HasFirsts net.now book.now.entries sigs.now position firsts.old
        → (patterns : List (List Bool))
        → AreSignatures net.now patterns sigs.now
        → IsNextTask net.now book.now.entries patterns position result }
{
    netlist::laws::is_net(net);
    if book.is_merged(net.node(position)) {
        return None;
    }
    match firsts.find(&[], sigs, position) {
        Some(first) => open_task(net, sigs, book, first, position),
        None => {
            firsts.put(&[], sigs, position);
            None
        }
    }
}

/// The task of a node and its leader, by their positions; none where the node is no gate or the query
/// spent its budget.
pub fn open_task(net: &Net, sigs: &Sigs, book: &Book, leader: u32, position: u32) -> Option<Task>
    requires sigs { length sigs.now.rows ≡ length (nodes_of net.now) }
    requires leader { leader < length (nodes_of net.now) }
    requires position { position < length (nodes_of net.now) }
    ensures { result ≡ task_at net.now book.now.entries sigs.now leader position }
{
    let node = net.node(position);
    let lit = lit_between(net, sigs, leader, position);
    if is_gate(node) && !book.is_spent(node, lit) {
        Some(Task { node, lit })
    } else {
        None
    }
}

/// The node at the leader's position, or its complement, as the rows of both begin.
pub fn lit_between(net: &Net, sigs: &Sigs, leader: u32, position: u32) -> Lit
    requires sigs { length sigs.now.rows ≡ length (nodes_of net.now) }
    requires leader { leader < length (nodes_of net.now) }
    requires position { position < length (nodes_of net.now) }
    ensures { result ≡ lit_between net.now sigs.now leader position }
{
    Lit {
        node: net.node(leader),
        neg: first_bit(sigs.row(leader)) != first_bit(sigs.row(position)),
    }
}

/// Whether the node may be merged. The constant and inputs are what gates are merged to, and an XOR is asked
/// about as an output.
fn is_gate(node: Node) -> bool
    ensures { result ≡ is_gate node }
{
    match node {
        Node::Gate(..) => true,
        Node::Const | Node::Input(_) | Node::Xor(_) => false,
    }
}
