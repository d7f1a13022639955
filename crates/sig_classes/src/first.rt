ghost use Rattle.std.specs.Prelude.{◌≡◌, ◌<◌, ◌&&◌, Bool, List, length};
ghost use Rattle.std.specs.List.{AllByRecursion};
ghost use Rattle.std.specs.Option.{IsSome};
ghost use Rattle.netlist.specs.Net.{nodes_of, position_of};
ghost use Rattle.word_sim.specs.Rows.{AreSignatures};
ghost use Rattle.lemma_book.specs.Book.{IsLegal};
ghost use Rattle.sig_classes.specs.Leader.{IsLeader};
ghost use Rattle.sig_classes.specs.Chains.{are_alike};
ghost use Rattle.sig_classes.specs.Pass.{root_at};

use crate::alike::is_alike;
use crate::classes::lit_between;
use lemma_book::Book;
use lits::{Lit, Node};
use netlist::Net;
use word_sim::Sigs;

/// The leader of a node: of the nodes that aren't merged, the first in the order of positions that
/// equals it, or whose complement does, on each pattern. It looks through all nodes before that one.
pub fn leader(net: &Net, sigs: &Sigs, book: &Book, node: Node) -> Lit
    requires legal { IsLegal net.now book.now }
    requires node { IsSome (position_of net.now node) }
    requires sigs { length sigs.now.rows ≡ length (nodes_of net.now) }
    ensures { (patterns : List (List Bool)) → AreSignatures net.now patterns sigs.now
        → AllByRecursion (λ bits. length bits ≡ length net.now.a.inputs) patterns
        → IsLeader net.now book.now.entries patterns node result }
{
    netlist::laws::is_net(net);
    lemma_book::laws::roots_keep_values(net, book);
    let place = net.position(node).unwrap();
    for position in 0..net.positions() {
        if leads(net, sigs, book, position, place) {
            return lit_between(net, sigs, position, place);
        }
    }
    Lit { node, neg: false }
}

/// Whether the node at a position isn't merged and has a row alike to that at a place.
fn leads(net: &Net, sigs: &Sigs, book: &Book, position: u32, place: u32) -> bool
    requires sigs { length sigs.now.rows ≡ length (nodes_of net.now) }
    requires position { position < length (nodes_of net.now) }
    requires place { place < length (nodes_of net.now) }
    ensures { result ≡ (root_at net.now book.now.entries position && are_alike sigs.now position place) }
{
    !book.is_merged(net.node(position))
        && is_alike(sigs.row(position), sigs.row(place), sigs.patterns())
}
