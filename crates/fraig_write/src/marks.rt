ghost use Rattle.std.specs.Prelude.{◌≡◌, ◌∷◌, ◌+◌, ◌<◌, [], ℕ, Bool, List, length, map, slice_get, true, false, Some, IfOk};
ghost use Rattle.std.specs.List.{list_all};
ghost use Rattle.lits.specs.declared.node.Side.TheVariants.{A};
ghost use Rattle.lits.specs.declared.node.Node.{Node as NodeValue};
ghost use Rattle.netlist.specs.Circuit.{is_over, variables_in};
ghost use Rattle.netlist.specs.Net.{IsNet, lit_named, nodes_of};
ghost use Rattle.lemma_book.specs.Book.{IsLegal};
ghost use Rattle.fraig_write.specs.Marks.{is_in, is_marked, AreMarked, IsWalked};
ghost use Rattle.fraig_write.specs.Reduced.{root_nodes, AreReached};

use lemma_book::Book;
use lits::{Lit, Node, Side};
use netlist::{And, Net};
use std::alloc::{AllocError, Global};
use std::marker::Model;

/// Which nodes are marked, by their positions: a byte a node.
#[derive(Drop)]
pub(crate) struct Marks {
    marks: Vec<bool>,
}

impl Model for Marks {
    ghost use Rattle.std.specs.Prelude.{List, Bool};

    ghost Value = { List Bool };

    ghost view = { λ m. m.marks.items };
}

impl Marks {
    /// Marks the nodes that are reached from the roots of A's outputs and constraints through the roots of
    /// fanins.
    ///
    /// One walk over A's gates from the last to the first is enough: a fanin is earlier than its gate, and a
    /// root is no later than its literal.
    pub(crate) fn of_reached(alloc: Global, net: &Net, book: &Book) -> Result<Marks, AllocError>
        requires net { IsNet net.now }
        requires legal { IsLegal net.now book.now }
        ensures room { IfOk result (λ m. length m ≡ length (nodes_of net.now)) }
        ensures reached { IfOk result
            (λ m. AreReached net.now.a book.now.entries (is_marked net.now m)) }
    {
        let marks = vec![in alloc; false; net.positions() as usize]?;
        let mut marks = Marks { marks };
        marks.mark_ends(net, book);
        marks.mark_fanins(net, book);
        Ok(marks)
    }

    /// Whether the node has a position that is marked.
    pub(crate) fn has(&self, net: &Net, node: Node) -> bool
        requires { length self.now ≡ length (nodes_of net.now) }
        ensures { result ≡ is_marked net.now self.now node }
    {
        match net.position(node) {
            Some(position) => self.marks[position as usize],
            None => false,
        }
    }

    /// Marks the roots of A's outputs and constraints.
    fn mark_ends(&mut self, net: &Net, book: &Book)
        requires net { IsNet net.now }
        requires legal { IsLegal net.now book.now }
        requires room { length self.old ≡ length (nodes_of net.now) }
        requires none { (n : NodeValue) → is_marked net.now self.old n ≡ false }
        ensures { IsWalked net.now book.now.entries (length net.now.a.gates) self.new }
    {
        let a = net.circuit(Side::A);
        self.mark_roots(net, book, a.outputs());
        self.mark_roots(net, book, a.constraints());
    }

    /// Marks the roots of literals of A.
    fn mark_roots(&mut self, net: &Net, book: &Book, literals: &[u32])
        requires net { IsNet net.now }
        requires legal { IsLegal net.now book.now }
        requires room { length self.old ≡ length (nodes_of net.now) }
        requires over { list_all (is_over (variables_in net.now.a)) literals.now ≡ true }
        ensures { AreMarked net.now
            (root_nodes book.now.entries (map (lit_named A net.now.a) literals.now)) self.old self.new }
    {
        for literal in literals {
            let lit = net.lit(Side::A, *literal).unwrap();
            self.mark_root(net, book, lit);
        }
    }

    /// Marks the root of a literal.
    fn mark_root(&mut self, net: &Net, book: &Book, lit: Lit)
        requires net { IsNet net.now }
        requires legal { IsLegal net.now book.now }
        requires room { length self.old ≡ length (nodes_of net.now) }
        requires there { is_in net.now.a lit.node ≡ true }
        ensures { AreMarked net.now (root_nodes book.now.entries (lit ∷ [])) self.old self.new }
    {
        let position = net.position(book.root(lit).node).unwrap();
        self.marks[position as usize] = true;
    }

    /// Walks over A's gates, and marks the roots of the fanins of those that are marked.
    fn mark_fanins(&mut self, net: &Net, book: &Book)
        requires net { IsNet net.now }
        requires legal { IsLegal net.now book.now }
        requires walked { IsWalked net.now book.now.entries (length net.now.a.gates) self.old }
        ensures { IsWalked net.now book.now.entries 0 self.new }
    {
        let mut k = net.circuit(Side::A).gates().len();
        while k > 0 {
            k -= 1;
            self.mark_fanins_of(net, book, k);
        }
    }

    /// Marks the roots of the fanins of gate k of A, where it is marked.
    fn mark_fanins_of(&mut self, net: &Net, book: &Book, k: usize)
        requires net { IsNet net.now }
        requires legal { IsLegal net.now book.now }
        requires gate { k < length net.now.a.gates }
        requires walked { IsWalked net.now book.now.entries (k + 1) self.old }
        ensures { IsWalked net.now book.now.entries k self.new }
    {
        let gate = gate_at(net, k);
        let node = Node::Gate(Side::A, gate.var);
        if !self.has(net, node) {
            return;
        }
        let definition = net.definition(node).unwrap();
        self.mark_root(net, book, definition.left);
        self.mark_root(net, book, definition.right);
    }
}

/// Gate k of A.
fn gate_at(net: &Net, k: usize) -> And
    requires { k < length net.now.a.gates }
    ensures { slice_get net.now.a.gates k ≡ Some result }
{
    net.circuit(Side::A).gates()[k]
}
