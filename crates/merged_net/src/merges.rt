use crate::codes::{code_of, first_gate, lit_code};
use lemma_book::{Book, Entry};
use lits::{Lit, Node};
use netlist::{Fanins, Net};
use std::alloc::{AllocError, Global};

/// What is known of a node.
#[derive(Clone, Copy)]
struct Known {
    /// The place of the entry that merges the node, and 1; 0 where none does.
    entry: u32,
    /// The target of the merge, as a code: twice the target's position, and 1 where it is negated.
    target: u32,
    /// The length of the longest way down to an input.
    depth: u32,
    /// The code, and 1, of the last query about the node that spent its budget; else 0.
    spent: u32,
}

const NOTHING: Known = Known {
    entry: 0,
    target: 0,
    depth: 0,
    spent: 0,
};

/// The circuit by positions: what a book merges, the gates' fanins, and how deep each node lies.
///
/// A node's merge is read from a table and not from the book's index, since a search asks for it at every
/// node.
#[derive(Drop)]
pub struct Merges {
    /// For each position what is known of its node.
    nodes: Vec<Known>,
    /// The position of the first gate.
    first_gate: u32,
    /// How many entries of the book were read.
    seen: u64,
}

/// What defines the value of a node, in codes of positions.
#[derive(Clone, Copy)]
pub enum Source {
    /// An input.
    Free,
    /// The entry at this place merges the node to this code.
    Merged(u32, u32),
    /// The AND of these codes.
    Gate(u32, u32),
}

impl Merges {
    /// The circuit without merges.
    pub fn of(alloc: Global, net: &Net) -> Result<Merges, AllocError> {
        let mut merges = Merges {
            nodes: vec![in alloc; NOTHING; net.positions() as usize]?,
            first_gate: first_gate(net),
            seen: 0,
        };
        merges.measure(net);
        Ok(merges)
    }

    /// Measures the depths of the gates.
    fn measure(&mut self, net: &Net) {
        let mut position = self.first_gate;
        for fanins in net.all_fanins() {
            let left = self.depth(fanins.left.position);
            let right = self.depth(fanins.right.position);
            let mut known = self.known(position);
            known.depth = left.max(right).saturating_add(1);
            self.set(position, known);
            position = position.saturating_add(1);
        }
    }

    /// What is known of the node at a position.
    fn known(&self, position: u32) -> Known {
        match self.nodes.get(position as usize) {
            Some(known) => *known,
            None => NOTHING,
        }
    }

    /// Says what is known of the node at a position.
    fn set(&mut self, position: u32, known: Known) {
        let position = position as usize;
        if position < self.nodes.len() {
            self.nodes[position] = known;
        }
    }

    /// How deep the node at a position lies.
    pub fn depth(&self, position: u32) -> u32 {
        self.known(position).depth
    }

    /// Whether the position is that of an input.
    pub fn is_input(&self, position: u32) -> bool {
        0 < position && position < self.first_gate
    }

    /// Reads the entries of the book that are new. Whether it is another book than before.
    pub fn catch_up(&mut self, net: &Net, book: &Book) -> bool {
        let is_other = book.len() < self.seen;
        if is_other {
            self.forget();
        }
        for place in self.seen..book.len() {
            match book.entry(place) {
                Some(Entry::Merge { node, lit, .. }) => self.note(net, place, *node, *lit),
                Some(Entry::Spent { node, lit, .. }) => self.note_spent(net, *node, *lit),
                _ => {}
            }
        }
        self.seen = book.len();
        is_other
    }

    /// Forgets what was read, where the book is another one.
    fn forget(&mut self) {
        self.seen = 0;
        for known in self.nodes.iter_mut() {
            known.entry = 0;
            known.spent = 0;
        }
    }

    /// Notes that an entry merges the node to the literal.
    fn note(&mut self, net: &Net, place: u64, node: Node, lit: Lit) {
        let Ok(place) = u32::try_from(place) else {
            return;
        };
        if let (Some(position), Some(target)) = (net.position(node), lit_code(net, lit)) {
            let mut known = self.known(position);
            known.entry = place.saturating_add(1);
            known.target = target;
            self.set(position, known);
        }
    }

    /// Notes that the query of a pair spent its budget.
    fn note_spent(&mut self, net: &Net, node: Node, lit: Lit) {
        if let (Some(position), Some(target)) = (net.position(node), lit_code(net, lit)) {
            let mut known = self.known(position);
            known.spent = target.saturating_add(1);
            self.set(position, known);
        }
    }

    /// The code that a node was last compared with, if it isn't merged and the query spent its budget.
    pub fn open(&self, position: u32) -> Option<u32> {
        let known = self.known(position);
        if known.entry > 0 || known.spent == 0 {
            return None;
        }
        Some(known.spent - 1)
    }

    /// Whether the node at a position is a gate with a fanin whose own pair is open.
    pub fn is_above_open(&self, net: &Net, position: u32) -> bool {
        match self.source(net, position) {
            Source::Gate(left, right) => {
                self.open(left / 2).is_some() || self.open(right / 2).is_some()
            }
            _ => false,
        }
    }

    /// What defines the node at a position.
    pub fn source(&self, net: &Net, position: u32) -> Source {
        let known = self.known(position);
        if known.entry > 0 {
            return Source::Merged(known.entry - 1, known.target);
        }
        if position < self.first_gate {
            return Source::Free;
        }
        match net.fanins(position - self.first_gate) {
            Some(Fanins { left, right }) => Source::Gate(code_of(left), code_of(right)),
            None => Source::Free,
        }
    }
}
