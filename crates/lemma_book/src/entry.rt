ghost use Rattle.std.specs.Prelude.{◌≡◌};
ghost use Rattle.lemma_book.specs.Entry.{subject_of};

use lits::{Listed, Lit, Node, Step};

/// A pair to be settled: whether a gate has the value of a literal of an earlier node.
#[derive(Clone, Copy, PartialEq, Eq, Hash)]
pub struct Task {
    pub node: Node,
    pub lit: Lit,
}

/// What the book says of two nodes, or of one output by its index from 0.
///
/// Nodes are merged as in SAT sweeping (Kuehlmann, Paruthi, Krohm and Ganai 2002): the later node
/// stands for a literal of the earlier one from then on.
pub enum Entry {
    /// The node has the value of the literal, which is that of an earlier node: the steps end with the
    /// two clauses that say so.
    Merge {
        node: Node,
        lit: Lit,
        steps: Listed<Step>,
    },
    /// Node and literal differ on these truth values of the inputs.
    Apart {
        node: Node,
        lit: Lit,
        input: Listed<bool>,
    },
    /// A query of node and literal over the first `seen` entries spent its budget for these learned clauses.
    Spent {
        node: Node,
        lit: Lit,
        seen: u64,
        log: Listed<Step>,
    },
    /// Both circuits give the output one value on each admitted input: the steps end with the unit that says
    /// so.
    Out {
        output: u32,
        steps: Listed<Step>,
    },
    /// The output differs on these truth values of the inputs, which make all constraints true.
    OutApart {
        output: u32,
        input: Listed<bool>,
    },
    /// A query of the output over the first `seen` entries spent its budget for these learned clauses.
    OutSpent {
        output: u32,
        seen: u64,
        log: Listed<Step>,
    },
}

// Written out, so that a drop is one call and not one for each kind at each exit of a function.
impl Drop for Entry {
    fn drop(self) {
        match self {
            Entry::Merge {
                node: _,
                lit: _,
                steps: _,
            } => {}
            Entry::Apart {
                node: _,
                lit: _,
                input: _,
            } => {}
            Entry::Spent {
                node: _,
                lit: _,
                seen: _,
                log: _,
            } => {}
            Entry::Out {
                output: _,
                steps: _,
            } => {}
            Entry::OutApart {
                output: _,
                input: _,
            } => {}
            Entry::OutSpent {
                output: _,
                seen: _,
                log: _,
            } => {}
        }
    }
}

/// What a book has one entry of at most: a node's merge, and what is known of an output.
#[derive(Clone, Copy, PartialEq, Eq, Hash)]
pub enum Subject {
    Merged(Node),
    Output(u32),
}

impl Entry {
    /// The subject of an entry; none for what is said of two nodes without merging them.
    pub fn subject(&self) -> Option<Subject>
        ensures { result ≡ subject_of self.now }
    {
        match self {
            Entry::Merge { node, .. } => Some(Subject::Merged(*node)),
            Entry::Apart { .. } | Entry::Spent { .. } => None,
            Entry::Out { output, .. }
            | Entry::OutApart { output, .. }
            | Entry::OutSpent { output, .. } => Some(Subject::Output(*output)),
        }
    }
}
