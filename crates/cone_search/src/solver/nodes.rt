use search_parts::{at, put};
use std::alloc::{AllocError, Global};

/// What is known of a node that some cone has.
#[derive(Clone, Copy)]
pub(crate) struct Node {
    pub(crate) position: u32,
    /// The number of the query whose cone had it last.
    pub(crate) query: u32,
    /// Whether its clauses are loaded.
    pub(crate) is_loaded: bool,
    /// The code of the position, and 1, that it was found to be equal to; else 0.
    pub(crate) equal: u32,
}

const NOTHING: Node = Node {
    position: 0,
    query: 0,
    is_loaded: false,
    equal: 0,
};

/// The nodes that have a variable, numbered in the order in which cones came to them.
#[derive(Drop)]
pub(crate) struct Nodes {
    /// For each position the number of its variable, and 1; 0 where it has none.
    numbers: Vec<u32>,
    nodes: Vec<Node>,
}

impl Nodes {
    /// No nodes, and no tables before the first cone.
    pub(crate) fn new(alloc: Global) -> Nodes {
        Nodes {
            numbers: Vec::new(alloc),
            nodes: Vec::new(alloc),
        }
    }

    /// Makes the table of a net with so many positions, if it isn't there.
    pub(crate) fn prepare(&mut self, positions: u32) -> Result<(), AllocError> {
        if self.numbers.is_empty() {
            self.numbers.resize(positions as usize, 0)?;
        }
        Ok(())
    }

    /// Forgets all nodes.
    pub(crate) fn clear(&mut self) {
        for node in self.nodes.as_slice() {
            put(&mut self.numbers, node.position, 0);
        }
        self.nodes.clear();
    }

    /// The number of a position's variable, and 1; 0 where it has none.
    #[inline(always)]
    pub(crate) fn number(&self, position: u32) -> u32 {
        at(&self.numbers, position)
    }

    /// Gives a position a variable of this number.
    pub(crate) fn push(&mut self, position: u32, number: u32) -> Result<(), AllocError> {
        self.nodes.push(Node {
            position,
            ..NOTHING
        })?;
        put(&mut self.numbers, position, number.saturating_add(1));
        Ok(())
    }

    /// What is known of a variable's node.
    #[inline(always)]
    pub(crate) fn get(&self, var: u32) -> Node {
        match self.nodes.get(var as usize) {
            Some(node) => *node,
            None => NOTHING,
        }
    }

    /// Says what is known of a variable's node.
    pub(crate) fn set(&mut self, var: u32, node: Node) {
        let var = var as usize;
        if var < self.nodes.len() {
            self.nodes[var] = node;
        }
    }
}
