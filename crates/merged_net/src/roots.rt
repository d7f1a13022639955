use crate::codes::lit_code;
use lemma_book::{Book, Entry};
use lits::{Lit, Node};
use netlist::Net;
use search_parts::{at, count, put};
use std::alloc::{AllocError, Global};

/// The root of the node at each position, as a book's merges have it.
///
/// The table is made when the first book is read. It is read by the new entries alone, and then passed over
/// once: a merge leads to an earlier position, whose root stands by then.
#[derive(Drop)]
pub struct Roots {
    /// Twice the root's position, and 1 where it is negated.
    codes: Vec<u32>,
    /// How many entries of the book were read.
    seen: u64,
}

impl Roots {
    /// Before a book is read.
    pub fn new(alloc: Global) -> Roots {
        Roots {
            codes: Vec::new(alloc),
            seen: 0,
        }
    }

    /// Reads the entries of the book that are new, or all of another book.
    pub fn catch_up(&mut self, net: &Net, book: &Book) -> Result<(), AllocError> {
        if self.codes.is_empty() || book.len() < self.seen {
            begin(&mut self.codes, net.positions())?;
            self.seen = 0;
        }
        for place in self.seen..book.len() {
            if let Some(Entry::Merge { node, lit, .. }) = book.entry(place) {
                point(&mut self.codes, net, *node, *lit);
            }
        }
        self.seen = book.len();
        follow(&mut self.codes);
        Ok(())
    }

    /// The root of each position, as a code.
    pub fn codes(&self) -> &[u32] {
        self.codes.as_slice()
    }
}

/// Each position is its own root.
fn begin(codes: &mut Vec<u32>, positions: u32) -> Result<(), AllocError> {
    codes.clear();
    for position in 0..positions {
        codes.push(position.wrapping_mul(2))?;
    }
    Ok(())
}

/// Lets a node lead to the literal that it is merged to.
fn point(codes: &mut [u32], net: &Net, node: Node, lit: Lit) {
    if let (Some(position), Some(code)) = (net.position(node), lit_code(net, lit)) {
        put(codes, position, code);
    }
}

/// Lets each position lead to its root, where those before it do.
fn follow(codes: &mut [u32]) {
    for position in 0..count(codes.len()) {
        let code = at(codes, position);
        if code / 2 != position {
            put(codes, position, root_of(codes, code));
        }
    }
}

/// The root of a code.
#[inline(always)]
pub fn root_of(codes: &[u32], code: u32) -> u32 {
    at(codes, code / 2) ^ (code & 1)
}
