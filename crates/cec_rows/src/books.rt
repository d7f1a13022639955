//! What stands in the books that checks hand back.
use crate::desk::{Ran, expect, run_words};
use crate::files::{FOLDS, TIGHT, WORDS, XORS};
use cec_top::Kept;
use lemma_book::{Book, Entry};
use lits::{Lit, Node, Side};
use std::alloc::{AllocError, Global};
use std::test::*;

/// A gate of the first circuit.
fn gate(var: u32) -> Lit {
    Lit {
        node: Node::Gate(Side::A, var),
        neg: false,
    }
}

const INPUT: Lit = Lit {
    node: Node::Input(0),
    neg: false,
};

const FALSE: Lit = Lit {
    node: Node::Const,
    neg: true,
};

/// Whether the one book is that of check 0, and merges one gate to the input and one to false.
fn are_merged(kept: &[Kept]) -> bool {
    match kept {
        [only] => only.check == 0 && has_merges(&only.book),
        _ => false,
    }
}

fn has_merges(book: &Book) -> bool {
    book.root(gate(2)) == INPUT && book.root(gate(3)) == FALSE
}

/// The same of a run.
fn has_merged(ran: Result<Ran, AllocError>) -> bool {
    match ran {
        Ok(ran) => are_merged(ran.kept.as_slice()),
        Err(AllocError) => false,
    }
}

#[test]
fn merged_to_input_and_false(rt: HostRuntime) {
    let is_so = has_merged(run_words(&rt, &FOLDS, &WORDS, &[]));
    expect(&rt, "the merges", is_so);
}

/// The CNF's variable of a node of two circuits that have two inputs and three gates each.
fn variable(node: Node) -> u32 {
    match node {
        Node::Const => 1,
        Node::Input(k) => k.saturating_add(2),
        Node::Gate(Side::A, var) => var.saturating_add(1),
        Node::Gate(Side::B, var) => var.saturating_add(4),
        Node::Xor(output) => output.saturating_add(10),
    }
}

/// How a line begins that adds the clause as number 25: the number, the literals and 0.
fn head_of(alloc: Global, lits: &[Lit]) -> Result<String, AllocError> {
    let mut head = String::from_str(alloc, "25 ")?;
    for lit in lits {
        let sign = if lit.neg { "-" } else { "" };
        write!(head, "{sign}{} ", variable(lit.node))?;
    }
    head.push_str("0 ")?;
    Ok(head)
}

/// Whether the proof is one line, which adds the clause as number 25.
fn is_line_of(alloc: Global, proof: &[u8], lits: &[Lit]) -> bool {
    let is_one = proof.iter().filter(|byte| **byte == b'\n').count() == 1;
    match head_of(alloc, lits) {
        Ok(head) => is_one && proof.starts_with(head.as_bytes()) && proof.ends_with(b" 0\n"),
        Err(AllocError) => false,
    }
}

/// Whether the book has a log of one clause for the output, and the proof's line adds it.
fn has_logged(alloc: Global, book: &Book, proof: &[u8]) -> bool {
    match book.about(0) {
        Some(Entry::OutSpent { output: 0, log, .. }) => match log.as_slice() {
            [step] => is_line_of(alloc, proof, step.clause.lits()),
            _ => false,
        },
        _ => false,
    }
}

/// The same of the one book that a run hands back, which is that of check 0.
fn has_written_log(alloc: Global, kept: &[Kept], proof: &[u8]) -> bool {
    match kept {
        [only] => only.check == 0 && has_logged(alloc, &only.book, proof),
        _ => false,
    }
}

/// The same of the proof that it leaves.
fn is_written(alloc: Global, ran: &Ran) -> bool {
    match ran.desk.file("p.0.lrat") {
        Some(proof) => has_written_log(alloc, ran.kept.as_slice(), proof),
        None => false,
    }
}

/// The same of a run.
fn has_written(alloc: Global, ran: Result<Ran, AllocError>) -> bool {
    match ran {
        Ok(ran) => is_written(alloc, &ran),
        Err(AllocError) => false,
    }
}

/// The one line of the proof is the clause that the book has for the open output.
#[test]
fn log_of_tight_budgets(rt: HostRuntime) {
    let ran = run_words(&rt, &XORS, &TIGHT, &[]);
    expect(&rt, "the clause", has_written(rt.alloc(), ran));
}
