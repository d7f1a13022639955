//! What workers leave of two XORs.
ghost use Rattle.std.specs.Prelude.{◌≡◌};
ghost use Rattle.lemma_book.specs.Book.{IsLegal};

use crate::nets::{pool_for, solvers, xors};
use desk_port::OpenGate;
use lemma_book::{Book, Entry};
use lits::{Node, Side};
use netlist::Net;
use std::alloc::Global;
use std::process::Abort;
use std::sync::Wait;
use std::test::*;
use std::thread::Threads;
use sweep_workers::{outputs, sweep};

/// The book after a sweep by so many workers, which merges B's gate 5.
fn swept<T: Threads + Wait + Sync + Abort>(rt: &T, alloc: Global, net: &Net, many: usize) -> Book
    ensures { IsLegal net.now result }
{
    let book = Book::new(alloc, 100_000, 100_000);
    let pool = pool_for(rt, alloc, net);
    let solvers = solvers(rt, alloc, many);
    let (book, _pool, solvers) = sweep(rt, alloc, net, book, pool, solvers, &OpenGate).expect(
        rt, "memory",
    );
    assert!(rt; solvers.len() == many, "each solver comes back");
    assert!(rt;
        book.is_merged(Node::Gate(Side::B, 5)),
        "the gates are merged"
    );
    book
}

/// Whether the output is shown equal behind the sweep.
fn check<T: Threads + Wait + Sync + Abort>(rt: &T, alloc: Global, many: usize) {
    let net = xors(rt, alloc);
    let book = swept(rt, alloc, &net, many);
    let known = book.len();
    let solvers = solvers(rt, alloc, many);
    let (book, solvers) = outputs(rt, alloc, &net, book, solvers, &OpenGate).expect(rt, "memory");
    assert!(rt; solvers.len() == many, "each solver comes back");
    assert!(rt; book.len() == known + 1, "one entry more");
    assert!(rt;
        matches!(book.about(0), Some(Entry::Out { .. })),
        "the output is equal"
    );
}

#[test]
fn sweep_and_outputs(rt: HostRuntime) {
    let alloc = rt.alloc();
    check(&rt, alloc, 1);
    check(&rt, alloc, 2);
    check(&rt, alloc, 4);
    check(&rt, alloc, 64);
}
