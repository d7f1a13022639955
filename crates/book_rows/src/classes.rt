ghost use Rattle.std.specs.Prelude.{◌≡◌, length};
ghost use Rattle.std.specs.List.{AllByRecursion};
ghost use Rattle.netlist.specs.Net.{nodes_of};
ghost use Rattle.lemma_book.specs.Book.{IsLegal};
ghost use Rattle.sig_classes.specs.Kept.{AreKept};

use crate::lemmas::book_of;
use crate::pairs::{Case, check, expect, net_of, two_xors};
use lemma_book::{Book, Task};
use lits::{Lit, Node, Side};
use netlist::Net;
use sig_classes::{KeptClasses, leader, tasks};
use std::alloc::Global;
use std::process::Abort;
use word_sim::{Pool, Sigs, signatures};
use worked_circuits::{and, two_input_circuit};

/// A seeded pool and all four inputs.
fn pool(rt: &impl Abort, alloc: Global) -> Pool
    ensures { result.inputs ≡ 2 }
{
    let mut pool = Pool::seeded(alloc, 1, 1, 2).expect(rt, "memory");
    pool.add(&[false, false]).expect(rt, "memory");
    pool.add(&[false, true]).expect(rt, "memory");
    pool.add(&[true, false]).expect(rt, "memory");
    pool.add(&[true, true]).expect(rt, "memory");
    pool
}

/// The rows on the pool.
fn rows(rt: &impl Abort, alloc: Global, net: &Net) -> Sigs
    ensures { length result.rows ≡ length (nodes_of net.now) }
{
    assert!(rt; net.circuit(Side::A).inputs().len() == 2);
    signatures(alloc, net, &pool(rt, alloc)).expect(rt, "memory")
}

/// Whether this is what is to be asked over the book.
fn are_tasks(rt: &impl Abort, alloc: Global, net: &Net, book: &Book, expected: &[Task]) -> bool {
    let found = tasks(alloc, net, &rows(rt, alloc, net), book).expect(rt, "memory");
    found.as_slice() == expected
}

/// What is to be asked once the entries of these lines were offered to an empty book.
struct Tasks(&'static str, &'static [Task]);

impl Case for Tasks {
    fn check<A: Abort>(&self, rt: &A, alloc: Global, net: &Net) {
        let book = book_of(rt, alloc, net, 1, self.0);
        expect(rt, "the tasks", are_tasks(rt, alloc, net, &book, self.1));
    }
}

const A5: Node = Node::Gate(Side::A, 5);

const B5: Node = Node::Gate(Side::B, 5);

/// The one pair of two XORs that is to be asked for.
const PAIR: Task = Task {
    node: B5,
    lit: Lit {
        node: A5,
        neg: true,
    },
};

static OF_XORS: Tasks = Tasks("", &[PAIR]);

/// What a query with a budget of one clause learned of the pair: where both gates are true, so is x. A pair
/// whose budget was spent is no task again.
static SPENT: Tasks = Tasks(
    "spent b5 -a5 0: -b5 -a5 i0 by b5.1 b4.2 a5.1 a4.2 => Ok(At(0))",
    &[],
);

const FIRST: Lit = Lit {
    node: A5,
    neg: false,
};

/// Who leads the class of the gate, which is there.
fn leader_of(rt: &impl Abort, net: &Net, sigs: &Sigs, book: &Book, gate: Node) -> Lit
    requires sigs { length sigs.now.rows ≡ length (nodes_of net.now) }
    requires legal { IsLegal net.now book.now }
{
    assert!(rt; net.position(gate).is_some());
    leader(net, sigs, book, gate)
}

fn check_leaders(rt: &impl Abort, net: &Net, sigs: &Sigs, book: &Book)
    requires sigs { length sigs.now.rows ≡ length (nodes_of net.now) }
    requires legal { IsLegal net.now book.now }
{
    let of_b = leader_of(rt, net, sigs, book, B5);
    expect(rt, "B's gate", of_b == PAIR.lit);
    let of_a = leader_of(rt, net, sigs, book, A5);
    expect(rt, "A's gate", of_a == FIRST);
}

/// Who leads where the book is empty.
struct FirstOfClass;

impl Case for FirstOfClass {
    fn check<A: Abort>(&self, rt: &A, alloc: Global, net: &Net) {
        check_leaders(rt, net, &rows(rt, alloc, net), &Book::new(alloc, 1, 1));
    }
}

/// A gate of a class is led by the first of the class, as it is or as its complement; who is first
/// leads itself.
#[test]
fn leaders(rt: HostRuntime) {
    let alloc = rt.alloc();
    check(&rt, alloc, two_xors(&rt, alloc), &FirstOfClass);
}

/// A gate that is an input, its negation, and false.
fn complements(rt: &impl Abort, alloc: Global) -> Net {
    let a = two_input_circuit(alloc, &[and(3, 4, 4), and(4, 2, 3)], 6);
    net_of(rt, alloc, a, two_input_circuit(alloc, &[and(3, 5, 1)], 6))
}

/// Gates that are an input, its negation and false: their classes begin with the input and with the constant.
static OF_COMPLEMENTS: Tasks = Tasks(
    "",
    &[
        Task {
            node: Node::Gate(Side::A, 3),
            lit: Lit {
                node: Node::Input(1),
                neg: false,
            },
        },
        Task {
            node: Node::Gate(Side::A, 4),
            lit: Lit {
                node: Node::Const,
                neg: true,
            },
        },
        Task {
            node: Node::Gate(Side::B, 3),
            lit: Lit {
                node: Node::Input(1),
                neg: true,
            },
        },
    ],
);

#[test]
fn tasks_of_classes(rt: HostRuntime) {
    let alloc = rt.alloc();
    check(&rt, alloc, two_xors(&rt, alloc), &OF_XORS);
    check(&rt, alloc, two_xors(&rt, alloc), &SPENT);
    check(&rt, alloc, complements(&rt, alloc), &OF_COMPLEMENTS);
}

/// Whether classes that are kept ask for this over a book.
fn expect_kept(
    rt: &impl Abort,
    alloc: Global,
    net: &Net,
    pool: &Pool,
    kept: &mut KeptClasses,
    book: &Book,
    expected: &[Task],
)
    requires legal { IsLegal net.now book.now }
    requires inputs { pool.now.inputs ≡ length net.now.a.inputs }
    requires whole { AllByRecursion (λ bits. length bits ≡ length net.now.a.inputs) pool.now.patterns }
    requires kept { AreKept net.now pool.now.patterns kept.old }
    ensures kept { AreKept net.now pool.now.patterns kept.new }
{
    let found = kept.tasks(alloc, net, pool, book).expect(rt, "memory");
    expect(rt, "the tasks", found.as_slice() == expected);
}

/// That A's first gate is the input whose negation B's gate is.
const FIRST_MERGED: &str = "merge a3 i1: -a3 i1 by a3.0; a3 -i1 by a3.2 => Ok(At(0))";

/// Classes that are kept ask for what is left of a book's merges, whichever book comes next.
struct KeptTasks;

impl Case for KeptTasks {
    fn check<A: Abort>(&self, rt: &A, alloc: Global, net: &Net) {
        assert!(rt; net.circuit(Side::A).inputs().len() == 2);
        let pool = pool(rt, alloc);
        pool.patterns();
        let mut kept = KeptClasses::new(alloc, net).expect(rt, "memory");
        let empty = Book::new(alloc, 1, 1);
        let merged = book_of(rt, alloc, net, 1, FIRST_MERGED);
        let all = OF_COMPLEMENTS.1;
        expect_kept(rt, alloc, net, &pool, &mut kept, &empty, all);
        expect_kept(rt, alloc, net, &pool, &mut kept, &merged, &all[1..]);
        expect_kept(rt, alloc, net, &pool, &mut kept, &empty, all);
    }
}

#[test]
fn tasks_of_kept_classes(rt: HostRuntime) {
    let alloc = rt.alloc();
    check(&rt, alloc, complements(&rt, alloc), &KeptTasks);
}
