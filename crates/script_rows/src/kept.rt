ghost use Rattle.std.specs.Prelude.{◌≡◌};
ghost use Rattle.netlist_edits.specs.Edited.{edited};
ghost use Rattle.lemma_book.specs.Book.{IsLegal};

use crate::edits::net_of;
use crate::told::expect;
use keep_lemmas::keep;
use lemma_book::{Book, Entry, Offered};
use lits::{Clause, Hints, Listed, Lit, Node, Ref, Side, Step};
use netlist::{Circuit, Names, Net};
use netlist_edits::{Command, Edit, apply, read_line};
use std::alloc::Global;
use std::process::Abort;
use std::test::*;
use worked_circuits::{and, circuit};

// ---- entries

fn a(var: u32) -> Node {
    Node::Gate(Side::A, var)
}

fn b(var: u32) -> Node {
    Node::Gate(Side::B, var)
}

fn lit(node: Node, neg: bool) -> Lit {
    Lit { node, neg }
}

fn step(rt: &impl Abort, alloc: Global, lits: &[Lit], hints: &[Ref]) -> Step {
    let clause = Clause::of(alloc, lits).expect(rt, "a clause");
    let hints = Vec::from_slice(alloc, hints).expect(rt, "memory");
    Step {
        clause,
        hints: Hints::of(hints),
    }
}

/// Both steps that merge a gate of B to that of A which has the same fanins.
fn merge_steps(rt: &impl Abort, alloc: Global, var: u32, steps: &mut Vec<Step>) {
    let (a, b) = (a(var), b(var));
    let below = [Ref::Axiom(b, 0), Ref::Axiom(b, 1), Ref::Axiom(a, 2)];
    let above = [Ref::Axiom(a, 0), Ref::Axiom(a, 1), Ref::Axiom(b, 2)];
    let one = step(rt, alloc, &[lit(b, true), lit(a, false)], &below);
    let two = step(rt, alloc, &[lit(b, false), lit(a, true)], &above);
    steps.push(one).expect(rt, "memory");
    steps.push(two).expect(rt, "memory");
}

fn merge_by(var: u32, steps: Vec<Step>) -> Entry {
    Entry::Merge {
        node: b(var),
        lit: lit(a(var), false),
        steps: Listed::of(steps),
    }
}

fn merge(rt: &impl Abort, alloc: Global, var: u32) -> Entry {
    let mut steps = Vec::new(alloc);
    merge_steps(rt, alloc, var, &mut steps);
    merge_by(var, steps)
}

/// The same with a step before them that speaks of gate 5 of B.
fn merge_past_another(rt: &impl Abort, alloc: Global, var: u32) -> Entry {
    let mut steps = Vec::new(alloc);
    let lits = [lit(b(5), true), lit(Node::Input(1), false)];
    let first = step(rt, alloc, &lits, &[Ref::Axiom(b(5), 0)]);
    steps.push(first).expect(rt, "memory");
    merge_steps(rt, alloc, var, &mut steps);
    merge_by(var, steps)
}

/// Both circuits give the output the value of the gate, which the entry at a place merges.
fn out(rt: &impl Abort, alloc: Global, output: u32, var: u32, place: u64) -> Entry {
    let x = Node::Xor(output);
    let lits = [lit(x, true), lit(a(var), false)];
    let one = step(rt, alloc, &lits, &[Ref::Entry(place, 0), Ref::Axiom(x, 0)]);
    let hints = [Ref::Own(0), Ref::Entry(place, 1), Ref::Axiom(x, 1)];
    let two = step(rt, alloc, &lits[..1], &hints);
    let mut steps = Vec::new(alloc);
    steps.push(one).expect(rt, "memory");
    steps.push(two).expect(rt, "memory");
    Entry::Out {
        output,
        steps: Listed::of(steps),
    }
}

/// The output is the first input and true, which is one where constraint 1 of A holds. The step cites the units
/// of these constraints of A.
fn out_under(rt: &impl Abort, alloc: Global, output: u32, constraints: &[u32]) -> Entry {
    let x = Node::Xor(output);
    let mut hints = Vec::new(alloc);
    for k in constraints {
        hints.push(Ref::Bound(Side::A, *k)).expect(rt, "memory");
    }
    hints.push(Ref::Axiom(Node::Const, 0)).expect(rt, "memory");
    hints.push(Ref::Axiom(x, 1)).expect(rt, "memory");
    let mut steps = Vec::new(alloc);
    let only = step(rt, alloc, &[lit(x, true)], hints.as_slice());
    steps.push(only).expect(rt, "memory");
    Entry::Out {
        output,
        steps: Listed::of(steps),
    }
}

fn input(rt: &impl Abort, alloc: Global, bits: &[bool]) -> Listed<bool> {
    Listed::of(Vec::from_slice(alloc, bits).expect(rt, "memory"))
}

/// Gate 4 of B and gate 3 of A differ where the first input alone is true.
fn apart(rt: &impl Abort, alloc: Global) -> Entry {
    Entry::Apart {
        node: b(4),
        lit: lit(a(3), false),
        input: input(rt, alloc, &[true, false]),
    }
}

/// Output 2 is gate 3 of A and gate 4 of B.
fn out_apart(rt: &impl Abort, alloc: Global) -> Entry {
    Entry::OutApart {
        output: 2,
        input: input(rt, alloc, &[true, true]),
    }
}

/// A query of these gates that learned one clause.
fn spent(rt: &impl Abort, alloc: Global) -> Entry {
    let lits = [
        lit(b(4), false),
        lit(a(3), false),
        lit(Node::Input(0), true),
    ];
    let hints = [Ref::Axiom(b(4), 2), Ref::Axiom(a(3), 2)];
    let mut log = Vec::new(alloc);
    log.push(step(rt, alloc, &lits, &hints))
        .expect(rt, "memory");
    Entry::Spent {
        node: b(4),
        lit: lit(a(3), false),
        seen: 0,
        log: Listed::of(log),
    }
}

// ---- books

/// Gates 3, 4 and 5 of both circuits have the same fanins, the second circuit's in the other order. Nothing
/// reads gate 5.
fn three_pairs(rt: &impl Abort, alloc: Global) -> Net {
    let gates = [and(3, 2, 4), and(4, 2, 5), and(5, 2, 4)];
    let first = circuit(alloc, &[1, 2], &gates, &[6, 8, 6]).expect(rt, "memory");
    let gates = [and(3, 4, 2), and(4, 5, 2), and(5, 4, 2)];
    let second = circuit(alloc, &[1, 2], &gates, &[6, 8, 8]).expect(rt, "memory");
    net_of(rt, alloc, first, second)
}

/// Puts an entry last, which has to be good.
fn put(rt: &impl Abort, alloc: Global, net: &Net, book: &mut Book, entry: Entry)
    requires { IsLegal net.now book.old }
    ensures { IsLegal net.now book.new }
{
    match book.offer(alloc, net, entry) {
        Ok(Offered::At(_)) => {}
        _ => rt.panic("an entry isn't good"),
    }
}

/// A book with entries of all kinds but one.
fn all_kinds(rt: &impl Abort, alloc: Global, net: &Net) -> Book
    ensures { IsLegal net.now result }
{
    let mut book = Book::new(alloc, 1, 1);
    put(rt, alloc, net, &mut book, merge(rt, alloc, 5));
    put(rt, alloc, net, &mut book, merge(rt, alloc, 4));
    put(rt, alloc, net, &mut book, merge(rt, alloc, 3));
    put(rt, alloc, net, &mut book, apart(rt, alloc));
    put(rt, alloc, net, &mut book, spent(rt, alloc));
    put(rt, alloc, net, &mut book, out(rt, alloc, 0, 3, 2));
    put(rt, alloc, net, &mut book, out(rt, alloc, 1, 4, 1));
    put(rt, alloc, net, &mut book, out_apart(rt, alloc));
    book
}

/// A merge that goes with gate 5, and an output that stands on it.
fn past_another(rt: &impl Abort, alloc: Global, net: &Net) -> Book
    ensures { IsLegal net.now result }
{
    let mut book = Book::new(alloc, 1, 1);
    put(rt, alloc, net, &mut book, merge_past_another(rt, alloc, 3));
    put(rt, alloc, net, &mut book, out(rt, alloc, 0, 3, 0));
    put(rt, alloc, net, &mut book, merge(rt, alloc, 4));
    put(rt, alloc, net, &mut book, out(rt, alloc, 1, 4, 2));
    book
}

/// Two merges, of gates that both are an output.
fn two_merges(rt: &impl Abort, alloc: Global, net: &Net) -> Book
    ensures { IsLegal net.now result }
{
    let mut book = Book::new(alloc, 1, 1);
    put(rt, alloc, net, &mut book, merge(rt, alloc, 3));
    put(rt, alloc, net, &mut book, merge(rt, alloc, 4));
    book
}

// ---- entries in words: what they say, and their steps with the names of the hints

fn name_of(node: Node) -> (&'static str, u32) {
    match node {
        Node::Const => ("t", 0),
        Node::Input(k) => ("i", k),
        Node::Gate(Side::A, var) => ("a", var),
        Node::Gate(Side::B, var) => ("b", var),
        Node::Xor(j) => ("d", j),
    }
}

fn side_name(side: Side) -> &'static str {
    match side {
        Side::A => "a",
        Side::B => "b",
    }
}

fn push(rt: &impl Abort, words: &mut String, word: &str) {
    words.push_str(word).expect(rt, "memory");
}

fn push_lit(rt: &impl Abort, alloc: Global, words: &mut String, lit: Lit) {
    let (name, number) = name_of(lit.node);
    let sign = if lit.neg { "-" } else { "" };
    let word = format!(in alloc; "{sign}{name}{number} ").expect(rt, "memory");
    push(rt, words, word.as_str());
}

fn push_hint(rt: &impl Abort, alloc: Global, words: &mut String, hint: Ref) {
    let word = match hint {
        Ref::Axiom(node, k) => {
            let (name, number) = name_of(node);
            format!(in alloc; "{name}{number}.{k} ")
        }
        Ref::Entry(place, k) => format!(in alloc; "e{place}.{k} "),
        Ref::Own(place) => format!(in alloc; "s{place} "),
        Ref::Bound(side, k) => format!(in alloc; "{}!{k} ", side_name(side)),
    };
    push(rt, words, word.expect(rt, "memory").as_str());
}

fn push_steps(rt: &impl Abort, alloc: Global, words: &mut String, steps: &[Step]) {
    for step in steps {
        for lit in step.clause.lits() {
            push_lit(rt, alloc, words, *lit);
        }
        push(rt, words, "by ");
        for place in 0..step.hints.len() {
            push_hint(rt, alloc, words, step.hints.at(place));
        }
    }
}

fn push_entry(rt: &impl Abort, alloc: Global, words: &mut String, entry: &Entry) {
    match entry {
        Entry::Merge { node, lit, steps } => {
            push(rt, words, "merge ");
            push_lit(
                rt,
                alloc,
                words,
                Lit {
                    node: *node,
                    neg: false,
                },
            );
            push_lit(rt, alloc, words, *lit);
            push_steps(rt, alloc, words, steps.as_slice());
        }
        Entry::Out { output, steps } => {
            let word = format!(in alloc; "out {output} ").expect(rt, "memory");
            push(rt, words, word.as_str());
            push_steps(rt, alloc, words, steps.as_slice());
        }
        _ => push(rt, words, "another one "),
    }
}

fn words_of(rt: &impl Abort, alloc: Global, book: &Book) -> String {
    let mut words = String::new(alloc);
    for place in 0..book.len() {
        if let Some(entry) = book.entry(place) {
            push_entry(rt, alloc, &mut words, entry);
        }
    }
    words
}

fn bits_of(rt: &impl Abort, alloc: Global, inputs: &[Listed<bool>]) -> String {
    let mut words = String::new(alloc);
    for input in inputs {
        for bit in input.as_slice() {
            push(rt, &mut words, if *bit { "1" } else { "0" });
        }
        push(rt, &mut words, " ");
    }
    words
}

// ---- what is kept over an edit

/// An entry that is wanted: the merge of a gate, an output with its gate and the place of that gate's merge,
/// or an output with the constraints of A whose units it cites.
#[derive(Clone, Copy)]
enum Wanted {
    Merge(u32),
    Out(u32, u32, u64),
    Under(u32, &'static [u32]),
}

fn wanted_words(rt: &impl Abort, alloc: Global, wanted: &[Wanted]) -> String {
    let mut words = String::new(alloc);
    for entry in wanted {
        let entry = match *entry {
            Wanted::Merge(var) => merge(rt, alloc, var),
            Wanted::Out(output, var, place) => out(rt, alloc, output, var, place),
            Wanted::Under(output, constraints) => out_under(rt, alloc, output, constraints),
        };
        push_entry(rt, alloc, &mut words, &entry);
    }
    words
}

fn edit_of(rt: &impl Abort, line: &str) -> Edit {
    match read_line(line.as_bytes()) {
        Ok(Some(Command::Edit(edit))) => edit,
        _ => rt.panic("no edit"),
    }
}

/// The net after an edit, which has to be made.
fn edited(rt: &impl Abort, alloc: Global, old: &Net, edit: &Edit) -> Net
    ensures { result ≡ edited old.now edit.now }
{
    let mut new = old.copy(alloc).expect(rt, "memory");
    match apply(alloc, &mut new, edit) {
        Ok(()) => new,
        Err(_) => rt.panic("the edit is refused"),
    }
}

/// Makes the edit of a line, and compares what is kept of the book, and the inputs that are handed out.
fn check_kept(
    rt: &impl Abort,
    alloc: Global,
    old: &Net,
    book: Book,
    line: &str,
    wanted: &[Wanted],
    inputs: &str,
)
    requires { IsLegal old.now book }
{
    let edit = edit_of(rt, line);
    let new = edited(rt, alloc, old, &edit);
    let (kept, handed) = keep(alloc, book, old, &[edit], &new).expect(rt, "memory");
    let words = words_of(rt, alloc, &kept);
    let wanted = wanted_words(rt, alloc, wanted);
    expect(rt, line, words.as_str() == wanted.as_str());
    let bits = bits_of(rt, alloc, handed.as_slice());
    expect(rt, "the inputs", bits.as_str() == inputs);
}

struct Row {
    line: &'static str,
    wanted: &'static [Wanted],
}

/// What is kept of the book of all kinds: a gate is set, taken out or put in, or an output changed.
static OF_ALL_KINDS: [Row; 4] = [
    Row {
        line: "set b 8 5 5",
        wanted: &[Wanted::Merge(5), Wanted::Merge(3), Wanted::Out(0, 3, 1)],
    },
    Row {
        line: "drop b 10",
        wanted: &[
            Wanted::Merge(4),
            Wanted::Merge(3),
            Wanted::Out(0, 3, 1),
            Wanted::Out(1, 4, 0),
        ],
    },
    Row {
        line: "out b 0 8",
        wanted: &[
            Wanted::Merge(5),
            Wanted::Merge(4),
            Wanted::Merge(3),
            Wanted::Out(1, 4, 1),
        ],
    },
    Row {
        line: "new b 12 2 2 before 6",
        wanted: &[
            Wanted::Merge(5),
            Wanted::Merge(4),
            Wanted::Merge(3),
            Wanted::Out(0, 3, 2),
            Wanted::Out(1, 4, 1),
        ],
    },
];

fn check_all_kinds<A: Abort>(rt: &A, alloc: Global) {
    let net = three_pairs(rt, alloc);
    for row in &OF_ALL_KINDS {
        let book = all_kinds(rt, alloc, &net);
        check_kept(rt, alloc, &net, book, row.line, row.wanted, "10 11 ");
    }
}

#[test]
fn kept_of_all_kinds(rt: HostRuntime) {
    check_all_kinds(&rt, rt.alloc());
}

/// No literal of the output's entry is touched, but the merge goes on which it stands.
#[test]
fn what_cites_a_dropped_one_goes(rt: HostRuntime) {
    let net = three_pairs(&rt, rt.alloc());
    let book = past_another(&rt, rt.alloc(), &net);
    let wanted = [Wanted::Merge(4), Wanted::Out(1, 4, 0)];
    check_kept(&rt, rt.alloc(), &net, book, "drop b 10", &wanted, "");
}

/// Gates 3 and 4 of both circuits, the second circuit's with the fanins in the other order.
fn two_pairs(rt: &impl Abort, alloc: Global) -> Net {
    let gates = [and(3, 2, 4), and(4, 2, 5)];
    let first = circuit(alloc, &[1, 2], &gates, &[6, 8]).expect(rt, "memory");
    let gates = [and(3, 4, 2), and(4, 5, 2)];
    let second = circuit(alloc, &[1, 2], &gates, &[6, 8]).expect(rt, "memory");
    net_of(rt, alloc, first, second)
}

#[test]
fn keep_one(rt: HostRuntime) {
    let net = two_pairs(&rt, rt.alloc());
    let book = two_merges(&rt, rt.alloc(), &net);
    let wanted = [Wanted::Merge(3)];
    check_kept(&rt, rt.alloc(), &net, book, "set b 8 5 5", &wanted, "");
}

/// Both outputs of A are the first input, those of B are true. A's constraints are its gate, the AND of both
/// inputs, and the first input.
fn constrained(rt: &impl Abort, alloc: Global) -> Net {
    let first = Circuit::of(
        alloc,
        Vec::from_slice(alloc, &[1, 2]).expect(rt, "memory"),
        Vec::from_slice(alloc, &[and(3, 2, 4)]).expect(rt, "memory"),
        Vec::from_slice(alloc, &[2, 2]).expect(rt, "memory"),
        Vec::from_slice(alloc, &[6, 2]).expect(rt, "memory"),
        Names::none(alloc, 2, 2),
    );
    let second = circuit(alloc, &[1, 2], &[], &[1, 1]).expect(rt, "memory");
    net_of(rt, alloc, first.expect(rt, "memory"), second)
}

/// An output that the unit of the first input shows, and one that cites the unit of the gate too.
fn under_constraints(rt: &impl Abort, alloc: Global, net: &Net) -> Book
    ensures { IsLegal net.now result }
{
    let mut book = Book::new(alloc, 1, 1);
    put(rt, alloc, net, &mut book, out_under(rt, alloc, 0, &[1]));
    put(rt, alloc, net, &mut book, out_under(rt, alloc, 1, &[0, 1]));
    book
}

/// What cites a constraint's unit goes where the constraint's gate is set, and stays where another gate comes
/// or another output changes.
static UNDER_CONSTRAINTS: [Row; 3] = [
    Row {
        line: "set a 6 2 2",
        wanted: &[Wanted::Under(0, &[1])],
    },
    Row {
        line: "new b 6 2 4 end",
        wanted: &[Wanted::Under(0, &[1]), Wanted::Under(1, &[0, 1])],
    },
    Row {
        line: "out a 0 4",
        wanted: &[Wanted::Under(1, &[0, 1])],
    },
];

fn check_under_constraints<A: Abort>(rt: &A, alloc: Global) {
    let net = constrained(rt, alloc);
    for row in &UNDER_CONSTRAINTS {
        let book = under_constraints(rt, alloc, &net);
        check_kept(rt, alloc, &net, book, row.line, row.wanted, "");
    }
}

#[test]
fn kept_under_constraints(rt: HostRuntime) {
    check_under_constraints(&rt, rt.alloc());
}
