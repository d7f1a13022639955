use crate::clauses::{are, clause, expect, literals, parts};
use lits::{
    Clause, ClauseErr, Dim, Hints, Listed, Lit, Literal, LiteralSet, Named, Node, Ref, Side, Step,
};
use std::alloc::Global;
use std::process::Abort;

/// Whether the clause of the literals has just these, or is a tautology.
fn keeps(rt: &impl Abort, alloc: Global, lits: &[Dim], kept: &str) -> bool {
    match Clause::of(alloc, lits) {
        Ok(clause) => are(rt, alloc, clause.lits(), kept),
        Err(error) => error == ClauseErr::Tautology && kept == "tautology",
    }
}

/// Whether it is as the line says: literals, an arrow, and those of their clause.
fn is_clause(rt: &impl Abort, alloc: Global, line: &str) -> bool {
    let (given, kept) = parts(rt, line, " => ");
    let given = literals(rt, alloc, given);
    keeps(rt, alloc, given.as_slice(), kept)
}

/// The long ones have eighteen literals that differ, and two of them once more; in the last one the last is
/// the negation of one.
const CLAUSES: &str = "\
2 2 -3 => 2 -3
2 -2 => tautology
1 2 3 4 5 6 7 8 9 10 11 12 13 14 15 16 17 18 9 1 => 1 2 3 4 5 6 7 8 9 10 11 12 13 14 15 16 17 18
1 2 3 4 5 6 7 8 9 10 11 12 13 14 15 16 17 18 9 -17 => tautology
";

#[test]
fn clauses_of_literals(rt: HostRuntime) {
    for line in CLAUSES.lines() {
        expect(&rt, line, is_clause(&rt, rt.alloc(), line));
    }
}

/// Whether the number's literal is the variable, or its negation, and is made of them.
fn is_literal(number: i32, var: u32, neg: bool) -> bool {
    let Some(dim) = Dim::of(number) else {
        return false;
    };
    let opposite = dim.not();
    dim.var() == var
        && dim.is_negated() == neg
        && opposite.is_negated() != neg
        && opposite.not() == dim
}

/// The greatest variable.
const MOST: u32 = 2_147_483_647;

/// Whether the literals of 1, -1 and the greatest number are those that are made of their variables.
fn are_made() -> bool {
    Dim::of(1) == Some(Dim::new(1, false))
        && Dim::of(-1) == Some(Dim::new(1, true))
        && Dim::of(i32::MAX) == Some(Dim::new(MOST, false))
}

#[test]
fn literals_of_numbers(rt: HostRuntime) {
    expect(&rt, "0", Dim::of(0).is_none());
    expect(&rt, "the least number", Dim::of(i32::MIN).is_none());
    expect(&rt, "1", is_literal(1, 1, false));
    expect(&rt, "-1", is_literal(-1, 1, true));
    expect(&rt, "the greatest", is_literal(i32::MAX, MOST, false));
    expect(&rt, "as they are made", are_made());
}

/// The node of a gate.
const GATE: Node = Node::Gate(Side::B, 3);

const NOT_GATE: Lit = Lit {
    node: GATE,
    neg: true,
};

const X: Lit = Lit {
    node: Node::Input(0),
    neg: false,
};

/// The clause of the negated gate, twice, and the first input.
fn gate_or_input(rt: &impl Abort, alloc: Global) -> Clause<Lit> {
    clause(rt, alloc, "-b3 0 -b3")
}

fn is_copied(rt: &impl Abort, alloc: Global, clause: &Clause<Lit>) -> bool {
    let copy = clause.copy().expect(rt, "memory");
    are(rt, alloc, copy.lits(), "-b3 0")
}

const UNIT: [Lit; 1] = [NOT_GATE];

fn is_unit(rt: &impl Abort, alloc: Global) -> bool {
    let unit = Clause::from_slice(alloc, &UNIT).expect(rt, "memory");
    unit.lits() == UNIT.as_slice()
}

/// Whether the clause has x, not its negation, and holds by x, not by the gate.
fn is_read(clause: &Clause<Lit>) -> bool {
    clause.has(X)
        && !clause.has(X.not())
        && clause.holds(&[NOT_GATE.not(), X])
        && !clause.holds(&[NOT_GATE.not()])
}

const NAME: Ref = Ref::Axiom(GATE, 1);

const HINTS: [Ref; 2] = [NAME, Ref::Own(0)];

/// A step of a named clause, whose first hint is that name.
fn step_of(rt: &impl Abort, alloc: Global, named: Named) -> Step {
    let hints = Vec::from_slice(alloc, &[named.by, Ref::Own(0)]).expect(rt, "memory");
    Step {
        clause: named.clause,
        hints: Hints::of(hints),
    }
}

/// Whether the hints are these two.
fn are_both(hints: &Hints) -> bool {
    hints.len() == 2 && hints.at(0) == HINTS[0] && hints.at(1) == HINTS[1]
}

fn has_hints(rt: &impl Abort, alloc: Global, clause: Clause<Lit>) -> bool {
    let step = step_of(rt, alloc, Named { clause, by: NAME });
    are_both(&step.hints)
}

/// The hints, packed.
fn packed(rt: &impl Abort, alloc: Global, names: &[Ref]) -> Hints {
    let mut hints = Hints::of(Vec::from_slice(alloc, names).expect(rt, "memory"));
    hints.pack(alloc);
    hints
}

/// Whether hints that fit in few bytes stay what they are when they are packed.
fn are_packed(rt: &impl Abort, alloc: Global) -> bool {
    let small = packed(rt, alloc, &HINTS);
    let names = small.to_vec(alloc).expect(rt, "memory");
    are_both(&small) && names.len() == 2
}

/// Whether those that don't fit stay so too.
fn are_left(rt: &impl Abort, alloc: Global) -> bool {
    let large = Ref::Entry(1 << 40, 3);
    let hints = packed(rt, alloc, &[large, HINTS[0]]);
    hints.len() == 2 && hints.at(0) == large
}

/// Whether they are as many as a vector.
fn is_vector(rt: &impl Abort, alloc: Global) -> bool {
    let hints = Listed::of(Vec::from_slice(alloc, &HINTS).expect(rt, "memory"));
    !hints.is_empty() && hints.into_vec().len() == 2
}

#[test]
fn clause_of_nodes(rt: HostRuntime) {
    let alloc = rt.alloc();
    let clause = gate_or_input(&rt, alloc);
    expect(&rt, "a copy", is_copied(&rt, alloc, &clause));
    expect(&rt, "what it has", is_read(&clause));
    expect(&rt, "hints", has_hints(&rt, alloc, clause));
    expect(&rt, "a unit", is_unit(&rt, alloc));
    expect(&rt, "packed hints", are_packed(&rt, alloc));
    expect(&rt, "hints that stay", are_left(&rt, alloc));
    expect(&rt, "as a vector", is_vector(&rt, alloc));
}

/// Puts literals that aren't there.
fn put_all(rt: &impl Abort, set: &mut LiteralSet<Dim>, lits: &[Dim]) {
    for lit in lits {
        expect(rt, "a new literal", !set.has(*lit));
        set.push(*lit).expect(rt, "memory");
    }
}

/// The set of three literals that differ.
fn set_of_three(rt: &impl Abort, alloc: Global) -> LiteralSet<Dim> {
    let lits = literals(rt, alloc, "5 -2 7");
    let mut set = LiteralSet::new(alloc);
    put_all(rt, &mut set, lits.as_slice());
    set
}

/// Whether the set has these literals, 7 in the third place, and not their negations.
fn has_three(set: &LiteralSet<Dim>) -> bool {
    set.place(Dim::new(7, false)) == Some(2)
        && set.place(Dim::new(7, true)).is_none()
        && set.has(Dim::new(5, false))
        && !set.has(Dim::new(5, true))
        && set.has(Dim::new(2, true))
        && !set.has(Dim::new(2, false))
}

/// Adds a literal that is there, which changes nothing.
fn is_same(rt: &impl Abort, alloc: Global, set: &mut LiteralSet<Dim>) -> bool {
    set.add(Dim::new(5, false)).expect(rt, "memory");
    are(rt, alloc, set.lits(), "5 -2 7")
}

/// Clears the set; whether it is empty then.
fn is_cleared(mut set: LiteralSet<Dim>) -> bool {
    set.clear();
    set.lits().is_empty() && set.into_vec().is_empty()
}

/// Whether the set of three is what it should be, until it is cleared.
fn are_three(rt: &impl Abort, alloc: Global) -> bool {
    let mut set = set_of_three(rt, alloc);
    let is_so = has_three(&set) && is_same(rt, alloc, &mut set);
    is_cleared(set) && is_so
}

/// Whether the set of repeated literals has each once.
fn is_set(rt: &impl Abort, alloc: Global) -> bool {
    let lits = literals::<Dim>(rt, alloc, "5 -2 5 2 -2");
    let set = LiteralSet::of(alloc, lits.as_slice()).expect(rt, "memory");
    are(rt, alloc, set.lits(), "5 -2 2")
}

/// Puts 99 literals that differ into the set, of which each third is negated.
fn fill(rt: &impl Abort, set: &mut LiteralSet<Dim>) {
    set.clear();
    for var in 1..100u32 {
        let lit = Dim::new(var, var % 3 == 0);
        if !set.has(lit) {
            set.push(lit).expect(rt, "memory");
        }
    }
}

/// Whether the set is as it was filled.
fn is_filled(set: &LiteralSet<Dim>) -> bool {
    set.lits().len() == 99
        && set.has(Dim::new(3, true))
        && !set.has(Dim::new(3, false))
        && !set.has(Dim::new(100, false))
        && set.place(Dim::new(98, false)) == Some(97)
}

/// Fills the set twice; whether it is as it was filled each time.
fn is_refilled(rt: &impl Abort, alloc: Global) -> bool {
    let mut set = LiteralSet::new(alloc);
    fill(rt, &mut set);
    let is_so = is_filled(&set);
    fill(rt, &mut set);
    is_so && is_filled(&set)
}

#[test]
fn literal_sets(rt: HostRuntime) {
    let alloc = rt.alloc();
    expect(&rt, "repeated", is_set(&rt, alloc));
    expect(&rt, "three", are_three(&rt, alloc));
    expect(&rt, "filled twice", is_refilled(&rt, alloc));
}
