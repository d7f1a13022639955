//! Bases of the worked cases, and what of a base a solver asks for.
ghost use Rattle.std.specs.Prelude.{◌≡◌, ◌||◌};
ghost use Rattle.std.specs.Bool.{OnTrue};
ghost use Rattle.std.specs.List.{list_any};
ghost use Rattle.lits.specs.Clause.{has};
ghost use Rattle.lits.specs.Same.{same_lit, opposite};
ghost use Rattle.unit_prop.specs.HintScan.{IsNamed};
ghost use Rattle.unit_prop.specs.Log.{IsBase, is_own, same_name};
ghost use Rattle.unit_prop.specs.Refuter.{IsOver};

use crate::clauses::{clause, expect, node, parts};
use lits::{Clause, ClauseErr, Lit, Literal, Named, Node, Ref};
use std::alloc::Global;
use std::process::Abort;

/// Whether the names differ and none is that of an own step.
pub(crate) fn is_base(base: &[Named]) -> bool
    ensures base { OnTrue result (IsBase base.now) }
    ensures named { OnTrue result (IsNamed base.now) }
{
    let Some((first, rest)) = base.split_first() else {
        return true;
    };
    if is_own(first.by) {
        return false;
    }
    if has_name(rest, first.by) {
        return false;
    }
    is_base(rest)
}

fn is_own(name: Ref) -> bool
    ensures { result ≡ is_own name }
{
    matches!(name, Ref::Own(_))
}

fn has_name(base: &[Named], name: Ref) -> bool
    ensures { result ≡ list_any (λ n. same_name n.by name) base.now }
{
    match base.split_first() {
        Some((first, rest)) => first.by == name || has_name(rest, name),
        None => false,
    }
}

/// Whether each literal's variable is in the base.
pub(crate) fn is_over(base: &[Named], lits: &[Lit]) -> bool
    ensures { OnTrue result (IsOver base.now lits.now) }
{
    let Some((first, rest)) = lits.split_first() else {
        return true;
    };
    if !mentions(base, *first) {
        return false;
    }
    is_over(base, rest)
}

fn mentions(base: &[Named], lit: Lit) -> bool
    ensures { result ≡ list_any
        (λ n. has same_lit n.clause lit || has same_lit n.clause (opposite lit)) base.now }
{
    match base.split_first() {
        Some((first, rest)) => {
            first.clause.has(lit) || first.clause.has(lit.not()) || mentions(rest, lit)
        }
        None => false,
    }
}

/// The base of a text whose clauses end in semicolons. Each has its place as its name, or the name that
/// stands before it, which is followed by a colon.
pub(crate) fn base_of(rt: &impl Abort, alloc: Global, text: &str) -> Vec<Named> {
    let mut base = Vec::new(alloc);
    for part in text.split_terminator(';') {
        let named = named(rt, alloc, part, base.len() as u64);
        base.push(named).expect(rt, "memory");
    }
    base
}

fn named(rt: &impl Abort, alloc: Global, text: &str, place: u64) -> Named {
    let (by, lits) = match text.split_once(':') {
        Some((name, lits)) => (axiom(rt, name.trim()), lits),
        None => (Ref::Entry(place, 0), text),
    };
    let clause = clause(rt, alloc, lits);
    Named { clause, by }
}

/// The name of one of a gate's clauses, as `a3.2`.
fn axiom(rt: &impl Abort, name: &str) -> Ref {
    let (gate, k) = parts(rt, name, ".");
    let gate = node(gate).expect(rt, "a gate");
    Ref::Axiom(gate, k.parse().expect(rt, "a number"))
}

/// The names of such clauses.
pub(crate) fn axioms(rt: &impl Abort, alloc: Global, text: &str) -> Vec<Ref> {
    let mut names = Vec::new(alloc);
    for word in text.split_whitespace() {
        names.push(axiom(rt, word)).expect(rt, "memory");
    }
    names
}

/// A literal over eight variables, drawn from the state.
fn drawn_lit(state: u32) -> Lit {
    let draw = state >> 16;
    Lit {
        node: Node::Input((draw >> 1) % 8),
        neg: draw % 2 == 0,
    }
}

/// The state of the draws after this one.
fn next_state(state: u32) -> u32 {
    state.wrapping_mul(1_664_525).wrapping_add(1_013_904_223)
}

/// Puts the clause of the literals last, with its place as its name, unless two of them are opposite.
fn put_drawn(rt: &impl Abort, alloc: Global, base: &mut Vec<Named>, lits: &[Lit]) {
    let by = Ref::Entry(base.len() as u64, 0);
    match Clause::of(alloc, lits) {
        Ok(clause) => base.push(Named { clause, by }).expect(rt, "memory"),
        Err(fault) => expect(rt, "a tautology", fault == ClauseErr::Tautology),
    }
}

/// Up to 38 clauses of three drawn literals over eight variables.
pub(crate) fn drawn_base(rt: &impl Abort, alloc: Global, seed: u32) -> Vec<Named> {
    let mut base = Vec::new(alloc);
    let mut state = seed;
    for _ in 0..38 {
        let first = next_state(state);
        let second = next_state(first);
        state = next_state(second);
        let lits = [drawn_lit(first), drawn_lit(second), drawn_lit(state)];
        put_drawn(rt, alloc, &mut base, &lits);
    }
    base
}
