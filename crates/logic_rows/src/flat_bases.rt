//! Flat bases of the lists that the cases are written as.
ghost use Rattle.std.specs.Prelude.{◌≡◌, ◌<◌, ◌≤◌, ◌^◌, ◌⊎◌, ◌++◌, ◌∷◌, [], if◌then◌else◌, ℕ, List, false, length, slice_index_or, IfSome, IfNone};
ghost use Rattle.std.specs.List.{AllByRecursion};
ghost use Rattle.lits.specs.Clause.{has};
ghost use Rattle.lits.specs.Same.{same_node};
ghost use Rattle.lits.specs.declared.node.Node.TheVariants.{Const};
ghost use Rattle.flat_base.specs.Codes.{lit_at, IsCode};
ghost use Rattle.flat_base.specs.Flat.{clause_at};

use flat_base::FlatBase;
use lits::{Lit, Named, Node};
use std::alloc::Global;
use std::process::Abort;

/// The clauses of the list over numbers that their variables get as they come.
pub(crate) fn flat_of(rt: &impl Abort, alloc: Global, base: &[Named]) -> FlatBase {
    let mut flat = FlatBase::new(alloc);
    for named in base {
        push(rt, alloc, &mut flat, named);
    }
    flat
}

/// Puts the clause last.
fn push(rt: &impl Abort, alloc: Global, flat: &mut FlatBase, named: &Named) {
    let codes = codes_of(rt, alloc, flat, named.clause.lits());
    flat.push(named.by, codes.as_slice()).expect(rt, "memory");
}

/// The codes of the literals, whose variables are numbered where they have no numbers.
fn codes_of(rt: &impl Abort, alloc: Global, flat: &mut FlatBase, lits: &[Lit]) -> Vec<u32>
    ensures within { AllByRecursion (IsCode flat.new.nodes) result.items }
    ensures lits { clause_at flat.new.nodes result.items ≡ lits.now }
{
    let mut codes = Vec::new(alloc);
    for lit in lits {
        codes.push(code_of(rt, flat, *lit)).expect(rt, "memory");
    }
    codes
}

/// The code of the literal, whose variable is numbered where it has no number.
#[tactic(auto, using(crate::proofs::FlatLemmas::lit_at_number, crate::proofs::FlatLemmas::within_more, crate::proofs::FlatLemmas::kept_more))]
fn code_of(rt: &impl Abort, flat: &mut FlatBase, lit: Lit) -> u32
    ensures code { IsCode flat.new.nodes result }
    ensures lit { lit_at flat.new.nodes result ≡ lit }
    ensures within { (codes : List ℕ) → AllByRecursion (IsCode flat.old.nodes) codes
        → AllByRecursion (IsCode flat.new.nodes) codes }
    ensures kept { (codes : List ℕ) → AllByRecursion (IsCode flat.old.nodes) codes
        → clause_at flat.new.nodes codes ≡ clause_at flat.old.nodes codes }
{
    2 * numbered(rt, flat, lit.node) + sign(lit)
}

/// One where the literal is negated.
fn sign(lit: Lit) -> u32
    ensures value { result ≡ (if lit.neg then 1 else 0) }
    ensures small { result ≤ 1 }
{
    if lit.neg { 1 } else { 0 }
}

/// The number of the node, which gets the next one where it has none.
fn numbered(rt: &impl Abort, flat: &mut FlatBase, node: Node) -> u32
    ensures small { result < 2 ^ 31 }
    ensures within { result < length flat.new.nodes }
    ensures at { slice_index_or flat.new.nodes result Const ≡ node }
    ensures grows { (flat.new.nodes ≡ flat.old.nodes) ⊎ (flat.new.nodes ≡ flat.old.nodes ++ node ∷ []) }
{
    match number_of(flat.nodes(), node) {
        Some(number) => number,
        None => flat.number(node).expect(rt, "memory"),
    }
}

/// The number of the node among the nodes.
fn number_of(nodes: &[Node], node: Node) -> Option<u32>
    requires { length nodes.now ≤ 2 ^ 31 }
    ensures small { IfSome result (λ n. n < length nodes.now) }
    ensures some { IfSome result (λ n. slice_index_or nodes.now n Const ≡ node) }
    ensures none { IfNone result (has same_node nodes.now node ≡ false) }
{
    let (first, rest) = nodes.split_first()?;
    if *first == node {
        return Some(0);
    }
    match number_of(rest, node) {
        Some(number) => Some(number + 1),
        None => None,
    }
}
