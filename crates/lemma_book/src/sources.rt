ghost use Rattle.std.specs.Prelude.{◌≡◌, Ok, Err, OnOk, IfErr};
ghost use Rattle.std.specs.Option.{option_copied};
ghost use Rattle.lits.specs.Same.{same_lit, opposite};
ghost use Rattle.unit_prop.specs.Step.{after_found, IfBad};
ghost use Rattle.unit_prop.specs.Log.{base_clause};
ghost use Rattle.netlist.specs.Miter.{positive, negative};
ghost use Rattle.lemma_book.specs.Good.{merge_clause};

use crate::book::Book;
use crate::entry::Entry;
use crate::steps::Sources;
use lits::{Lit, Literal, Named, Node, Ref};
use netlist::Net;
use unit_prop::{StepCheck, StepErr, Why};

/// What the steps of an `Out` may cite: the miter's axioms, the constraints' units, and the clauses of merges.
#[derive(Drop)]
pub(crate) struct OutClauses<'a> {
    pub net: &'a Net,
    pub book: &'a Book,
}

impl Sources for OutClauses<'_> {
    ghost use Rattle.lemma_book.specs.Good.{out_clause};

    ghost find = { λ c. out_clause c.net.now c.book.now.entries };

    fn hint(&self, check: &mut StepCheck<Lit>, name: Ref) -> Result<(), StepErr> {
        match name {
            Ref::Axiom(node, k) => match self.net.axiom(node, k) {
                Some(axiom) => check.hint(axiom.lits()),
                None => Err(StepErr::Bad(Why::NoClause)),
            },
            Ref::Bound(side, k) => match self.net.constraint(side, k) {
                Some(lit) => check.hint(&[lit]),
                None => Err(StepErr::Bad(Why::NoClause)),
            },
            Ref::Entry(entry, k) => hint_merge(check, self.book, entry, k),
            Ref::Own(_) => Err(StepErr::Bad(Why::NoClause)),
        }
    }
}

/// What the steps of a `Merge` may cite: no axiom of an XOR and no constraint's unit, so that merges stand
/// without any output, and on each input, admitted or not.
#[derive(Drop)]
pub(crate) struct NodeClauses<'a> {
    pub all: OutClauses<'a>,
}

impl Sources for NodeClauses<'_> {
    ghost use Rattle.lemma_book.specs.Good.{node_clause};

    ghost find = { λ c. node_clause c.all.net.now c.all.book.now.entries };

    fn hint(&self, check: &mut StepCheck<Lit>, name: Ref) -> Result<(), StepErr> {
        match name {
            Ref::Axiom(Node::Xor(_), _) | Ref::Bound(_, _) => Err(StepErr::Bad(Why::NoClause)),
            _ => self.all.hint(check, name),
        }
    }
}

/// Gives the check the clause that a merge shows.
fn hint_merge(check: &mut StepCheck<Lit>, book: &Book, entry: u64, k: u8) -> Result<(), StepErr>
    ensures ok { OnOk result
        (after_found same_lit opposite check.old (merge_clause book.now.entries entry k) ≡ Ok check.new) }
    ensures bad { IfErr result (λ e. IfBad e (λ w.
        after_found same_lit opposite check.old (merge_clause book.now.entries entry k) ≡ Err w)) }
{
    let Some(Entry::Merge { node, lit, .. }) = book.entry(entry) else {
        return Err(StepErr::Bad(Why::NoClause));
    };
    match k {
        0 => check.hint(&[negative(*node), *lit]),
        1 => check.hint(&[positive(*node), lit.not()]),
        _ => Err(StepErr::Bad(Why::NoClause)),
    }
}

/// The node's literal without a sign.
pub(crate) fn positive(node: Node) -> Lit
    ensures { result ≡ positive node }
{
    Lit { node, neg: false }
}

/// The negation of the node's literal.
pub(crate) fn negative(node: Node) -> Lit
    ensures { result ≡ negative node }
{
    Lit { node, neg: true }
}

/// What the steps of a log may cite: the clauses of a cone.
#[derive(Drop)]
pub(crate) struct ConeClauses<'a> {
    pub cone: &'a [Named],
}

impl Sources for ConeClauses<'_> {
    ghost use Rattle.unit_prop.specs.Log.{base_clause};

    ghost find = { λ c. base_clause c.cone.now };

    fn hint(&self, check: &mut StepCheck<Lit>, name: Ref) -> Result<(), StepErr> {
        match clause_named(self.cone, name) {
            Some(clause) => check.hint(clause),
            None => Err(StepErr::Bad(Why::NoClause)),
        }
    }
}

/// The clause of a name, if the cone has it.
fn clause_named(cone: &[Named], name: Ref) -> Option<&[Lit]>
    ensures { option_copied result ≡ base_clause cone.now name }
{
    let (first, rest) = cone.split_first()?;
    if first.by == name {
        Some(first.clause.lits())
    } else {
        clause_named(rest, name)
    }
}
