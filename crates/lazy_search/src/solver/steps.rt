use crate::clauses::Name;
use crate::given::Given;
use crate::learned::Learned;
use crate::reason::Reason;
use crate::solver::LazySolver;
use crate::variables::Kind;
use lits::{Clause, ClauseErr, Hints, Lit, Ref, Step};
use merged_net::{lit_at, node_at};
use search_parts::HintSpan;
use shared_equalities::Finder;
use std::alloc::{AllocError, Global};

/// Nothing has this name, so the book refuses an entry that cites it.
const NAMELESS: Ref = Ref::Own(u64::MAX);

impl LazySolver {
    /// The steps of the learned clauses that two lists of hints lead to.
    pub(super) fn steps(
        &mut self,
        alloc: Global,
        given: &Given,
        first: HintSpan,
        second: HintSpan,
    ) -> Result<Vec<Step>, AllocError> {
        self.learned.reach(&self.clauses, first, second);
        let mut steps = Vec::new(alloc);
        for number in 0..self.learned.len() {
            let learned = self.learned.get(number);
            if learned.order > 0 {
                self.add_learned(alloc, given, learned, &mut steps)?;
            }
        }
        Ok(steps)
    }

    /// Puts the step of a learned clause last.
    fn add_learned(
        &self,
        alloc: Global,
        given: &Given,
        learned: Learned,
        steps: &mut Vec<Step>,
    ) -> Result<(), AllocError> {
        let lits = self.lits_of(alloc, given, learned.clause)?;
        self.add_step(alloc, given, &lits, &[], learned.hints, steps)
    }

    /// Puts the step last that adds a clause, shown by these names and then by the hints. A clause with a
    /// complementary pair, which is none, adds no step.
    pub(super) fn add_step(
        &self,
        alloc: Global,
        given: &Given,
        lits: &[Lit],
        names: &[Ref],
        hints: HintSpan,
        steps: &mut Vec<Step>,
    ) -> Result<(), AllocError> {
        let hints = Hints::of(self.refs(alloc, given, names, hints)?);
        match Clause::of(alloc, lits) {
            Ok(clause) => {
                steps.push(Step { clause, hints })?;
                Ok(())
            }
            Err(ClauseErr::Tautology) => Ok(()),
            Err(ClauseErr::NoMemory) => Err(AllocError),
        }
    }

    /// These names, and behind them what the hints are called.
    fn refs(
        &self,
        alloc: Global,
        given: &Given,
        names: &[Ref],
        hints: HintSpan,
    ) -> Result<Vec<Ref>, AllocError> {
        let mut refs = Vec::from_slice(alloc, names)?;
        for place in hints.start..hints.start.saturating_add(hints.len) {
            refs.push(self.name_of(given, self.learned.hint(place)))?;
        }
        refs.shrink_to_fit();
        Ok(refs)
    }

    /// What a clause is called in the entry's steps.
    fn name_of(&self, given: &Given, reason: Reason) -> Ref {
        match reason {
            Reason::First(var) => self.name_of_gate(given, var, 0),
            Reason::Second(var) => self.name_of_gate(given, var, 1),
            Reason::Both(var) => self.name_of_gate(given, var, 2),
            Reason::Listed(clause) => self.name_of_listed(clause),
            Reason::Choice => NAMELESS,
        }
    }

    /// What clause k of a variable is called: that of its first fanin, of its second, or of both.
    fn name_of_gate(&self, given: &Given, var: u32, k: u8) -> Ref {
        let variable = self.variables.get(var);
        let node = node_at(given.net, variable.position);
        match variable.kind {
            Kind::Merged(entry) => Ref::Entry(u64::from(entry), k / 2),
            Kind::Shown => name_of_equality(given, variable.position, k / 2),
            Kind::Turned if k < 2 => Ref::Axiom(node, 1 - k),
            _ => Ref::Axiom(node, k),
        }
    }

    /// What a clause is called that isn't a gate's.
    fn name_of_listed(&self, clause: u32) -> Ref {
        match self.clauses.name(clause) {
            Some(Name::Learned(number)) => self.own(
                self.learned.get(number).order.saturating_sub(1),
            ),
            Some(Name::Bound(side, k)) => Ref::Bound(side, k),
            None => NAMELESS,
        }
    }

    /// What a step is called that the query adds, by its number: it stands behind those of the equalities.
    pub(super) fn own(&self, number: u32) -> Ref {
        Ref::Own(u64::from(self.shown).saturating_add(u64::from(number)))
    }

    /// The literals of a clause.
    fn lits_of(&self, alloc: Global, given: &Given, clause: u32) -> Result<Vec<Lit>, AllocError> {
        let mut lits = Vec::new(alloc);
        for code in self.clauses.get(clause) {
            let position = self.variables.position(*code / 2);
            lits.push(lit_at(given.net, position.wrapping_mul(2) | (*code & 1)))?;
        }
        Ok(lits)
    }
}

/// What clause k is called of those that say what a node is equal to.
fn name_of_equality(given: &Given, position: u32, k: u8) -> Ref {
    match given.equalities.target(Finder::Lazy, position) {
        Some(equality) if k == 0 => Ref::Own(u64::from(equality.there)),
        Some(equality) => Ref::Own(u64::from(equality.back)),
        None => NAMELESS,
    }
}
