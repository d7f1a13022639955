ghost use Rattle.std.specs.Prelude.{IfOk, IfSome};
ghost use Rattle.search_parts.specs.Settles.{SettlesOutput};

use crate::solver::ConeSolver;
use crate::solver::store::Name;
use lemma_book::Entry;
use lits::{Clause, ClauseErr, Hints, Listed, Lit, Node, Ref, Side, Step};
use merged_net::{lit_at, node_at};
use netlist::Net;
use search_parts::{at, count};
use shared_equalities::{Equalities, Equality, Finder};
use std::alloc::{AllocError, Global};

/// What part of its steps a proof has to lose at most where it is trimmed: hardly one loses more.
const TRIMMED: u64 = 5;

impl ConeSolver {
    /// The entry of an output whose codes are equal by these clauses: that the second is true where the first
    /// is, and that the first is where the second is. Where it has more steps than the budget allows it is trimmed, and
    /// there is none where that isn't enough.
    pub(crate) fn out(
        &mut self,
        alloc: Global,
        net: &Net,
        equalities: &Equalities,
        output: u32,
        cases: (u32, u32),
        budget: u64,
    ) -> Result<Option<Entry>, AllocError>
        ensures { IfOk result (λ o. IfSome o (SettlesOutput output)) }
    {
        let most = budget.saturating_add(2);
        let mut steps = self.proof(alloc, net, equalities, output, cases)?;
        if is_worth_trimming(&steps, most) {
            self.trim(cases)?;
            steps = self.proof(alloc, net, equalities, output, cases)?;
        }
        if steps.len() as u64 > most {
            return Ok(None);
        }
        let steps = Listed::of(steps);
        Ok(Some(Entry::Out { output, steps }))
    }

    /// The steps by which these clauses show the two codes of an output equal, with those of the equalities.
    fn proof(
        &mut self,
        alloc: Global,
        net: &Net,
        equalities: &Equalities,
        output: u32,
        cases: (u32, u32),
    ) -> Result<Vec<Step>, AllocError> {
        let Some(first) = net.output(Side::A, output) else {
            return Ok(Vec::new(alloc));
        };
        self.shown = equalities.len();
        let mut steps = self.steps(alloc, net, cases)?;
        let there = self.own(cases.0);
        let back = self.own(cases.1);
        let xor = Node::Xor(output);
        let equal = Lit {
            node: xor,
            neg: true,
        };
        let before = self.own_step(count(steps.len()));
        let one = [Ref::Axiom(xor, 0), back];
        add_step(alloc, &[equal, first], &one, &mut steps)?;
        let two = [before, there, Ref::Axiom(xor, 1)];
        add_step(alloc, &[equal], &two, &mut steps)?;
        equalities.proof(alloc, &steps)
    }

    /// Has the equalities take why a node is equal to a code, by these clauses. What they rest on is named as a
    /// step of the equalities from now on, so that another equality has it but once.
    pub(crate) fn keep_equal(
        &mut self,
        alloc: Global,
        net: &Net,
        equalities: &mut Equalities,
        position: u32,
        target: u32,
        cases: (u32, u32),
    ) -> Result<(), AllocError> {
        self.shown = equalities.len();
        let steps = self.steps(alloc, net, cases)?;
        let equality = Equality {
            target,
            there: self.place(cases.0),
            back: self.place(cases.1),
        };
        equalities.push(Finder::Whole, position, equality, steps)?;
        for place in 0..count(self.listed.len()) {
            let number = at(&self.listed, place);
            let mut record = self.store.record(number);
            record.name = Name::Shown(self.shown.saturating_add(place));
            self.store.set_record(number, record);
        }
        Ok(())
    }

    /// The steps of the clauses that two of them lead to, in order.
    fn steps(
        &mut self,
        alloc: Global,
        net: &Net,
        cases: (u32, u32),
    ) -> Result<Vec<Step>, AllocError> {
        self.reach(cases)?;
        let mut steps = Vec::new(alloc);
        for place in 0..count(self.listed.len()) {
            let number = at(&self.listed, place);
            self.add_lesson(alloc, net, number, &mut steps)?;
        }
        Ok(steps)
    }

    /// Lists and numbers the clauses that two of them lead to, in order.
    pub(crate) fn reach(&mut self, cases: (u32, u32)) -> Result<(), AllocError> {
        self.query = self.query.wrapping_add(1);
        self.listed.clear();
        self.pending.clear();
        self.want(cases.0)?;
        self.want(cases.1)?;
        for _ in 0..u64::MAX {
            let Some(number) = self.pending.pop() else {
                break;
            };
            let hints = self.store.record(number).hints;
            for place in hints.start..hints.start.saturating_add(hints.len) {
                let hint = self.store.hint(place);
                self.want(hint)?;
            }
        }
        self.listed.as_mut_slice().sort_unstable();
        for place in 0..count(self.listed.len()) {
            let number = at(&self.listed, place);
            let mut record = self.store.record(number);
            record.order = place;
            self.store.set_record(number, record);
        }
        Ok(())
    }

    /// Lists a clause that was learned, unless it is there.
    fn want(&mut self, number: u32) -> Result<(), AllocError> {
        let mut record = self.store.record(number);
        if record.wanted == self.query {
            return Ok(());
        }
        if let Name::Lesson = record.name {
            record.wanted = self.query;
            self.store.set_record(number, record);
            self.listed.push(number)?;
            self.pending.push(number)?;
        }
        Ok(())
    }

    /// Puts the step of a clause last.
    fn add_lesson(
        &self,
        alloc: Global,
        net: &Net,
        number: u32,
        steps: &mut Vec<Step>,
    ) -> Result<(), AllocError> {
        let record = self.store.record(number);
        let mut lits = Vec::new(alloc);
        for code in self.store.codes_of(number) {
            let position = self.nodes.get(*code / 2).position;
            lits.push(lit_at(net, position.wrapping_mul(2) | (*code & 1)))?;
        }
        let mut hints = Vec::with_capacity(alloc, record.hints.len as usize)?;
        for hint in self.store.hints(record.hints) {
            hints.push(self.name_of(net, *hint))?;
        }
        add_step(alloc, &lits, &hints, steps)
    }

    /// What a clause is called in the entry's steps.
    fn name_of(&self, net: &Net, number: u32) -> Ref {
        match self.store.record(number).name {
            Name::Axiom(position, k) => Ref::Axiom(node_at(net, position), k),
            Name::Entry(place, k) => Ref::Entry(u64::from(place), k),
            Name::Shown(step) => Ref::Own(u64::from(step)),
            Name::Lesson => self.own(number),
        }
    }

    /// What a clause that was learned is called there.
    fn own(&self, number: u32) -> Ref {
        Ref::Own(u64::from(self.place(number)))
    }

    /// What a step that is added is called, by its number: it stands behind those of the equalities.
    fn own_step(&self, number: u32) -> Ref {
        Ref::Own(u64::from(self.shown.saturating_add(number)))
    }

    /// The place of a clause that was learned, among the steps of the equalities and those behind them.
    fn place(&self, number: u32) -> u32 {
        self.shown.saturating_add(self.store.record(number).order)
    }
}

/// Whether steps are too many, but not by so much that trimming them is in vain.
fn is_worth_trimming(steps: &[Step], most: u64) -> bool {
    let many = steps.len() as u64;
    many > most && many.saturating_sub(many / TRIMMED) <= most
}

/// Puts the step last that adds a clause. One with a complementary pair, which is none, adds no step.
fn add_step(
    alloc: Global,
    lits: &[Lit],
    hints: &[Ref],
    steps: &mut Vec<Step>,
) -> Result<(), AllocError> {
    match Clause::of(alloc, lits) {
        Ok(clause) => {
            let hints = Hints::of(Vec::from_slice(alloc, hints)?);
            steps.push(Step { clause, hints })?;
            Ok(())
        }
        Err(ClauseErr::Tautology) => Ok(()),
        Err(ClauseErr::NoMemory) => Err(AllocError),
    }
}
