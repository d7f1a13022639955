ghost use Rattle.std.specs.Prelude.{IfOk, IfSome};
ghost use Rattle.search_parts.specs.Settles.{SettlesOutput, SettlesPair};

use crate::given::{Domain, Effort, Given};
use crate::solver::LazySolver;
use crate::solver::round::Outcome;
use lemma_book::{Entry, Task};
use lits::{Listed, Lit, Literal, Node, Ref, Side, Step};
use merged_net::{lit_at, lit_code};
use search_parts::{HintSpan, count, mark};
use shared_equalities::Equality;
use std::alloc::{AllocError, Global};
use xor_sums::Sums;

/// What was found out of two codes.
#[derive(Clone, Copy)]
enum Found {
    /// They have one value: the first clauses refute that only the first code is true, the other ones that
    /// only the second.
    Equal(HintSpan, HintSpan),
    /// They differ on the inputs that the trail has.
    Apart,
    Open,
}

impl LazySolver {
    /// The entry that a search proposes for a pair.
    pub fn pair(
        &mut self,
        alloc: Global,
        given: &Given,
        sums: &mut Sums,
        task: &Task,
        effort: Effort,
    ) -> Result<Option<Entry>, AllocError>
        ensures { IfOk result (λ o. IfSome o (SettlesPair task.now)) }
    {
        let Task { node, lit } = *task;
        let positive = Lit { node, neg: false };
        self.shown = 0;
        match self.compare(given, sums, positive, lit, effort, Domain::All)? {
            Found::Equal(there, back) => {
                let steps = self.merge_steps(alloc, given, positive, lit, there, back)?;
                let steps = Listed::of(steps);
                Ok(Some(Entry::Merge { node, lit, steps }))
            }
            Found::Apart => {
                let input = self.input(alloc, given)?;
                Ok(Some(Entry::Apart { node, lit, input }))
            }
            Found::Open => Ok(None),
        }
    }

    /// The entry that a search over these inputs proposes for an output.
    pub fn output(
        &mut self,
        alloc: Global,
        given: &Given,
        sums: &mut Sums,
        output: u32,
        effort: Effort,
        domain: Domain,
    ) -> Result<Option<Entry>, AllocError>
        ensures { IfOk result (λ o. IfSome o (SettlesOutput output)) }
    {
        let sides = (
            given.net.output(Side::A, output),
            given.net.output(Side::B, output),
        );
        let (Some(first), Some(second)) = sides else {
            return Ok(None);
        };
        if first == second {
            return self.out_of_one(alloc, given, output);
        }
        self.shown = given.equalities.len();
        match self.compare(given, sums, first, second, effort, domain)? {
            Found::Equal(there, back) => self.out(alloc, given, output, first, there, back),
            Found::Apart => {
                let input = self.input(alloc, given)?;
                Ok(Some(Entry::OutApart { output, input }))
            }
            Found::Open => Ok(None),
        }
    }

    /// Searches for why a node is equal to a code: the equality, whose steps stand after those of the equalities
    /// that are given, and these steps.
    pub fn equality(
        &mut self,
        alloc: Global,
        given: &Given,
        sums: &mut Sums,
        position: u32,
        target: u32,
        effort: Effort,
    ) -> Result<Option<(Equality, Vec<Step>)>, AllocError> {
        let node = lit_at(given.net, position.wrapping_mul(2));
        let lit = lit_at(given.net, target);
        self.shown = given.equalities.len();
        match self.compare(given, sums, node, lit, effort, Domain::All)? {
            Found::Equal(there, back) => {
                let steps = self.merge_steps(alloc, given, node, lit, there, back)?;
                let end = self.shown.saturating_add(count(steps.len()));
                let equality = Equality {
                    target,
                    there: end.saturating_sub(2),
                    back: end.saturating_sub(1),
                };
                Ok(Some((equality, steps)))
            }
            _ => Ok(None),
        }
    }

    /// Asks whether two literals have one value on these inputs.
    fn compare(
        &mut self,
        given: &Given,
        sums: &mut Sums,
        first: Lit,
        second: Lit,
        effort: Effort,
        domain: Domain,
    ) -> Result<Found, AllocError> {
        let codes = (lit_code(given.net, first), lit_code(given.net, second));
        let (Some(first), Some(second)) = codes else {
            return Ok(Found::Open);
        };
        self.begin(effort.caps)?;
        let first = self.code(first)?;
        let second = self.code(second)?;
        if first / 2 == second / 2 {
            return Ok(Found::Open);
        }
        if let Domain::Admitted = domain {
            self.load_constraints(given.net)?;
        }
        let is_known = self.add_up(given, sums, first, second, effort.steps)?;
        if !is_known && effort.caps.conflicts == 0 {
            return Ok(Found::Open);
        }
        self.ask_both(given, first, second)
    }

    /// Asks whether the first code alone can be true, and then whether the second can.
    fn ask_both(&mut self, given: &Given, first: u32, second: u32) -> Result<Found, AllocError> {
        match self.ask(given, first, second ^ 1)? {
            Outcome::Refuted(there) => match self.ask(given, first ^ 1, second)? {
                Outcome::Refuted(back) => Ok(Found::Equal(there, back)),
                Outcome::Possible => Ok(Found::Apart),
                Outcome::Open => Ok(Found::Open),
            },
            Outcome::Possible => Ok(Found::Apart),
            Outcome::Open => Ok(Found::Open),
        }
    }

    /// The steps that show two literals equal; the last two say it.
    fn merge_steps(
        &mut self,
        alloc: Global,
        given: &Given,
        first: Lit,
        second: Lit,
        there: HintSpan,
        back: HintSpan,
    ) -> Result<Vec<Step>, AllocError> {
        let mut steps = self.steps(alloc, given, there, back)?;
        self.add_step(alloc, given, &[first.not(), second], &[], there, &mut steps)?;
        self.add_step(alloc, given, &[first, second.not()], &[], back, &mut steps)?;
        Ok(steps)
    }

    /// The entry of an output of which both cases are refuted: first that the second literal alone is true,
    /// and then that the first is.
    fn out(
        &mut self,
        alloc: Global,
        given: &Given,
        output: u32,
        first: Lit,
        there: HintSpan,
        back: HintSpan,
    ) -> Result<Option<Entry>, AllocError>
        ensures { IfOk result (λ o. IfSome o (SettlesOutput output)) }
    {
        let mut steps = self.steps(alloc, given, back, there)?;
        let xor = Node::Xor(output);
        self.add_cases(alloc, given, xor, first, (back, there), &mut steps)?;
        let steps = Listed::of(given.equalities.proof(alloc, &steps)?);
        Ok(Some(Entry::Out { output, steps }))
    }

    /// Puts the two steps last that show that an output's difference is false, by the hints of its two cases.
    fn add_cases(
        &self,
        alloc: Global,
        given: &Given,
        xor: Node,
        first: Lit,
        cases: (HintSpan, HintSpan),
        steps: &mut Vec<Step>,
    ) -> Result<(), AllocError> {
        let equal = Lit {
            node: xor,
            neg: true,
        };
        let before = self.own(count(steps.len()));
        let one = Ref::Axiom(xor, 0);
        let both = Ref::Axiom(xor, 1);
        self.add_step(alloc, given, &[equal, first], &[one], cases.0, steps)?;
        self.add_step(alloc, given, &[equal], &[before, both], cases.1, steps)
    }

    /// The entry of an output that is one literal in both circuits.
    fn out_of_one(
        &self,
        alloc: Global,
        given: &Given,
        output: u32,
    ) -> Result<Option<Entry>, AllocError>
        ensures { IfOk result (λ o. IfSome o (SettlesOutput output)) }
    {
        let xor = Node::Xor(output);
        let equal = Lit {
            node: xor,
            neg: true,
        };
        let mut steps = Vec::new(alloc);
        let names = [Ref::Axiom(xor, 0), Ref::Axiom(xor, 1)];
        let none = HintSpan { start: 0, len: 0 };
        self.add_step(alloc, given, &[equal], &names, none, &mut steps)?;
        let steps = Listed::of(steps);
        Ok(Some(Entry::Out { output, steps }))
    }

    /// The inputs on which the codes that were asked for are both true.
    fn input(&self, alloc: Global, given: &Given) -> Result<Listed<bool>, AllocError> {
        let mut input = vec![in alloc; false; given.net.circuit(Side::A).inputs().len()]?;
        for code in self.trail.lits() {
            let position = self.variables.position(*code / 2);
            if *code & 1 == 0 && given.merges.is_input(position) {
                mark(&mut input, position.wrapping_sub(1), true);
            }
        }
        Ok(Listed::of(input))
    }
}
