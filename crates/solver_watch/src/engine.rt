ghost use Rattle.std.specs.Prelude.{◌≡◌, ◌<◌, ◌≤◌, ◌*◌, List, [], length, IfOk, IfNone, IfSome, OnOk};
ghost use Rattle.flat_base.specs.Flat.{named_of};
ghost use Rattle.unit_prop.specs.Log.{IsBase};
ghost use Rattle.unit_prop.specs.Refuter.{IsOver, Answers};
ghost use Rattle.unit_prop.specs.Step.{IsStep};
ghost use Rattle.lits.specs.Same.{same_lit, opposite};
ghost use Rattle.solver_plain.specs.Formula.{clause_named};
ghost use Rattle.watch_lists.specs.Trail.{IsTrail, IsComplete, IsConflict, Decides, clause_at, lits_of};
ghost use Rattle.flat_base.specs.Codes.{lit_at};
ghost use Rattle.solver_watch.specs.Choice.{IsOpenCode};
ghost use Rattle.lits.specs.declared.literal.Lit.{Lit};
ghost use Rattle.solver_watch.specs.Assuming.{IsAssuming};
ghost use Rattle.solver_watch.specs.Known.{AreUsed, IsKnown, base_in, clauses_known};
ghost use Rattle.solver_watch.specs.Marked.{IsRefuted};
ghost use Rattle.solver_watch.specs.Search.{IsFound, IsState, IsLearnt, IsBack, Advances};

use crate::choice::{Assumption, choose, next_assumption};
use crate::cut::Cut;
use crate::formula::Formula;
use crate::hints::hints;
use crate::learn::{analyse, hand_back};
use crate::order::Order;
use crate::restarts::Restarts;
use flat_base::FlatBase;
use lits::{Clause, Hints, Listed, Lit, Named, Ref};
use std::alloc::{AllocError, Global};
use unit_prop::Refuted;
use watch_lists::{Put, Trail};

/// What a search ends with.
#[derive(Drop)]
pub(crate) enum Found {
    /// The hints that make the target a step.
    Yes(Hints),
    /// A model of the base in which the target is false.
    No(Listed<Lit>),
    /// A step, which is the last one of the log now.
    Learned,
}

/// Formula and tools of a search.
pub(crate) struct Engine {
    pub(crate) formula: Formula,
    /// How many levels are those of the target's negations.
    pub(crate) assumed: u64,
    cut: Cut,
    /// The codes of the clause that was learned last.
    codes: Vec<u32>,
    order: Order,
    restarts: Restarts,
}

// Written out, so that a drop is one call and not one for each field at each exit of a function.
impl Drop for Engine {
    fn drop(self) {
        let Engine {
            formula: _,
            assumed: _,
            cut: _,
            codes: _,
            order: _,
            restarts: _,
        } = self;
    }
}

impl Engine {
    /// An engine without clauses.
    pub(crate) fn new(alloc: Global) -> Result<Engine, AllocError>
        ensures { IfOk result (λ e. clauses_known e.formula ≡ record { base = []; log = [] }) }
    {
        Ok(Engine {
            formula: Formula::new(alloc)?,
            assumed: 0,
            cut: Cut::new(alloc),
            codes: Vec::new(alloc),
            order: Order::new(alloc),
            restarts: Restarts::new(),
        })
    }

    /// Takes a base in the place of all that was there.
    pub(crate) fn start(&mut self, base: &[Named]) -> Result<(), AllocError>
        requires { IsBase base.now }
        ensures known { OnOk result (IsKnown self.new.formula) }
        ensures clauses { OnOk result
            (clauses_known self.new.formula ≡ record { base = base.now; log = [] }) }
    {
        self.formula.start(base)?;
        self.order.start(self.formula.trail.variables() as u32)
    }

    /// Takes a flat base in the place of all that was there.
    pub(crate) fn start_flat(&mut self, base: &FlatBase) -> Result<(), AllocError>
        requires base { IsBase (named_of base.now) }
        requires used { AreUsed base.now }
        ensures known { OnOk result (IsKnown self.new.formula) }
        ensures clauses { OnOk result
            (clauses_known self.new.formula ≡ record { base = named_of base.now; log = [] }) }
    {
        self.formula.start_flat(base)?;
        self.order.start(self.formula.trail.variables() as u32)
    }

    /// Searches and learns until there is an answer or no unit is left.
    pub(crate) fn settle(
        &mut self,
        alloc: Global,
        target: &Clause<Lit>,
        left: &mut u64,
    ) -> Result<Refuted, AllocError>
        requires known { IsKnown self.old.formula }
        requires over { IsOver (base_in self.old.formula) target.now }
        ensures answer { IfOk result (Answers (base_in self.old.formula) target.now
            self.old.formula.log.items left.old self.new.formula.log.items left.new) }
        ensures base { OnOk result (base_in self.new.formula ≡ base_in self.old.formula) }
        ensures known { OnOk result (IsKnown self.new.formula) }
    {
        self.restarts = Restarts::new();
        self.back(0)?;
        while *left > 0 {
            match self.search(alloc, target)? {
                Found::Yes(hints) => return Ok(Refuted::Yes(hints)),
                Found::No(model) => return Ok(Refuted::No(model)),
                Found::Learned => {}
            }
            *left -= 1;
            self.restart()?;
        }
        Ok(Refuted::Spent)
    }

    /// Goes back to the target's negations where a restart is due.
    fn restart(&mut self) -> Result<(), AllocError>
        requires { IsKnown self.old.formula }
        ensures known { OnOk result (IsKnown self.new.formula) }
        ensures clauses { OnOk result (clauses_known self.new.formula ≡ clauses_known self.old.formula) }
        ensures assuming { OnOk result
            ((target : List Lit) → IsAssuming target self.old.formula.trail self.old.assumed
            → IsAssuming target self.new.formula.trail self.new.assumed) }
    {
        if self.restarts.count() {
            self.back(self.assumed)?;
        }
        Ok(())
    }

    /// Gives the levels above this one up.
    fn back(&mut self, level: u64) -> Result<(), AllocError>
        requires { IsKnown self.old.formula }
        ensures { OnOk result (IsBack level self.old self.new) }
    {
        hand_back(&self.formula.trail, &mut self.order, level)?;
        self.formula.trail.back(level);
        self.assumed = self.assumed.min(level);
        Ok(())
    }

    /// Searches until there is an answer or one more step in the log. A restart comes between two
    /// searches alone, so that each of them ends.
    fn search(&mut self, alloc: Global, target: &Clause<Lit>) -> Result<Found, AllocError>
        requires state { IsState self.old target.now }
        ensures state { OnOk result (IsState self.new target.now) }
        ensures found { IfOk result
            (IsFound (clauses_known self.old.formula) target.now (clauses_known self.new.formula)) }
    {
        loop {
            match self.round(alloc, target)? {
                Some(found) => return Ok(found),
                None => {}
            }
        }
    }

    /// Propagates, and then answers, learns or decides.
    fn round(&mut self, alloc: Global, target: &Clause<Lit>) -> Result<Option<Found>, AllocError>
        requires state { IsState self.old target.now }
        ensures state { OnOk result (IsState self.new target.now) }
        ensures found { IfOk result
            (λ r. IfSome r (IsFound (clauses_known self.old.formula) target.now
            (clauses_known self.new.formula))) }
        ensures none { IfOk result (λ r. IfNone r (Advances self.old self.new)) }
    {
        match self.formula.trail.propagate()? {
            Some(conflict) => Ok(Some(self.meet(alloc, target, conflict)?)),
            None => self.go_on(alloc, target),
        }
    }

    /// Answers a conflict by a proof or by one more step in the log.
    fn meet(
        &mut self,
        alloc: Global,
        target: &Clause<Lit>,
        conflict: u64,
    ) -> Result<Found, AllocError>
        requires state { IsState self.old target.now }
        requires number { conflict < length self.old.formula.trail.clauses }
        requires conflict { IsConflict self.old.formula.trail.puts
            (clause_at self.old.formula.trail.clauses conflict) }
        ensures state { OnOk result (IsState self.new target.now) }
        ensures found { IfOk result
            (IsFound (clauses_known self.old.formula) target.now (clauses_known self.new.formula)) }
    {
        if self.formula.trail.level() == self.assumed {
            return Ok(Found::Yes(self.refutation(alloc, target, conflict)?));
        }
        self.learn(alloc, conflict)?;
        Ok(Found::Learned)
    }

    /// Learns from a conflict, and goes back to where the clause forces a literal.
    fn learn(&mut self, alloc: Global, conflict: u64) -> Result<(), AllocError>
        requires known { IsKnown self.old.formula }
        requires number { conflict < length self.old.formula.trail.clauses }
        requires conflict { IsConflict self.old.formula.trail.puts
            (clause_at self.old.formula.trail.clauses conflict) }
        requires level { self.old.assumed < self.old.formula.trail.last }
        ensures { OnOk result (IsLearnt self.old self.new) }
    {
        let lesson = analyse(
            alloc,
            &self.formula,
            &mut self.cut,
            &mut self.order,
            conflict,
            &mut self.codes,
        )?;
        self.back(lesson.level)?;
        self.formula.learn(lesson.step, self.codes.as_slice())?;
        self.order.decay();
        Ok(())
    }

    /// The hints that make the target a step, from a conflict of its negations.
    fn refutation(
        &mut self,
        alloc: Global,
        target: &Clause<Lit>,
        conflict: u64,
    ) -> Result<Hints, AllocError>
        requires known { IsKnown self.old.formula }
        requires refuted { IsRefuted self.old.formula.trail target.now conflict }
        ensures step { IfOk result
            (IsStep same_lit opposite (clause_named (clauses_known self.old.formula)) target.now) }
        ensures same { (self.new.formula ≡ self.old.formula) × (self.new.assumed ≡ self.old.assumed) }
    {
        self.cut
            .to_target(&self.formula.trail, &mut self.order, target, conflict)?;
        hints(
            alloc,
            &self.formula,
            &self.cut,
            0,
            target.lits(),
            target.lits(),
            conflict,
        )
    }

    /// Assumes or decides one more literal, or answers, where all literals are the closure.
    fn go_on(&mut self, alloc: Global, target: &Clause<Lit>) -> Result<Option<Found>, AllocError>
        requires state { IsState self.old target.now }
        requires complete { IsComplete self.old.formula.trail.clauses self.old.formula.trail.puts }
        ensures state { OnOk result (IsState self.new target.now) }
        ensures found { IfOk result
            (λ r. IfSome r (IsFound (clauses_known self.old.formula) target.now
            (clauses_known self.new.formula))) }
        ensures none { IfOk result (λ r. IfNone r (Advances self.old self.new)) }
    {
        if level(&self.formula.trail) == self.assumed {
            match next_assumption(&self.formula.trail, target) {
                Assumption::Open(code) => {
                    self.decide(code)?;
                    self.assumed = self.formula.trail.level();
                    return Ok(None);
                }
                Assumption::Refuted(by) => return Ok(Some(Found::Yes(self.refutation(
                    alloc, target, by,
                )?))),
                Assumption::All => {}
            }
        }
        match choose(&self.formula.trail, &mut self.order) {
            Some(code) => {
                self.decide(code)?;
                Ok(None)
            }
            None => Ok(Some(Found::No(model(alloc, &self.formula.trail)?))),
        }
    }

    /// Begins a level with a literal that is free.
    fn decide(&mut self, code: u32) -> Result<(), AllocError>
        requires code { IsOpenCode self.old.formula.trail code }
        requires complete { IsComplete self.old.formula.trail.clauses self.old.formula.trail.puts }
        ensures clauses { OnOk result (clauses_known self.new.formula ≡ clauses_known self.old.formula) }
        ensures names { self.new.formula.names.items ≡ self.old.formula.names.items }
        ensures trail { OnOk result
            (Decides self.old.formula.trail (lit_at self.old.formula.trail.nodes code)
            self.new.formula.trail) }
        ensures nodes { OnOk result (self.new.formula.trail.nodes ≡ self.old.formula.trail.nodes) }
        ensures room { OnOk result
            (length self.new.formula.trail.puts ≤ 2 * length self.new.formula.trail.nodes) }
        ensures assumed { self.new.assumed ≡ self.old.assumed }
    {
        self.formula.trail.decide_code(code)?;
        let _puts = self.formula.trail.lits();
        Ok(())
    }
}

/// The last level of the trail, of which everything is known then.
fn level(trail: &Trail) -> u64
    ensures level { result ≡ trail.now.last }
    ensures trail { IsTrail trail.now }
{
    let _puts = trail.lits();
    trail.level()
}

/// The values of the trail.
fn model(alloc: Global, trail: &Trail) -> Result<Listed<Lit>, AllocError>
    ensures { IfOk result (λ model. model ≡ lits_of trail.now.puts) }
{
    let lits = values(alloc, trail.lits())?;
    Ok(Listed::of(lits))
}

fn values(alloc: Global, puts: &[Put]) -> Result<Vec<Lit>, AllocError>
    ensures { IfOk result (λ lits. lits.items ≡ lits_of puts.now) }
{
    let mut lits = Vec::with_capacity(alloc, puts.len())?;
    for put in puts {
        lits.push(put.lit)?;
    }
    Ok(lits)
}
