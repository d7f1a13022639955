ghost use Rattle.std.specs.Prelude.{◌≡◌, true, false, not, ◌++◌, [], ◌∷◌, Ok, Err, OnOk, OnErr, IfErr, if◌then◌else◌, ◌&&◌, map};
ghost use Rattle.std.specs.List.{list_any};
ghost use Rattle.lits.specs.Clause.{firsts, has, has_pair};
ghost use Rattle.lits.specs.Finder.{HasOwnCodes};
ghost use Rattle.unit_prop.specs.Step.{IfBad, start_of, open_in, is_satisfied, after_hint};
ghost use Rattle.unit_prop.specs.Propagation.{IsConsistent};
ghost use Rattle.unit_prop.specs.StepCheck.{Assumes, IsOpenPart};

use crate::why::{StepErr, Why};
use lits::{Literal, LiteralSet};
use std::alloc::Global;
use std::marker::Model;

/// Judges the hints of a step one by one, each in the time of its clause's literals.
pub struct StepCheck<L: Literal> {
    set: LiteralSet<L>,
    clashed: bool,
}

// Written out, so that a drop is one call and not one for each field at each exit of a function.
impl<L: Literal> Drop for StepCheck<L> {
    fn drop(self) {
        let StepCheck { set: _, clashed: _ } = self;
    }
}

impl<L: Literal> Model for StepCheck<L> {
    ghost use Rattle.unit_prop.specs.Step.{State};
    ghost use Rattle.unit_prop.specs.Propagation.{IsConsistent};

    ghost Value = { State L };

    ghost view = { λ c. record { set = c.set; clashed = c.clashed } };

    ghost invariant = { λ c. IsConsistent L.PartialEq.eq L.Literal.opposite c.set };
}

impl<L: Literal> StepCheck<L> {
    /// A check that has begun no step.
    pub fn new(alloc: Global) -> StepCheck<L>
        ensures { result ≡ record { set = []; clashed = false } }
    {
        StepCheck {
            set: LiteralSet::new(alloc),
            clashed: false,
        }
    }

    /// A check that has begun no step, for many steps. It looks each literal up once, by a mark for each code,
    /// which takes a byte for each code up to the greatest that it meets.
    pub fn marked(alloc: Global) -> StepCheck<L>
        requires { HasOwnCodes L.Literal.code }
        ensures { result ≡ record { set = []; clashed = false } }
    {
        StepCheck {
            set: LiteralSet::marked(alloc),
            clashed: false,
        }
    }

    /// Begins the step that adds the clause, and forgets the one before. The negations of the clause's
    /// literals are assumed. After a refusal no step is begun, and the next call is `begin`.
    pub fn begin(&mut self, clause: &[L]) -> Result<(), StepErr>
        ensures state { OnOk result
            (self.new ≡ start_of L.PartialEq.eq L.Literal.opposite clause.now) }
        ensures clause { OnOk result
            (has_pair L.PartialEq.eq L.Literal.opposite clause.now ≡ false) }
        ensures bad { IfErr result (λ e. IfBad e (λ w. w ≡ Why.Tautology)) }
        ensures tautology { IfErr result (λ e. IfBad e (λ _.
            has_pair L.PartialEq.eq L.Literal.opposite clause.now ≡ true)) }
        ensures refused { OnErr result (self.new ≡ record { set = []; clashed = false }) }
    {
        self.clashed = false;
        let begun = assume_all(&mut self.set, clause);
        if begun.is_err() {
            self.set.clear();
        }
        begun
    }

    /// Takes the clause of the step's next hint. After a refusal the next call is `begin`.
    pub fn hint(&mut self, clause: &[L]) -> Result<(), StepErr>
        ensures ok { OnOk result
            (after_hint L.PartialEq.eq L.Literal.opposite self.old clause.now ≡ Ok self.new) }
        ensures bad { IfErr result (λ e. IfBad e (λ w.
            after_hint L.PartialEq.eq L.Literal.opposite self.old clause.now ≡ Err w)) }
        ensures refused { OnErr result (self.new ≡ self.old) }
    {
        if self.clashed {
            return Err(StepErr::Bad(Why::AfterFalse));
        }
        match open_part(&self.set, clause) {
            OpenPart::Nothing => {
                self.clashed = true;
                Ok(())
            }
            OpenPart::One(lit) => take_open(&mut self.set, lit),
            OpenPart::More => Err(StepErr::Bad(fault_of_more(&self.set, clause))),
        }
    }

    /// Ends the step, which shows its clause exactly if a hint's clause was wholly false. The next call is
    /// `begin`.
    pub fn end(&mut self) -> Result<(), Why>
        ensures ok { OnOk result (self.old.clashed ≡ true) }
        ensures bad { IfErr result (λ w. w ≡ Why.NotFalse) }
        ensures not_false { OnErr result (self.old.clashed ≡ false) }
        ensures ended { self.new ≡ record { set = []; clashed = false } }
    {
        let clashed = self.clashed;
        self.set.clear();
        self.clashed = false;
        if clashed { Ok(()) } else { Err(Why::NotFalse) }
    }
}

/// Makes the set that of the negations of the clause's literals. Where this is refused, a first part of them
/// may stand, which the caller takes back.
fn assume_all<L: Literal>(set: &mut LiteralSet<L>, clause: &[L]) -> Result<(), StepErr>
    ensures set { OnOk result (set.new ≡ map L.Literal.opposite (firsts L.PartialEq.eq clause.now)) }
    ensures clause { OnOk result (has_pair L.PartialEq.eq L.Literal.opposite clause.now ≡ false) }
    ensures consistent { OnOk result (IsConsistent L.PartialEq.eq L.Literal.opposite set.new) }
    ensures bad { IfErr result (λ e. IfBad e (λ w. w ≡ Why.Tautology)) }
    ensures tautology { IfErr result (λ e. IfBad e (λ _.
        has_pair L.PartialEq.eq L.Literal.opposite clause.now ≡ true)) }
{
    set.clear();
    for lit in clause {
        assume(set, *lit)?;
    }
    Ok(())
}

/// Puts the negation of a literal into the set, unless it is there already.
fn assume<L: Literal>(set: &mut LiteralSet<L>, lit: L) -> Result<(), StepErr>
    ensures ok { OnOk result (Assumes L.PartialEq.eq L.Literal.opposite set.old lit set.new) }
    ensures bad { IfErr result (λ e. IfBad e (λ w. w ≡ Why.Tautology)) }
    ensures pair { IfErr result (λ e. IfBad e (λ _. has L.PartialEq.eq set.old lit ≡ true)) }
    ensures refused { OnErr result (set.new ≡ set.old) }
{
    if set.has(lit) {
        return Err(StepErr::Bad(Why::Tautology));
    }
    let negation = lit.not();
    if !set.has(negation) {
        set.push(negation)?;
    }
    Ok(())
}

/// Puts the only literal that a hint's clause leaves open into the set; it is true where the set has it.
fn take_open<L: Literal>(set: &mut LiteralSet<L>, lit: L) -> Result<(), StepErr>
    ensures ok { OnOk result
        ((has L.PartialEq.eq set.old lit ≡ false) × (set.new ≡ set.old ++ lit ∷ [])) }
    ensures bad { IfErr result (λ e. IfBad e (λ w.
        (w ≡ Why.Satisfied) × (has L.PartialEq.eq set.old lit ≡ true))) }
    ensures refused { OnErr result (set.new ≡ set.old) }
{
    if set.has(lit) {
        return Err(StepErr::Bad(Why::Satisfied));
    }
    set.push(lit)?;
    Ok(())
}

/// The fault of a hint whose clause leaves more than one literal open.
fn fault_of_more<L: Literal>(set: &LiteralSet<L>, clause: &[L]) -> Why
    ensures { result
        ≡ (if is_satisfied L.PartialEq.eq set.now clause.now then Why.Satisfied else Why.TwoFree) }
{
    if has_true(set, clause) {
        Why::Satisfied
    } else {
        Why::TwoFree
    }
}

/// Whether the set makes the clause true. As a hint it would show nothing, so strict checkers refuse it.
fn has_true<L: Literal>(set: &LiteralSet<L>, clause: &[L]) -> bool
    ensures { result ≡ is_satisfied L.PartialEq.eq set.now clause.now }
{
    clause.iter().any(|lit| set.has(*lit))
}

/// The literals of a clause that a set leaves open.
pub(crate) enum OpenPart<L> {
    Nothing,
    One(L),
    More,
}

/// The literals of the clause whose negations aren't in the set. Each literal is looked up once.
pub(crate) fn open_part<L: Literal>(set: &LiteralSet<L>, clause: &[L]) -> OpenPart<L>
    ensures { IsOpenPart (open_in L.PartialEq.eq L.Literal.opposite set.now clause.now) result }
{
    for (i, lit) in clause.iter().enumerate() {
        if !set.has(lit.not()) {
            let (_, rest) = clause.split_at(i + 1);
            return open_from(set, *lit, rest);
        }
    }
    OpenPart::Nothing
}

/// The same of a clause that begins with a literal whose negation isn't in the set.
fn open_from<L: Literal>(set: &LiteralSet<L>, first: L, rest: &[L]) -> OpenPart<L>
    requires { has L.PartialEq.eq set.now (L.Literal.opposite first) ≡ false }
    ensures { IsOpenPart
        (open_in L.PartialEq.eq L.Literal.opposite set.now (first ∷ rest.now)) result }
{
    if has_other_open(set, first, rest) {
        OpenPart::More
    } else {
        OpenPart::One(first)
    }
}

/// Whether a second literal is open. A clause may have the first one again, and that is no second.
fn has_other_open<L: Literal>(set: &LiteralSet<L>, first: L, rest: &[L]) -> bool
    ensures { result ≡ list_any
        (λ l. not (L.PartialEq.eq first l)
        && not (has L.PartialEq.eq set.now (L.Literal.opposite l))) rest.now }
{
    rest.iter().any(|lit| first != *lit && !set.has(lit.not()))
}
