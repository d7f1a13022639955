ghost use Rattle.unit_prop.specs.HintScan.{IsNamed};

use crate::bases::{axioms, base_of, is_base};
use crate::checks::are_names;
use crate::clauses::{Word, are, clause, clauses, expect, literals, parts};
use crate::formulas::TWIN_GATES;
use lits::{Clause, Dim, Lit, Named, Ref, Step};
use std::alloc::Global;
use std::process::Abort;
use unit_prop::{BadStep, Clauses, Closure, StepCheck, Why};

/// Whether the closure has the literals that are wanted, or clashes.
fn is_closed<L: Word>(rt: &impl Abort, alloc: Global, found: &Closure<L>, wanted: &str) -> bool {
    match found {
        Closure::Clash => wanted == " clash",
        Closure::Free(found) => are(rt, alloc, found.as_slice(), wanted),
    }
}

/// Whether it is as the line says: clauses, a bar, literals that are given, an arrow, and their closure.
fn is_closure<L: Word>(rt: &impl Abort, alloc: Global, line: &str) -> bool {
    let (question, wanted) = parts(rt, line, "=>");
    let (lists, given) = parts(rt, question, "|");
    let clauses = clauses::<L>(rt, alloc, lists);
    let given = literals(rt, alloc, given);
    let found = unit_prop::close_under(alloc, clauses.as_slice(), given.as_slice());
    is_closed(rt, alloc, &found.expect(rt, "memory"), wanted)
}

/// A chain, opposite units, a chain against what is given, opposite literals that are given, one that is
/// given twice, and a case in which nothing is forced.
const CLOSURES: &str = "\
1 -2; 2;| => 2 1
1; -1;| => clash
1 -2; 2;| -1 => clash
1 -2; 2;| 3 -3 => clash
-1 -2 3; 4 5;| 1 2 1 => 1 2 3
-1 -2 3; 4 5;| =>
";

/// Gate B, which is given, closes to the other gate and the inputs.
const OVER_NODES: &str = "-b3 1; -b3 0; a3 -0 -1;| b3 => b3 1 0 a3";

#[test]
fn close_under(rt: HostRuntime) {
    for line in CLOSURES.lines() {
        expect(&rt, line, is_closure::<Dim>(&rt, rt.alloc(), line));
    }
    let is_so = is_closure::<Lit>(&rt, rt.alloc(), OVER_NODES);
    expect(&rt, "over nodes", is_so);
}

/// The clauses of a step's hints, by their places from 0.
#[derive(Drop)]
struct Hints<'a>(&'a [Clause<Dim>]);

impl Clauses<usize, Dim> for Hints<'_> {
    ghost use Rattle.std.specs.Prelude.{slice_get};

    ghost find = { λ hints k. slice_get hints.0.now k };

    fn clause(&self, place: usize) -> Option<&[Dim]> {
        match self.0.get(place) {
            Some(clause) => Some(clause.lits()),
            None => None,
        }
    }
}

fn places(rt: &impl Abort, alloc: Global, text: &str) -> Vec<usize> {
    let mut places = Vec::new(alloc);
    for word in text.split_whitespace() {
        let place = word.parse().expect(rt, "a place");
        places.push(place).expect(rt, "memory");
    }
    places
}

/// The words that tell why a step is bad.
fn told(why: Why) -> &'static str {
    match why {
        Why::Tautology => "tautology",
        Why::NoClause => "no clause",
        Why::AfterFalse => "after false",
        Why::Satisfied => "satisfied",
        Why::TwoFree => "two free",
        Why::NotFalse => "not false",
    }
}

/// Whether that is the fault, by the place of its hint and why, or there is none.
fn is_fault(rt: &impl Abort, found: Option<BadStep>, text: &str) -> bool {
    let Some(bad) = found else {
        return text == "none";
    };
    let (hint, words) = parts(rt, text, " ");
    hint.parse() == Ok(bad.hint) && told(bad.why) == words
}

/// The fault of the step that adds the clause by the hints of the text, behind the clauses that they name.
fn fault_by(
    rt: &impl Abort,
    alloc: Global,
    check: &mut StepCheck<Dim>,
    clause: &[Dim],
    text: &str,
) -> Option<BadStep> {
    let (lists, hints) = parts(rt, text, "|");
    let lists = clauses(rt, alloc, lists);
    let hints = places(rt, alloc, hints);
    let fault = check.fault_of(&Hints(lists.as_slice()), clause, hints.as_slice());
    fault.expect(rt, "memory")
}

/// Whether it is as the line says: a step's clause, the clauses that its hints name, the hints, and the
/// fault.
fn has_fault(rt: &impl Abort, alloc: Global, check: &mut StepCheck<Dim>, line: &str) -> bool {
    let (step, fault) = parts(rt, line, " => ");
    let (clause, hints) = parts(rt, step, "|");
    let clause = literals(rt, alloc, clause);
    let found = fault_by(rt, alloc, check, clause.as_slice(), hints);
    is_fault(rt, found, fault)
}

/// The empty clause; two gates that compute the same: the first step of their proof, the same without its
/// last hint, and with a literal twice. Then faults: no hint, a tautology, a true hint, a wide one, a late
/// one, none that is false, and one that names no clause.
const STEPS: &str = "\
|;| 0 => none
-5 4| -5 3; 4 -2 -3; -5 2;| 0 1 2 => none
-5 4| -5 3; 4 -2 -3;| 0 1 => 0 not false
-5 4 4| -5 3; 4 -2 -3; -5 2;| 0 1 2 => none
1|| => 0 not false
1 -1|;| 0 => 0 tautology
1| 2; 2 3;| 0 1 => 2 satisfied
1| 2 3;| 0 => 1 two free
1| 1; 2;| 0 1 => 2 after false
1| 2 1; -2 3;| 0 1 => 0 not false
1| 2 1;| 0 1 => 2 no clause
";

/// Whether the clauses are hints that make the literals' clause a step.
fn is_step(check: &mut StepCheck<Lit>, lits: &[Lit], hints: &[Clause<Lit>]) -> bool {
    if check.begin(lits).is_err() {
        return false;
    }
    for hint in hints {
        if check.hint(hint.lits()).is_err() {
            return false;
        }
    }
    check.end().is_ok()
}

/// Whether gate B implies gate A, both the AND of the first two inputs, by their clauses.
fn implies(rt: &impl Abort, alloc: Global) -> bool {
    let lits = literals(rt, alloc, "-b3 a3");
    let hints = clauses(rt, alloc, "-b3 1; -b3 0; a3 -0 -1;");
    let mut check = StepCheck::new(alloc);
    is_step(&mut check, lits.as_slice(), hints.as_slice())
}

/// Whether an empty hint shows the empty clause, and nothing shows a unit without a hint.
fn begins_and_ends(alloc: Global) -> bool {
    let mut check = StepCheck::<Dim>::new(alloc);
    let is_step = check.begin(&[]).is_ok() && check.hint(&[]).is_ok() && check.end().is_ok();
    is_step
        && check.begin(&[Dim::new(1, false)]).is_ok()
        && check.end().err() == Some(Why::NotFalse)
}

/// Tries each line.
fn check_steps(rt: &impl Abort, alloc: Global, check: &mut StepCheck<Dim>) {
    for line in STEPS.lines() {
        expect(rt, line, has_fault(rt, alloc, check, line));
    }
}

#[test]
fn step_check(rt: HostRuntime) {
    check_steps(&rt, rt.alloc(), &mut StepCheck::new(rt.alloc()));
    expect(&rt, "over nodes", implies(&rt, rt.alloc()));
    expect(&rt, "call by call", begins_and_ends(rt.alloc()));
}

/// Whether the step adds the literals' clause by these hints.
fn has_hints(step: &Step, lits: &[Lit], hints: &[Ref]) -> bool {
    are_names(&step.hints, hints) && step.clause.lits() == lits
}

/// Whether the scan of the base finds these hints for the clause, and the step that it shows has them; or it
/// finds none, and there are none.
fn finds(
    rt: &impl Abort,
    alloc: Global,
    base: &[Named],
    clause: &Clause<Lit>,
    hints: &[Ref],
) -> bool
    requires { IsNamed base.now }
{
    match unit_prop::scan(alloc, base, clause).expect(rt, "memory") {
        Some(found) => {
            let step = unit_prop::scanned_step(alloc, base, clause.lits());
            let has_hints = has_hints(&step.expect(rt, "memory"), clause.lits(), hints);
            has_hints && found.as_slice() == hints
        }
        None => hints.is_empty(),
    }
}

/// Whether the scan of the base finds the hints that the line has behind an arrow for the clause before it,
/// or none where there are none.
fn scans(rt: &impl Abort, alloc: Global, base: &[Named], line: &str) -> bool {
    expect(rt, "a base", is_base(base));
    let (lits, hints) = parts(rt, line, "=>");
    let clause = clause(rt, alloc, lits);
    let hints = axioms(rt, alloc, hints);
    finds(rt, alloc, base, &clause, hints.as_slice())
}

/// Each gate implies the other; gate A need not be false.
const SCANS: &str = "\
-b3 a3 => b3.0 a3.2 b3.1
b3 -a3 => a3.0 a3.1 b3.2
-a3 =>
";

#[test]
fn hints_of_twin_gates(rt: HostRuntime) {
    let base = base_of(&rt, rt.alloc(), TWIN_GATES);
    for line in SCANS.lines() {
        expect(&rt, line, scans(&rt, rt.alloc(), base.as_slice(), line));
    }
}
