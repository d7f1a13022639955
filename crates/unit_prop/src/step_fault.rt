ghost use Rattle.std.specs.Prelude.{◌≡◌, Ok, Err, IfOk, OnOk, IfErr};
ghost use Rattle.unit_prop.specs.Step.{first_fault, after_found, IfBad};

use crate::step_check::StepCheck;
use crate::why::{BadStep, StepErr, Why};
use lits::Literal;
use std::alloc::AllocError;

/// Clauses by the names that hints have for them.
pub trait Clauses<N, L> {
    ghost use Rattle.std.specs.Prelude.{◌≡◌, List, Option};
    ghost use Rattle.std.specs.Option.{option_copied};

    ghost find: { Self → N → Option (List L) };

    /// The clause of that name, if there is one.
    fn clause(&self, name: N) -> Option<&[L]>
        ensures { option_copied result ≡ find self.now name };
}

impl<L: Literal> StepCheck<L> {
    /// The first fault of the step that adds the clause by these hints: its beginning, its hints one by one,
    /// and its end.
    pub fn fault_of<N: Copy, C: Clauses<N, L>>(
        &mut self,
        clauses: &C,
        clause: &[L],
        hints: &[N],
    ) -> Result<Option<BadStep>, AllocError>
        ensures { IfOk result (λ fault. fault
            ≡ first_fault L.PartialEq.eq L.Literal.opposite
            (C.Clauses.find clauses.now) clause.now hints.now) }
    {
        if let Err(error) = self.begin(clause) {
            return bad_step(0, error).map(Some);
        }
        for (i, name) in hints.iter().enumerate() {
            if let Err(error) = self.take_hint(clauses, *name) {
                return bad_step(i as u64 + 1, error).map(Some);
            }
        }
        match self.end() {
            Ok(()) => Ok(None),
            Err(why) => Ok(Some(BadStep { hint: 0, why })),
        }
    }

    /// Takes the clause of the step's next hint, which has that name.
    fn take_hint<N: Copy, C: Clauses<N, L>>(&mut self, clauses: &C, name: N) -> Result<(), StepErr>
        ensures ok { OnOk result
            (after_found L.PartialEq.eq L.Literal.opposite self.old (C.Clauses.find clauses.now name)
            ≡ Ok self.new) }
        ensures bad { IfErr result (λ e. IfBad e (λ w.
            after_found L.PartialEq.eq L.Literal.opposite self.old (C.Clauses.find clauses.now name)
            ≡ Err w)) }
    {
        match clauses.clause(name) {
            Some(clause) => self.hint(clause),
            None => Err(StepErr::Bad(Why::NoClause)),
        }
    }
}

/// The fault with its place, unless memory ran out.
fn bad_step(hint: u64, error: StepErr) -> Result<BadStep, AllocError>
    ensures { IfOk result (λ bad. error ≡ StepErr.Bad bad.why × bad.hint ≡ hint) }
{
    match error {
        StepErr::Bad(why) => Ok(BadStep { hint, why }),
        StepErr::NoMemory => Err(AllocError),
    }
}
