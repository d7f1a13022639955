ghost use Rattle.std.specs.Prelude.{◌≡◌, List};
ghost use Rattle.lits.specs.Dimacs.{DimacsLiteral};
ghost use Rattle.lrat_text.specs.declared.step.Line.{Line};
ghost use Rattle.lrat_checker.specs.declared.verdict.Verdict.{Verdict};
ghost use Rattle.lrat_checker.specs.Verdict.{IsVerdict};

/// One verdict at most is right for a formula and lines, so each comes exactly where it is.
pub fn one_verdict()
    ensures { (formula : List (List DimacsLiteral)) (lines : List Line) (v w : Verdict) →
        IsVerdict formula lines v → IsVerdict formula lines w → v ≡ w }
{}
