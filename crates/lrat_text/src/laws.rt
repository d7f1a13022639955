ghost use Rattle.std.specs.Prelude.{◌≡◌, ℕ, ◌+◌, ◌<◌, ◌^◌, true, List, [], ◌∷◌, ◌++◌, Some, None, length};
ghost use Rattle.lits.specs.Assignment.{IsSatisfiable, Follows};
ghost use Rattle.lits.specs.Dimacs.{DimacsLiteral};
ghost use Rattle.lrat_text.specs.declared.step.Line.{Line};
ghost use Rattle.lrat_text.specs.declared.step.LratStep.{LratStep};
ghost use Rattle.lrat_text.specs.Steps.{last_id};
ghost use Rattle.lrat_text.specs.Reading.{SpellsLrat};
ghost use Rattle.lrat_text.specs.Derivation.{formula_live, after_step, live_after, fault_over, Derives, adds_empty, Refutes};
ghost use Rattle.lrat_text.specs.Writing.{line_text, text_from, numbered, IsWritable, AreWritable, IsWritten};

use lits::{Dim, Literal};

/// What lines derive follows from the formula, so a formula that is refuted has no assignment that meets it.
/// A derivation starts from no line and grows at its end, `live` saying what a step may then cite.
pub fn derived_lines()
    ensures unsatisfiable { (formula : List (List DimacsLiteral)) (lines : List Line) →
        Refutes formula lines → ¬ IsSatisfiable ⟦<Dim as Literal>⟧.opposite formula }
    ensures follows { (formula : List (List DimacsLiteral)) (lines : List Line) (id : ℕ)
        (clause : List DimacsLiteral) → Derives formula lines →
        live_after (formula_live formula) lines id ≡ Some clause →
        Follows ⟦<Dim as Literal>⟧.opposite formula clause }

    // One line more.
    ensures live { (formula : List (List DimacsLiteral)) (lines : List Line) (line : Line) →
        live_after (formula_live formula) (lines ++ line ∷ [])
        ≡ after_step (live_after (formula_live formula) lines) line.step }
    ensures line { (formula : List (List DimacsLiteral)) (lines : List Line) (line : Line) →
        Derives formula lines →
        fault_over (live_after (formula_live formula) lines) line.step ≡ None →
        Derives formula (lines ++ line ∷ []) }
    ensures empty { (formula : List (List DimacsLiteral)) (lines : List Line) (line : Line) →
        Derives formula lines →
        fault_over (live_after (formula_live formula) lines) line.step ≡ None →
        adds_empty line.step ≡ true → Refutes formula (lines ++ line ∷ []) }
{}

/// What is written line by line spells its steps, so that reading gives them back. A writer keeps `IsWritten`
/// from `nothing` on by `line`, and `spells` says what it comes to.
pub fn written_text()
    ensures nothing { (m : ℕ) → IsWritten m [] [] }
    ensures line { (m last : ℕ) (text : List ℕ) (lines : List Line) (step : LratStep) →
        IsWritten m text lines → IsWritable (last_id m lines) step → last < 2 ^ 64 →
        IsWritten m (text ++ line_text last step)
        (lines ++ record { at = length lines + 1; step = step } ∷ []) }
    ensures spells { (m : ℕ) (text : List ℕ) (lines : List Line) →
        IsWritten m text lines → SpellsLrat m text lines }

    // The same at once for the text of a list of steps.
    ensures all { (m : ℕ) (steps : List LratStep) → m < 2 ^ 64 → AreWritable m steps →
        SpellsLrat m (text_from m steps) (numbered 1 steps) }
{}
