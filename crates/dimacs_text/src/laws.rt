ghost use Rattle.std.specs.Prelude.{ℕ, ◌<◌, ◌^◌, List, length, map};
ghost use Rattle.std.specs.List.{AllByRecursion};
ghost use Rattle.lits.specs.Clause.{IsClause, firsts};
ghost use Rattle.lits.specs.Dimacs.{DimacsLiteral};
ghost use Rattle.lits.specs.Same.{same_dim, opposite_dim};
ghost use Rattle.dimacs_text.specs.CnfText.{cnf_text, IsOver};
ghost use Rattle.dimacs_text.specs.Reading.{SpellsCnf};

/// What is written is read back: the text of clauses over variables from 1 to `variables` spells these
/// clauses, and of a list of literals that is no clause the first of each repeated one.
pub fn written_formula()
    ensures lists { (variables : ℕ) (lists : List (List DimacsLiteral)) →
        variables < 2 ^ 31 → length lists < 2 ^ 31
        → AllByRecursion (AllByRecursion (IsOver variables)) lists
        → SpellsCnf (cnf_text variables lists)
        (record { variables = variables; clauses = map (firsts same_dim) lists }) }
    ensures clauses { (variables : ℕ) (clauses : List (List DimacsLiteral)) →
        variables < 2 ^ 31 → length clauses < 2 ^ 31
        → AllByRecursion (AllByRecursion (IsOver variables)) clauses
        → AllByRecursion (IsClause same_dim opposite_dim) clauses
        → SpellsCnf (cnf_text variables clauses) (record { variables = variables; clauses = clauses }) }
{}
