ghost use Rattle.std.specs.Prelude.{◌≡◌, ℕ, Bool, List, Option, Some};
ghost use Rattle.std.specs.List.{AllByRecursion};
ghost use Rattle.lits.specs.Assignment.{IsAssignment, Holds, Meets};
ghost use Rattle.lits.specs.Dimacs.{DimacsLiteral};
ghost use Rattle.unit_prop.specs.Closure.{IsClosure, ClosureClashes, AllTrue};
ghost use Rattle.unit_prop.specs.New.{IsNew, SameLiterals};
ghost use Rattle.lits.specs.Same.{same_dim, opposite_dim};
ghost use Rattle.unit_prop.specs.Step.{IsStep, AllHold};

/// A step's clause holds under each assignment under which the clauses hold that it is a step over.
pub fn step_holds()
    ensures { (find : ℕ → Option (List DimacsLiteral)) (clause : List DimacsLiteral)
        (hints : List ℕ) (v : DimacsLiteral → Bool)
        → IsAssignment opposite_dim v → AllHold v find
        → IsStep same_dim opposite_dim find clause hints → Holds v clause }
{}

/// A step over clauses is one over more clauses.
pub fn step_over_more()
    ensures { (find more : ℕ → Option (List DimacsLiteral))
        (clause : List DimacsLiteral) (hints : List ℕ)
        → ((name : ℕ) (c : List DimacsLiteral) → find name ≡ Some c → more name ≡ Some c)
        → IsStep same_dim opposite_dim find clause hints
        → IsStep same_dim opposite_dim more clause hints }
{}

/// What the closure adds is true wherever the clauses hold and what is given is true.
pub fn closure_holds()
    ensures { (clauses : List (List DimacsLiteral)) (given lits : List DimacsLiteral)
        (v : DimacsLiteral → Bool)
        → IsClosure same_dim opposite_dim clauses given lits
        → IsAssignment opposite_dim v → Meets v clauses → AllTrue v given → AllTrue v lits }
{}

/// Where the closure clashes, no assignment meets the clauses and makes true what is given.
pub fn clash_refutes()
    ensures { (clauses : List (List DimacsLiteral)) (given : List DimacsLiteral)
        (v : DimacsLiteral → Bool)
        → ClosureClashes same_dim opposite_dim clauses given
        → IsAssignment opposite_dim v → Meets v clauses → ¬ AllTrue v given }
{}

/// A new clause has the literals of no clause among those that it is new over.
pub fn new_differs()
    ensures { (clauses : List (List DimacsLiteral)) (clause : List DimacsLiteral)
        → IsNew same_dim opposite_dim clauses clause
        → AllByRecursion (λ c. ¬ SameLiterals same_dim c clause) clauses }
{}
