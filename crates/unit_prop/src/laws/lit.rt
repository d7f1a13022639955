ghost use Rattle.std.specs.Prelude.{◌≡◌, ℕ, Bool, List, Option, Some};
ghost use Rattle.std.specs.List.{AllByRecursion};
ghost use Rattle.lits.specs.Assignment.{IsAssignment, Holds, Meets, Follows};
ghost use Rattle.lits.specs.declared.literal.Lit.{Lit};
ghost use Rattle.lits.specs.declared.step.Named.{Named};
ghost use Rattle.lits.specs.declared.step.Ref.{Ref};
ghost use Rattle.lits.specs.declared.step.Step.{Step};
ghost use Rattle.unit_prop.specs.Closure.{IsClosure, ClosureClashes, AllTrue};
ghost use Rattle.unit_prop.specs.New.{IsNew, SameLiterals};
ghost use Rattle.unit_prop.specs.Step.{IsStep, AllHold};
ghost use Rattle.unit_prop.specs.Log.{base_clause, base_clauses, with_own, IsChain, IsLog};
ghost use Rattle.lits.specs.Same.{same_lit, opposite};
ghost use Rattle.unit_prop.specs.Refuter.{Answers};
ghost use Rattle.unit_prop.specs.declared.refuter.Refuted.{Refuted};

/// A step's clause holds under each assignment under which the clauses hold that it is a step over.
pub fn step_holds()
    ensures { (find : Ref → Option (List Lit)) (clause : List Lit)
        (hints : List Ref) (v : Lit → Bool)
        → IsAssignment opposite v → AllHold v find
        → IsStep same_lit opposite find clause hints → Holds v clause }
{}

/// A step over clauses is one over more clauses.
pub fn step_over_more()
    ensures { (find more : Ref → Option (List Lit)) (clause : List Lit) (hints : List Ref)
        → ((name : Ref) (c : List Lit) → find name ≡ Some c → more name ≡ Some c)
        → IsStep same_lit opposite find clause hints → IsStep same_lit opposite more clause hints }
{}

/// The clauses of a chain of steps hold under each assignment under which those hold that it
/// stands on.
pub fn steps_hold()
    ensures { (find : Ref → Option (List Lit)) (steps : List Step) (v : Lit → Bool)
        → IsAssignment opposite v → AllHold v find
        → IsChain find steps → AllByRecursion (λ s. Holds v s.clause) steps }
{}

/// What is a step over a base and a log that was learned over it follows from the base.
pub fn base_implies()
    ensures { (base : List Named) (log : List Step) (clause : List Lit) (hints : List Ref)
        → IsLog base log
        → IsStep same_lit opposite (with_own (base_clause base) log) clause hints
        → Follows opposite (base_clauses base) clause }
{}

/// What a query makes of a log is a log again.
pub fn log_stays_log()
    ensures { (base : List Named) (target : List Lit) (log : List Step) (left : ℕ)
        (log' : List Step) (left' : ℕ) (result : Refuted)
        → IsLog base log → Answers base target log left log' left' result → IsLog base log' }
{}

/// What the closure adds is true wherever the clauses hold and what is given is true.
pub fn closure_holds()
    ensures { (clauses : List (List Lit)) (given lits : List Lit) (v : Lit → Bool)
        → IsClosure same_lit opposite clauses given lits
        → IsAssignment opposite v → Meets v clauses → AllTrue v given → AllTrue v lits }
{}

/// Where the closure clashes, no assignment meets the clauses and makes true what is given.
pub fn clash_refutes()
    ensures { (clauses : List (List Lit)) (given : List Lit) (v : Lit → Bool)
        → ClosureClashes same_lit opposite clauses given
        → IsAssignment opposite v → Meets v clauses → ¬ AllTrue v given }
{}

/// A new clause has the literals of no clause among those that it is new over.
pub fn new_differs()
    ensures { (clauses : List (List Lit)) (clause : List Lit)
        → IsNew same_lit opposite clauses clause
        → AllByRecursion (λ c. ¬ SameLiterals same_lit c clause) clauses }
{}
