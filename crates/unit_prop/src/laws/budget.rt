ghost use Rattle.std.specs.Prelude.{◌≡◌, ◌≢◌, ℕ, ◌+◌, ◌^◌, ◌<◌, ◌≤◌, true, List, length};
ghost use Rattle.std.specs.List.{AllByRecursion};
ghost use Rattle.lits.specs.Clause.{has};
ghost use Rattle.lits.specs.Same.{same_node};
ghost use Rattle.lits.specs.declared.literal.Lit.{Lit};
ghost use Rattle.lits.specs.declared.node.Node.{Node};
ghost use Rattle.lits.specs.declared.step.Named.{Named};
ghost use Rattle.lits.specs.declared.step.Step.{Step};
ghost use Rattle.unit_prop.specs.Log.{IsLog, IsBudgetLog};
ghost use Rattle.unit_prop.specs.Refuter.{Answers};
ghost use Rattle.unit_prop.specs.Variables.{variables};
ghost use Rattle.unit_prop.specs.declared.refuter.Refuted.{Refuted};
ghost use Rattle.unit_prop.specs.declared.refuter.Refuted.TheVariants.{Spent};

/// Over a base with v variables at most `3^v` steps can be learned: each variable is in a clause, its
/// negation is, or neither, and a new clause has the literals of no clause before it.
pub fn log_length()
    ensures { (base : List Named) (log : List Step) → IsLog base log
        → length log ≤ 3 ^ variables base }
{}

/// A budget that was spent to its end is at most `3^v`.
pub fn budget_log_length()
    ensures { (base : List Named) (budget : ℕ) (log : List Step) → IsBudgetLog base budget log
        → budget ≤ 3 ^ variables base }
{}

/// A query whose units and log are together more than `3^v` isn't spent.
pub fn never_spent()
    ensures { (base : List Named) (target : List Lit) (log : List Step) (left : ℕ)
        (log' : List Step) (left' : ℕ) (result : Refuted)
        → 3 ^ variables base < left + length log → IsLog base log
        → Answers base target log left log' left' result → result ≢ Spent }
{}

/// After such a query the units that are left and the log are still more than `3^v`: what one budget pays
/// for, query after query over one log, is never spent.
pub fn budget_lasts()
    ensures { (base : List Named) (target : List Lit) (log : List Step) (left : ℕ)
        (log' : List Step) (left' : ℕ) (result : Refuted)
        → 3 ^ variables base < left + length log → IsLog base log
        → Answers base target log left log' left' result
        → 3 ^ variables base < left' + length log' }
{}

/// A base has at most as many variables as a list of nodes that has each of them.
pub fn variables_among()
    ensures { (base : List Named) (nodes : List Node)
        → AllByRecursion (λ n. AllByRecursion (λ l. has same_node nodes l.node ≡ true) n.clause) base
        → variables base ≤ length nodes }
{}
