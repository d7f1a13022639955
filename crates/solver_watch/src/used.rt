ghost use Rattle.std.specs.Prelude.{◌≡◌, ◌<◌, ◌≤◌, ◌+◌, ◌/◌, ◌⊎◌, true, ℕ, nat_eq};
ghost use Rattle.std.specs.Bool.{OnTrue};
ghost use Rattle.std.specs.List.{list_any};
ghost use Rattle.solver_watch.specs.Known.{AreUsed};

use flat_base::FlatBase;

/// Whether each variable of the base stands in a clause, where they come in the order of their numbers.
///
/// A model is over the variables of the clauses alone, so the trail may number no others. Who numbers
/// variables as they come has this answer for one comparison a literal; marks would take memory.
pub(crate) fn are_used(base: &FlatBase) -> bool
    ensures { OnTrue result (AreUsed base.now) }
{
    let mut seen = 0;
    for number in 0..base.len() {
        seen = seen_in(base.codes(number), seen);
    }
    if seen < base.nodes().len() {
        return false;
    }
    true
}

/// How many variables have come, where so many had before these codes.
fn seen_in(codes: &[u32], before: usize) -> usize
    ensures { (k : ℕ) → before ≤ k → k < result → list_any (λ c. nat_eq (c / 2) k) codes.now ≡ true }
{
    let mut seen = before;
    for code in codes {
        seen = next(seen, *code);
    }
    seen
}

/// One more where the code is of the variable that comes next.
fn next(seen: usize, code: u32) -> usize
    ensures { (result ≡ seen) ⊎ ((code / 2 ≡ seen) × (result ≡ seen + 1)) }
{
    if code as usize / 2 == seen {
        seen + 1
    } else {
        seen
    }
}
