//! What a run promises, each law the contract of a function that does nothing when it runs.
ghost use Rattle.std.specs.Prelude.{◌≡◌, ◌≢◌, ◌≤◌, ◌⊎◌, ℕ, false, List, Option, None, Some};
ghost use Rattle.desk_port.specs.Desk.{DeskState, Files};
ghost use Rattle.endings.specs.Status.{code_of};
ghost use Rattle.endings.specs.declared.status.Status.{Status};
ghost use Rattle.command_line.specs.PlainWords.{PlainCheck};
ghost use Rattle.command_line.specs.Words.{CheckCommand, FraigCommand, LratCommand, SelfCommand, CheckIt, FraigIt, LratIt, SelfIt, Asks};
ghost use Rattle.lemma_book.specs.Book.{IsLegal};
ghost use Rattle.check_session.specs.Finding.{Finding, Finds};
ghost use Rattle.cec_top.specs.declared.kept.Kept.{Kept};
ghost use Rattle.cec_top.specs.Answers.{Answers};
ghost use Rattle.cec_top.specs.Check.{IsProof};
ghost use Rattle.cec_top.specs.Complete.{CanCheck, CanVerify, NoFault, IsAmple, HasJudged, HasVerdict};
ghost use Rattle.cec_top.specs.Headline.{IsEquivalent, IsDifferent, IsUndecided, IsVerified, Shows};
ghost use Rattle.cec_top.specs.Headline.{AreEquivalent, AreDifferent, AreUndecided, OfWorkload};
ghost use Rattle.cec_top.specs.Plain.{MeansDifferent, MeansEquivalent, MeansUndecided, RunMeans};
ghost use Rattle.cec_top.specs.Reduced.{CanReduce, IsReducedTo, MakesNothing, MakesPart, RefusesCircuit};
ghost use Rattle.cec_top.specs.Refused.{Refuses};
ghost use Rattle.cec_top.specs.SelfCheck.{own_how};
ghost use Rattle.cec_top.specs.Stopped.{Stopped};

use lemma_book::Book;
use netlist::Net;

/// What each verdict means where the words are plain, `check A B` with no option or with `--out` and options that
/// are numbers: `specs/Plain.antt`. It follows from `verdicts`, which speaks of all options.
pub fn plain_verdicts()
    ensures equivalent { (words : List (List ℕ)) (a b : List ℕ) (out : Option (List ℕ))
        (old new : DeskState) (status : Status) (kept : List Kept) →
        PlainCheck a b out words → Answers words old new status kept
        → code_of status ≡ 0 → RunMeans (MeansEquivalent a b out) old new }
    ensures different { (words : List (List ℕ)) (a b : List ℕ) (out : Option (List ℕ))
        (old new : DeskState) (status : Status) (kept : List Kept) →
        PlainCheck a b out words → Answers words old new status kept
        → code_of status ≡ 1 → RunMeans (MeansDifferent a b out) old new }
    ensures undecided { (words : List (List ℕ)) (a b : List ℕ) (out : Option (List ℕ))
        (old new : DeskState) (status : Status) (kept : List Kept) →
        PlainCheck a b out words → Answers words old new status kept
        → code_of status ≡ 2 → RunMeans (MeansUndecided a b out) old new }
{
    command_line::plain_checks();
    verdicts();
}

/// What each verdict promises, by the exit status: `specs/Headline.antt`.
pub fn verdicts()
    ensures equivalent { (words : List (List ℕ)) (c : CheckCommand)
        (old new : DeskState) (status : Status) (kept : List Kept) →
        Asks words (CheckIt c) → Answers words old new status kept
        → code_of status ≡ 0 → Shows c.stats c.progress (IsEquivalent c kept) old new }
    ensures different { (words : List (List ℕ)) (c : CheckCommand)
        (old new : DeskState) (status : Status) (kept : List Kept) →
        Asks words (CheckIt c) → Answers words old new status kept
        → code_of status ≡ 1 → Shows c.stats c.progress (IsDifferent c kept) old new }
    ensures undecided { (words : List (List ℕ)) (c : CheckCommand)
        (old new : DeskState) (status : Status) (kept : List Kept) →
        Asks words (CheckIt c) → Answers words old new status kept
        → code_of status ≡ 2 → Shows c.stats c.progress (IsUndecided c kept) old new }
    ensures verified { (words : List (List ℕ)) (c : LratCommand)
        (old new : DeskState) (status : Status) (kept : List Kept) →
        Asks words (LratIt c) → Answers words old new status kept
        → code_of status ≡ 0 → Shows false false (IsVerified c) old new }

    // What is warned where a file, the pair or a line of a script is refused: `specs/Refused.antt`.
    ensures refused { (words : List (List ℕ)) (c : CheckCommand)
        (old new : DeskState) (status : Status) (kept : List Kept) (before : Files) →
        Asks words (CheckIt c) → Answers words old new status kept
        → code_of status ≡ 4 → old.files ≡ Some before → Refuses c old new kept before }

    // What was told whole keeps its promise where a file or a verdict can't be written, or memory runs
    // out: `specs/Stopped.antt`.
    ensures stopped { (words : List (List ℕ)) (c : CheckCommand)
        (old new : DeskState) (status : Status) (kept : List Kept) (before : Files) →
        Asks words (CheckIt c) → Answers words old new status kept
        → 6 ≤ code_of status → old.files ≡ Some before → Stopped c old new status kept before }

    // The same of two circuits that the program makes: no file is left, and the budgets are those of a
    // check without an option.
    ensures own_equivalent { (words : List (List ℕ)) (c : SelfCommand)
        (old new : DeskState) (status : Status) (kept : List Kept) →
        Asks words (SelfIt c) → Answers words old new status kept
        → code_of status ≡ 0 → Shows false false (OfWorkload c kept (AreEquivalent None)) old new }
    ensures own_different { (words : List (List ℕ)) (c : SelfCommand)
        (old new : DeskState) (status : Status) (kept : List Kept) →
        Asks words (SelfIt c) → Answers words old new status kept
        → code_of status ≡ 1 → Shows false false (OfWorkload c kept (AreDifferent None)) old new }
    ensures own_undecided { (words : List (List ℕ)) (c : SelfCommand)
        (old new : DeskState) (status : Status) (kept : List Kept) →
        Asks words (SelfIt c) → Answers words old new status kept
        → code_of status ≡ 2 → Shows false false (OfWorkload c kept (AreUndecided own_how kept)) old new }
{
    command_line::words_are_one_of();
    command_line::saved_is_apart();
    command_line::witness_is_apart();
}

/// What each status promises where a reduced circuit is asked for: `specs/Reduced.antt`.
pub fn reductions()
    ensures reduced { (words : List (List ℕ)) (c : FraigCommand)
        (old new : DeskState) (status : Status) (kept : List Kept) →
        Asks words (FraigIt c) → Answers words old new status kept
        → code_of status ≡ 0 → Shows false false (IsReducedTo c kept) old new }

    // Both compute the same, so neither DIFFERENT nor UNDECIDED comes; nor are the arguments refused.
    ensures codes { (words : List (List ℕ)) (c : FraigCommand)
        (old new : DeskState) (status : Status) (kept : List Kept) →
        Asks words (FraigIt c) → Answers words old new status kept
        → (code_of status ≡ 0) ⊎ (4 ≤ code_of status) }
    ensures refused { (words : List (List ℕ)) (c : FraigCommand)
        (old new : DeskState) (status : Status) (kept : List Kept) (before : Files) →
        Asks words (FraigIt c) → Answers words old new status kept
        → code_of status ≡ 4 → old.files ≡ Some before → RefusesCircuit c old new kept before }
    ensures stopped { (words : List (List ℕ)) (c : FraigCommand)
        (old new : DeskState) (status : Status) (kept : List Kept) (before : Files) →
        Asks words (FraigIt c) → Answers words old new status kept
        → 5 ≤ code_of status → old.files ≡ Some before
        → MakesNothing old new kept before ⊎ MakesPart c old new kept before }

    // A file that spells a circuit and no fault of the desk leave only this, and want of memory.
    ensures complete { (words : List (List ℕ)) (c : FraigCommand)
        (old new : DeskState) (status : Status) (kept : List Kept) →
        Asks words (FraigIt c) → Answers words old new status kept
        → CanReduce c old → NoFault old new → (code_of status ≡ 0) ⊎ (code_of status ≡ 7) }
{
    command_line::words_are_one_of();
    command_line::reduced_is_apart();
    aiger_text::written_binary();
}

/// Arguments that ask for a check or for a proof's check, files that spell what they should and fit,
/// and no fault of the desk leave only the statuses of verdicts, and want of memory.
pub fn completeness()
    ensures check { (words : List (List ℕ)) (c : CheckCommand)
        (old new : DeskState) (status : Status) (kept : List Kept) →
        Asks words (CheckIt c) → Answers words old new status kept
        → CanCheck c old → NoFault old new → HasVerdict status }
    ensures lrat { (words : List (List ℕ)) (c : LratCommand)
        (old new : DeskState) (status : Status) (kept : List Kept) →
        Asks words (LratIt c) → Answers words old new status kept
        → CanVerify c old → NoFault old new → HasJudged status }
    ensures own { (words : List (List ℕ)) (c : SelfCommand)
        (old new : DeskState) (status : Status) (kept : List Kept) →
        Asks words (SelfIt c) → Answers words old new status kept
        → NoFault old new → HasVerdict status }

    // It reads no file, so no status tells of one.
    ensures own_files { (words : List (List ℕ)) (c : SelfCommand)
        (old new : DeskState) (status : Status) (kept : List Kept) →
        Asks words (SelfIt c) → Answers words old new status kept
        → (code_of status ≤ 2) ⊎ (6 ≤ code_of status) }

    // No output is left open where the budget is greater than the number of clauses that can be learned.
    ensures decided { (words : List (List ℕ)) (c : CheckCommand)
        (old new : DeskState) (status : Status) (kept : List Kept) →
        Asks words (CheckIt c) → Answers words old new status kept
        → IsAmple c old → code_of status ≢ 2 }
{
    command_line::words_are_one_of();
}

/// A law: a legal book that shows a finding has a proof of it.
pub(crate) fn proves(net: &Net, book: &Book)
    requires { IsLegal net.now book.now }
    ensures { (finding : Finding) → Finds net.now book.now.entries finding
        → IsProof net.now book.now.entries finding }
{
    proof_stitch::laws::refutes(net, book);
    proof_stitch::laws::derives(net, book);
}
