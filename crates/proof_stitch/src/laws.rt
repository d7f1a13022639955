//! What the proofs of legal books show, whether they are written or not; each law the contract of a
//! function that does nothing when it runs.
ghost use Rattle.std.specs.Prelude.{◌≡◌, ◌<◌, ℕ, length, true};
ghost use Rattle.lemma_book.specs.Book.{IsLegal};
ghost use Rattle.lemma_book.specs.Entry.{has_out};
ghost use Rattle.proof_stitch.specs.Stitch.{refutation_of, IsRefutation};
ghost use Rattle.proof_stitch.specs.Derivation.{derivation_of, spans_of, IsDerivation, AreSpans};

use lemma_book::Book;
use lrat_text::written_text;
use netlist::Net;

/// A legal book that shows each output equal refutes the miter.
pub fn refutes(net: &Net, book: &Book)
    requires { IsLegal net.now book.now }
    ensures { ((j : ℕ) → j < length net.now.a.outputs → has_out book.now.entries j ≡ true)
        → IsRefutation net.now (refutation_of net.now book.now.entries) }
{
    net.clauses();
    book.sweep_budget();
    book.out_budget();
    written_text();
}

/// What is written of a legal book derives from the miter, and the spans are the logs.
pub fn derives(net: &Net, book: &Book)
    requires { IsLegal net.now book.now }
    ensures derives { IsDerivation net.now (derivation_of net.now book.now.entries) }
    ensures spans { AreSpans net.now book.now.entries (spans_of net.now book.now.entries) }
{
    net.clauses();
    book.sweep_budget();
    book.out_budget();
    written_text();
}
