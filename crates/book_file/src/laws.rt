//! What loading comes to, each law the contract of a function that does nothing when it runs.
ghost use Rattle.std.specs.Prelude.{◌≡◌, ℕ, List};
ghost use Rattle.netlist.specs.Net.{AigPair};
ghost use Rattle.lemma_book.specs.Entry.{Entries};
ghost use Rattle.lemma_book.specs.declared.entry.Entry.{Entry};
ghost use Rattle.lemma_book.specs.Book.{IsLegal};
ghost use Rattle.book_file.specs.Loaded.{IsLoaded};
ghost use Rattle.book_file.specs.Writing.{lemmas_of};

use lemma_book::Book;
use netlist::Net;

/// There is one loaded book.
#[tactic(auto, using(crate::proofs::LoadLemmas::loads_one))]
pub fn one_book()
    ensures { (net : AigPair) (sweep out : ℕ) (entries : List Entry) (book other : Entries)
        → IsLoaded net sweep out entries book → IsLoaded net sweep out entries other → book ≡ other }
{}

/// What is written of a legal book is all taken over the same net and budgets.
pub fn all_taken(net: &Net, book: &Book)
    requires { IsLegal net.now book.now }
    ensures { (loaded : Entries)
        → IsLoaded net.now book.now.sweep_budget book.now.out_budget (lemmas_of book.now.entries) loaded
        → loaded.entries ≡ lemmas_of book.now.entries }
{
    netlist::laws::is_net(net);
}
