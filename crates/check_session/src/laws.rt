ghost use Rattle.std.specs.Prelude.{◌≡◌, Bool, List, length};
ghost use Rattle.std.specs.List.{AllByRecursion};
ghost use Rattle.lemma_book.specs.Book.{IsLegal};
ghost use Rattle.lemma_book.specs.declared.entry.Entry.{Entry};
ghost use Rattle.sig_classes.specs.Leader.{IsReduced, IsSwept};
ghost use Rattle.check_session.specs.Check.{IsWithinFor};
ghost use Rattle.check_session.specs.Finding.{Finding, Finds, Means};

use lemma_book::Book;
use netlist::Net;

/// A law: what a legal book shows of the outputs is so of the circuits.
pub(crate) fn means(net: &Net, book: &Book)
    requires { IsLegal net.now book.now }
    ensures { (finding : Finding) → Finds net.now book.now.entries finding
        → Means net.now book.now.entries finding }
{
    netlist::laws::is_net(net);
    netlist::laws::satisfiable_if_different(net);
    lemma_book::laws::entries_are_true(net, book);
}

/// A law: a legal book leaves outputs open only where the budget of their queries is no greater than
/// the number of clauses that can be learned.
pub(crate) fn is_within(net: &Net, book: &Book)
    requires { IsLegal net.now book.now }
    ensures { (finding : Finding) → Finds net.now book.now.entries finding
        → IsWithinFor net.now book.now.out_budget finding }
{
    netlist::laws::is_net(net);
    unit_prop::laws::budget::budget_log_length();
    unit_prop::laws::budget::variables_among();
}

/// A law: a book that is reduced over patterns, each with a truth value for each input, is swept.
pub(crate) fn is_swept(net: &Net)
    ensures { (entries : List Entry) (patterns : List (List Bool))
        → AllByRecursion (λ bits. length bits ≡ length net.now.a.inputs) patterns
        → IsReduced net.now entries patterns → IsSwept net.now entries }
{
    netlist::laws::is_net(net);
    sig_classes::laws::reduced_is_swept();
}
