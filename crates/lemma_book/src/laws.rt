//! What a legal book means, each law the contract of a function that does nothing when it runs.

ghost use Rattle.std.specs.List.{AllByRecursion};
ghost use Rattle.lits.specs.declared.literal.Lit.{Lit};
ghost use Rattle.lemma_book.specs.Root.{root_of};
ghost use Rattle.lemma_book.specs.Book.{IsLegal};
ghost use Rattle.lemma_book.specs.Agreement.{IsTrue, HaveOneValue};

use crate::book::Book;
use netlist::Net;

/// For all truth values of the inputs, each node that a legal book merges has its target's value; on each
/// admitted input both circuits give the output of each `Out` one value.
pub fn entries_are_true(net: &Net, book: &Book)
    requires { IsLegal net.now book.now }
    ensures { AllByRecursion (IsTrue net.now) book.now.entries }
{
    netlist::laws::is_net(net);
    unit_prop::laws::lit::steps_hold();
}

/// For all truth values of the inputs, each literal has the value of its root in a legal book.
pub fn roots_keep_values(net: &Net, book: &Book)
    requires { IsLegal net.now book.now }
    ensures { (l : Lit) → HaveOneValue net.now l (root_of book.now.entries l) }
{
    entries_are_true(net, book);
}
