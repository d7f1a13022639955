//! What it means that no task is left, each law the contract of a function that does nothing when it runs.

ghost use Rattle.std.specs.Prelude.{◌≡◌, [], List, length, Bool};
ghost use Rattle.std.specs.List.{AllByRecursion};
ghost use Rattle.netlist.specs.Net.{AigPair, IsNet};
ghost use Rattle.lemma_book.specs.declared.entry.Entry.{Entry};
ghost use Rattle.sig_classes.specs.Leader.{AreTasks, IsReduced, IsSwept};

/// Where no task is left over some patterns, the book is reduced over them.
pub fn reduced_without_tasks()
    ensures { (net : AigPair) (entries : List Entry) (patterns : List (List Bool))
        → AreTasks net entries patterns [] → IsReduced net entries patterns }
{}

/// A book that is reduced over patterns, each with a truth value per input, is swept: each gate that
/// isn't merged had a query that spent its budget, or equals no earlier root, nor the complement of
/// one, on every input.
pub fn reduced_is_swept()
    ensures { (net : AigPair) (entries : List Entry) (patterns : List (List Bool)) → IsNet net
        → AllByRecursion (λ bits. length bits ≡ length net.a.inputs) patterns
        → IsReduced net entries patterns → IsSwept net entries }
{}
