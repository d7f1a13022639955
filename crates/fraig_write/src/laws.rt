//! What a reduced circuit promises, each law the contract of a function that does nothing when it runs.

ghost use Rattle.std.specs.Prelude.{◌≡◌};
ghost use Rattle.netlist.specs.Circuit.{Aig};
ghost use Rattle.lemma_book.specs.Book.{IsLegal};
ghost use Rattle.circuit_text.specs.BinaryText.{IsInSequence};
ghost use Rattle.fraig_write.specs.Reduced.{HasValuesOf, IsReducedCircuit};

use lemma_book::Book;
use netlist::{Circuit, Net};

/// A reduced circuit has A's value at every output and at every constraint, on every input, and
/// A's names.
pub fn reduced_has_values(net: &Net, book: &Book, circuit: &Circuit)
    requires legal { IsLegal net.now book.now }
    requires reduced { IsReducedCircuit net.now.a book.now.entries circuit.now }
    ensures values { HasValuesOf net.now.a circuit.now }
    ensures names { circuit.now.names ≡ net.now.a.names }
{
    netlist::laws::is_net(net);
    lemma_book::laws::roots_keep_values(net, book);
}

/// A reduced circuit is in AIGER's order, in which alone a circuit has a binary text.
pub fn reduced_is_in_sequence(net: &Net, book: &Book, circuit: &Circuit)
    requires legal { IsLegal net.now book.now }
    requires reduced { IsReducedCircuit net.now.a book.now.entries circuit.now }
    ensures { IsInSequence circuit.now }
{
    netlist::laws::is_net(net);
}

/// A circuit and a book have one reduced circuit.
pub fn reduced_is_one(net: &Net, book: &Book)
    ensures { (c d : Aig) → IsReducedCircuit net.now.a book.now.entries c
        → IsReducedCircuit net.now.a book.now.entries d → c ≡ d }
{}
