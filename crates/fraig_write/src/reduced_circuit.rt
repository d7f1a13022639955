ghost use Rattle.std.specs.Prelude.{IfOk};
ghost use Rattle.lemma_book.specs.Book.{IsLegal};
ghost use Rattle.fraig_write.specs.Reduced.{IsReducedCircuit};

use crate::renumbering::Renumbering;
use lemma_book::Book;
use lits::Side;
use netlist::{Circuit, Net};
use std::alloc::{AllocError, Global};

/// Circuit A of the net reduced by the book: each literal becomes its root, and of the gates those stay that
/// outputs and constraints then rest on, in A's order and numbered behind the inputs. It has A's names.
///
/// B takes no part in it. The work is that of A and of the ways to its literals' roots.
pub fn reduce(alloc: Global, net: &Net, book: &Book) -> Result<Circuit, AllocError>
    requires { IsLegal net.now book.now }
    ensures { IfOk result (λ c. IsReducedCircuit net.now.a book.now.entries c) }
{
    netlist::laws::is_net(net);
    let numbering = Renumbering::of(alloc, net, book)?;
    let inputs = numbering.inputs(alloc)?;
    let gates = numbering.gates(alloc, net, book)?;
    let a = net.circuit(Side::A);
    let outputs = numbering.literals(alloc, net, book, a.outputs())?;
    let constraints = numbering.literals(alloc, net, book, a.constraints())?;
    let names = a.names().copy(alloc)?;
    Circuit::of(alloc, inputs, gates, outputs, constraints, names)
}
