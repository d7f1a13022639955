ghost use Rattle.std.specs.Prelude.{◌≡◌, IfOk, length};
ghost use Rattle.lemma_book.specs.Cone.{AreThere};
ghost use Rattle.cone_query.specs.Input.{input_from, marked, with_input, other_value, IsBelow};

use lits::{Listed, Lit, Node, Side};
use netlist::Net;
use std::alloc::{AllocError, Global};

/// The inputs' truth values in a model; an input of which the model says nothing is false.
pub(crate) fn input_of(alloc: Global, net: &Net, model: &[Lit]) -> Result<Listed<bool>, AllocError>
    requires { AreThere net.now model.now }
    ensures { IfOk result (λ l. l ≡ input_from net.now model.now) }
{
    let mut input = vec![in alloc; false; net.circuit(Side::A).inputs().len()]?;
    for lit in model {
        mark(&mut input, *lit);
    }
    Ok(Listed::of(input))
}

/// Makes the input true whose literal it is, if it is one of an input.
fn mark(input: &mut [bool], lit: Lit)
    requires { IsBelow (length input.old) lit.node }
    ensures { input.new ≡ marked lit input.old }
{
    if let Lit {
        node: Node::Input(k),
        neg: false,
    } = lit
    {
        input[k as usize] = true;
    }
}

/// Gives the input that the node is, if it is one, a truth value.
pub(crate) fn set(input: &mut Vec<bool>, node: Node, value: bool)
    requires { IsBelow (length input.old.items) node }
    ensures { input.new.items ≡ with_input node value input.old.items }
{
    if let Node::Input(k) = node {
        input[k as usize] = value;
    }
}

/// The truth value of a node that gives a literal of it, negated or not, another value than this one.
pub(crate) fn other_value(value: bool, neg: bool) -> bool
    ensures { result ≡ other_value value neg }
{
    if value { neg } else { !neg }
}
