ghost use Rattle.std.specs.Prelude.{◌≡◌, ◌++◌, IsSome, length, true};
ghost use Rattle.std.specs.List.{flat_map};
ghost use Rattle.lits.specs.Clause.{has};
ghost use Rattle.lits.specs.Same.{same_node};
ghost use Rattle.lits.specs.declared.node.Side.TheVariants.{A, B};
ghost use Rattle.netlist.specs.Net.{IsNet, nodes_of};
ghost use Rattle.netlist.specs.Miter.{miter_of, positive, variables_of, xors_of};
ghost use Rattle.netlist.specs.Numbered.{AreThere};
ghost use Rattle.desk_port.specs.Pieces.{Takes};
ghost use Rattle.dimacs_text.specs.CnfText.{header_text};
ghost use Rattle.check_session.specs.Files.{cnf_text_of};
ghost use Rattle.check_session.specs.MiterText.{word_of, line_of, node_lines, defining_lines, unit_lines, xor_line};

use desk_port::{Desk, PutErr};
use dimacs_text::CnfText;
use lits::{Lit, Node, Side};
use netlist::Net;

/// Puts the CNF of the circuits' miter, clause by clause from the net.
///
/// A list of the clauses with their text took 220 bytes a gate, more than all else that a check without merges
/// needs.
pub(crate) fn put_miter<D: Desk>(desk: &mut D, net: &Net, text: &mut CnfText) -> Result<(), PutErr>
    requires { IsSome (D.state desk.old).started }
    ensures takes { Takes (cnf_text_of net.now) text.old text.new (D.state desk.old)
        (D.state desk.new) (D.sizes desk.old) (D.sizes desk.new) result }
    ensures started { (D.state desk.new).started ≡ (D.state desk.old).started }
{
    put_header(desk, net, text)?;
    put_defining(desk, net, text)?;
    put_others(desk, net, text)
}

/// Puts the header: how many variables and clauses the miter has.
fn put_header<D: Desk>(desk: &mut D, net: &Net, text: &mut CnfText) -> Result<(), PutErr>
    requires { IsSome (D.state desk.old).started }
    ensures takes { Takes (header_text (length (variables_of net.now)) (length (miter_of net.now))) text.old text.new
        (D.state desk.old) (D.state desk.new) (D.sizes desk.old) (D.sizes desk.new) result }
    ensures started { (D.state desk.new).started ≡ (D.state desk.old).started }
    ensures net { IsNet net.now }
{
    text.header(desk, net.variables(), u64::from(net.clauses()))
}

/// Puts the clauses that define the nodes, in the order of their variables.
fn put_defining<D: Desk>(desk: &mut D, net: &Net, text: &mut CnfText) -> Result<(), PutErr>
    requires started { IsSome (D.state desk.old).started }
    requires net { IsNet net.now }
    ensures takes { Takes (defining_lines net.now) text.old text.new (D.state desk.old)
        (D.state desk.new) (D.sizes desk.old) (D.sizes desk.new) result }
    ensures started { (D.state desk.new).started ≡ (D.state desk.old).started }
{
    put_nodes(desk, net, text)?;
    put_xors(desk, net, text)
}

/// Puts the constraints' units, and the clause that some pair of outputs differs.
fn put_others<D: Desk>(desk: &mut D, net: &Net, text: &mut CnfText) -> Result<(), PutErr>
    requires started { IsSome (D.state desk.old).started }
    requires net { IsNet net.now }
    ensures takes { Takes ((unit_lines net.now A ++ unit_lines net.now B) ++ xor_line net.now) text.old text.new
        (D.state desk.old) (D.state desk.new) (D.sizes desk.old) (D.sizes desk.new) result }
    ensures started { (D.state desk.new).started ≡ (D.state desk.old).started }
{
    put_units(desk, net, Side::A, text)?;
    put_units(desk, net, Side::B, text)?;
    put_some_xor(desk, net, text)
}

/// Puts the clauses that define the nodes with a position.
fn put_nodes<D: Desk>(desk: &mut D, net: &Net, text: &mut CnfText) -> Result<(), PutErr>
    requires started { IsSome (D.state desk.old).started }
    requires net { IsNet net.now }
    ensures takes { Takes (flat_map (node_lines net.now) (nodes_of net.now)) text.old text.new (D.state desk.old)
        (D.state desk.new) (D.sizes desk.old) (D.sizes desk.new) result }
    ensures started { (D.state desk.new).started ≡ (D.state desk.old).started }
{
    for position in 0..net.positions() {
        put_axioms(desk, net, net.node(position), text)?;
    }
    Ok(())
}

/// Puts the clauses that define the XORs.
fn put_xors<D: Desk>(desk: &mut D, net: &Net, text: &mut CnfText) -> Result<(), PutErr>
    requires started { IsSome (D.state desk.old).started }
    requires net { IsNet net.now }
    ensures takes { Takes (flat_map (node_lines net.now) (xors_of net.now)) text.old text.new (D.state desk.old)
        (D.state desk.new) (D.sizes desk.old) (D.sizes desk.new) result }
    ensures started { (D.state desk.new).started ≡ (D.state desk.old).started }
{
    for j in 0..net.outputs() {
        put_axioms(desk, net, Node::Xor(j), text)?;
    }
    Ok(())
}

/// Puts the clauses that define a node.
fn put_axioms<D: Desk>(
    desk: &mut D,
    net: &Net,
    node: Node,
    text: &mut CnfText,
) -> Result<(), PutErr>
    requires started { IsSome (D.state desk.old).started }
    requires net { IsNet net.now }
    requires there { has same_node (variables_of net.now) node ≡ true }
    ensures takes { Takes (node_lines net.now node) text.old text.new (D.state desk.old)
        (D.state desk.new) (D.sizes desk.old) (D.sizes desk.new) result }
    ensures started { (D.state desk.new).started ≡ (D.state desk.old).started }
{
    let axioms = net.axioms(node);
    for axiom in axioms.as_slice() {
        put_clause(desk, net, axiom.lits(), text)?;
    }
    Ok(())
}

/// Puts the units of the constraints of one side.
fn put_units<D: Desk>(desk: &mut D, net: &Net, side: Side, text: &mut CnfText) -> Result<(), PutErr>
    requires started { IsSome (D.state desk.old).started }
    requires net { IsNet net.now }
    ensures takes { Takes (unit_lines net.now side) text.old text.new (D.state desk.old)
        (D.state desk.new) (D.sizes desk.old) (D.sizes desk.new) result }
    ensures started { (D.state desk.new).started ≡ (D.state desk.old).started }
{
    let count = net.circuit(side).constraints().len() as u32;
    for k in 0..count {
        let lit = net.constraint(side, k).unwrap();
        put_clause(desk, net, &[lit], text)?;
    }
    Ok(())
}

/// Puts the clause of all XORs, which may be as long as the file: no list of its literals is made.
fn put_some_xor<D: Desk>(desk: &mut D, net: &Net, text: &mut CnfText) -> Result<(), PutErr>
    requires { IsSome (D.state desk.old).started }
    ensures takes { Takes (xor_line net.now) text.old text.new (D.state desk.old)
        (D.state desk.new) (D.sizes desk.old) (D.sizes desk.new) result }
    ensures started { (D.state desk.new).started ≡ (D.state desk.old).started }
{
    put_xor_words(desk, net, text)?;
    text.end_clause(desk)
}

fn put_xor_words<D: Desk>(desk: &mut D, net: &Net, text: &mut CnfText) -> Result<(), PutErr>
    requires { IsSome (D.state desk.old).started }
    ensures takes { Takes (flat_map (λ x. word_of net.now (positive x)) (xors_of net.now)) text.old text.new
        (D.state desk.old) (D.state desk.new) (D.sizes desk.old) (D.sizes desk.new) result }
    ensures started { (D.state desk.new).started ≡ (D.state desk.old).started }
{
    for j in 0..net.outputs() {
        let xor = Lit {
            node: Node::Xor(j),
            neg: false,
        };
        put_word(desk, net, xor, text)?;
    }
    Ok(())
}

/// Puts a clause of the miter.
fn put_clause<D: Desk>(
    desk: &mut D,
    net: &Net,
    lits: &[Lit],
    text: &mut CnfText,
) -> Result<(), PutErr>
    requires started { IsSome (D.state desk.old).started }
    requires there { AreThere net.now lits.now }
    ensures takes { Takes (line_of net.now lits.now) text.old text.new (D.state desk.old)
        (D.state desk.new) (D.sizes desk.old) (D.sizes desk.new) result }
    ensures started { (D.state desk.new).started ≡ (D.state desk.old).started }
{
    put_words(desk, net, lits, text)?;
    text.end_clause(desk)
}

fn put_words<D: Desk>(
    desk: &mut D,
    net: &Net,
    lits: &[Lit],
    text: &mut CnfText,
) -> Result<(), PutErr>
    requires started { IsSome (D.state desk.old).started }
    requires there { AreThere net.now lits.now }
    ensures takes { Takes (flat_map (word_of net.now) lits.now) text.old text.new (D.state desk.old)
        (D.state desk.new) (D.sizes desk.old) (D.sizes desk.new) result }
    ensures started { (D.state desk.new).started ≡ (D.state desk.old).started }
{
    for lit in lits {
        put_word(desk, net, *lit, text)?;
    }
    Ok(())
}

/// Puts a literal of the clause that is open, by its number.
fn put_word<D: Desk>(desk: &mut D, net: &Net, lit: Lit, text: &mut CnfText) -> Result<(), PutErr>
    requires started { IsSome (D.state desk.old).started }
    requires there { has same_node (variables_of net.now) lit.node ≡ true }
    ensures takes { Takes (word_of net.now lit) text.old text.new (D.state desk.old)
        (D.state desk.new) (D.sizes desk.old) (D.sizes desk.new) result }
    ensures started { (D.state desk.new).started ≡ (D.state desk.old).started }
{
    text.literal(desk, net.cnf_number(lit).unwrap())
}
