ghost use Rattle.std.specs.Prelude.{◌≡◌, ◌<◌, ◌∷◌, ◌++◌, length, take, IfOk, OnOk};
ghost use Rattle.lits.specs.declared.node.Node.TheVariants.{Xor};
ghost use Rattle.netlist.specs.Net.{IsNet, bounds_on, bounds_of};
ghost use Rattle.netlist.specs.Miter.{positive};
ghost use Rattle.lemma_book.specs.Book.{IsLegal};
ghost use Rattle.lemma_book.specs.Cone.{named_bounds, IsOutputCone};

use crate::book::Book;
use crate::cones::cone_over;
use crate::sources::positive;
use lits::{Clause, Lit, Named, Node, Ref, Side};
use netlist::{Net, laws};
use std::alloc::{AllocError, Global};

/// The cone of an output over the first `seen` entries of a book: that of its XOR and of the constraints'
/// nodes, and behind it the constraints' units.
///
/// What is said of an output is said of admitted inputs alone, so its query may rest on the constraints,
/// and a model of the cone gives an admitted input only where what these speak of is in it too.
pub fn output_cone_over(
    alloc: Global,
    net: &Net,
    book: &Book,
    seen: u64,
    output: u32,
) -> Result<Vec<Named>, AllocError>
    requires legal { IsLegal net.now book.now }
    requires there { output < length net.now.a.outputs }
    ensures { IfOk result (λ v. IsOutputCone net.now (take seen book.now.entries) output v.items) }
{
    laws::is_net(net);
    let starts = starts(alloc, net, output)?;
    let mut cone = cone_over(alloc, net, book, seen, starts.as_slice())?;
    add_units(alloc, net, Side::A, &mut cone)?;
    add_units(alloc, net, Side::B, &mut cone)?;
    Ok(cone)
}

/// The literals at which the cone begins: that of the output's XOR, and those of all constraints.
fn starts(alloc: Global, net: &Net, output: u32) -> Result<Vec<Lit>, AllocError>
    requires { IsNet net.now }
    ensures { IfOk result (λ v. v.items ≡ positive (Xor output) ∷ bounds_of net.now) }
{
    let mut starts = Vec::new(alloc);
    starts.push(positive(Node::Xor(output)))?;
    add_bounds(net, Side::A, &mut starts)?;
    add_bounds(net, Side::B, &mut starts)?;
    Ok(starts)
}

/// Puts the literals of one side's constraints last.
fn add_bounds(net: &Net, side: Side, lits: &mut Vec<Lit>) -> Result<(), AllocError>
    requires { IsNet net.now }
    ensures { OnOk result (lits.new.items ≡ lits.old.items ++ bounds_on net.now side) }
{
    let mut k = 0;
    while let Some(lit) = net.constraint(side, k) {
        lits.push(lit)?;
        k += 1;
    }
    Ok(())
}

/// Puts the units of one side's constraints last.
fn add_units(alloc: Global, net: &Net, side: Side, cone: &mut Vec<Named>) -> Result<(), AllocError>
    requires { IsNet net.now }
    ensures { OnOk result (cone.new.items ≡ cone.old.items ++ named_bounds net.now side) }
{
    let mut k = 0;
    while let Some(lit) = net.constraint(side, k) {
        let clause = Clause::from_slice(alloc, &[lit])?;
        let by = Ref::Bound(side, k);
        cone.push(Named { clause, by })?;
        k += 1;
    }
    Ok(())
}
