//! Pairing by name: a circuit's inputs and outputs in the order in which another one has their names.
ghost use Rattle.std.specs.Prelude.{◌≡◌, ℕ, ◌≤◌, length, List, MatchResult, None, Option, Some};
ghost use Rattle.std.specs.Option.{option_map};
ghost use Rattle.netlist.specs.declared.unlike.Unlike.TheVariants.{NoName};
ghost use Rattle.netlist.specs.Circuit.{most};
ghost use Rattle.netlist.specs.ByName.{arranged, in_order, nameless, place_named, unlike_names, unlike_ports, unlike_sides, IsTold};
ghost use Rattle.netlist.specs.NameIndex.{IsIndex};
ghost use Rattle.symbol_names.specs.NameList.{name_at};

use crate::circuit::Circuit;
use crate::name_index::NameIndex;
use crate::port::Port;
use crate::unlike::Unlike;
use lits::Side;
use std::alloc::Global;
use symbol_names::NameList;

/// B with its inputs and outputs in A's order and under A's names.
pub(crate) fn arranged(alloc: Global, a: &Circuit, b: Circuit) -> Result<Circuit, Unlike>
    requires inputs { length a.now.inputs ≡ length b.inputs }
    requires outputs { length a.now.outputs ≡ length b.outputs }
    ensures { MatchResult result
        (λ c. (unlike_ports a.now b ≡ None) × (c ≡ arranged a.now b))
        (IsTold (unlike_ports a.now b)) }
{
    let of_a = a.names();
    let of_b = b.names();
    let inputs = in_order(alloc, Port::Input, &of_a.inputs, &of_b.inputs, b.inputs())?;
    let outputs = in_order(
        alloc,
        Port::Output,
        &of_a.outputs,
        &of_b.outputs,
        b.outputs(),
    )?;
    let names = of_a.copy(alloc)?;
    Ok(Circuit::of_parts(alloc, b.into_parts().with_ports(inputs, outputs, names))?)
}

/// What stands at the names of B, in the order of the same names of A.
fn in_order<'n>(
    alloc: Global,
    port: Port,
    a: &'n NameList,
    b: &'n NameList,
    of_b: &[u32],
) -> Result<Vec<u32>, Unlike>
    requires a { length a.now ≡ length of_b.now }
    requires b { length b.now ≡ length of_b.now }
    requires few { length of_b.now ≤ most }
    ensures { MatchResult result
        (λ v. (unlike_names port a.now b.now ≡ None) × (v.items ≡ in_order a.now b.now of_b.now))
        (IsTold (unlike_names port a.now b.now)) }
{
    let count = of_b.len() as u32;
    let index = index_of(alloc, port, a, b, count)?;
    let mut ordered = Vec::with_capacity(alloc, of_b.len())?;
    for k in 0..count {
        match same_place(&index, a, k) {
            Some(place) => ordered.push(of_b[place as usize])?,
            None => return Err(Unlike::Missing(port, k)),
        }
    }
    Ok(ordered)
}

/// The place at which the index has the name of a place of A.
fn same_place<'n>(index: &NameIndex<'n>, a: &'n NameList, k: u32) -> Option<u32>
    ensures { (b : List (Option (List ℕ))) → IsIndex index.now.places b
        → result ≡ place_named b (name_at a.now k) }
{
    match a.get(k) {
        Some(name) => index.place(name),
        None => None,
    }
}

/// The index of B's names, where each place of both sides has a name of its own.
fn index_of<'b>(
    alloc: Global,
    port: Port,
    a: &NameList,
    b: &'b NameList,
    count: u32,
) -> Result<NameIndex<'b>, Unlike>
    requires a { length a.now ≡ count }
    requires b { length b.now ≡ count }
    ensures { MatchResult result
        (λ index. (unlike_sides port a.now b.now ≡ None) × IsIndex index.places b.now)
        (IsTold (unlike_sides port a.now b.now)) }
{
    all_named(Side::A, port, a, count)?;
    all_named(Side::B, port, b, count)?;
    NameIndex::of(alloc, Side::A, port, a, count)?;
    NameIndex::of(alloc, Side::B, port, b, count)
}

/// Each place has a name.
fn all_named(side: Side, port: Port, names: &NameList, count: u32) -> Result<(), Unlike>
    requires { length names.now ≡ count }
    ensures { MatchResult result
        (λ _. nameless names.now ≡ None)
        (λ e. option_map (NoName side port) (nameless names.now) ≡ Some e) }
{
    for k in 0..count {
        if names.get(k).is_none() {
            return Err(Unlike::NoName(side, port, k));
        }
    }
    Ok(())
}
