//! Circuits written in both forms, compared to the byte.
ghost use Rattle.std.specs.Prelude.{◌≡◌, ◌≤◌, ◌<◌, None, [], ◌∷◌, IfOk};
ghost use Rattle.circuit_text.specs.AsciiText.{IsBound};
ghost use Rattle.circuit_text.specs.BinaryText.{IsInSequence};
ghost use Rattle.desk_port.specs.MemDesk.{state_of};
ghost use Rattle.netlist.specs.Circuit.{IsCircuit};
ghost use Rattle.symbol_names.specs.Names.{AreNames};

use crate::checks::{check, is_bytes};
use crate::desks::desk_with;
use aiger_binary::print;
use circuit_text::{push_ascii, push_binary};
use desk_port::{Desk, MemDesk, PutErr};
use netlist::{And, Circuit, Names};
use std::alloc::{AllocError, Global};
use std::test::*;

/// The circuit of two inputs, of a gate over these literals that is its output, and of these constraints and
/// names.
fn one_gate(
    alloc: Global,
    left: u32,
    right: u32,
    constraints: &[u32],
    names: Names,
) -> Result<Circuit, AllocError>
    requires { IsCircuit (record {
      inputs = 1 ∷ 2 ∷ [];
      gates = record { var = 3; left = left; right = right } ∷ [];
      outputs = 6 ∷ [];
      constraints = constraints.now;
      names = names;
    }) }
    ensures bound { IfOk result (λ c. IsBound 3 c) }
    ensures sequence { left < 6 → right ≤ left → IfOk result (λ c. IsInSequence c) }
{
    Circuit::of(
        alloc,
        Vec::from_slice(alloc, &[1, 2])?,
        Vec::from_slice(
            alloc,
            &[And {
                var: 3,
                left,
                right,
            }],
        )?,
        Vec::from_slice(alloc, &[6])?,
        Vec::from_slice(alloc, constraints)?,
        names,
    )
}

/// Names for both inputs and the output.
fn three_names(alloc: Global) -> Result<Names, AllocError>
    ensures { IfOk result (λ n. AreNames 2 1 n) }
{
    let mut names = Names::none(alloc, 2, 1);
    names.inputs.set(0, b"x")?;
    names.inputs.set(1, b"y")?;
    names.outputs.set(0, b"z")?;
    Ok(names)
}

/// A text in the ASCII form, whose header says 3 variables.
fn ascii(alloc: Global, circuit: Circuit) -> Result<Vec<u8>, AllocError>
    requires { IsBound 3 circuit }
{
    let mut text = Vec::new(alloc);
    push_ascii(&mut text, 3, &circuit)?;
    Ok(text)
}

/// A text in the binary form.
fn binary(alloc: Global, circuit: Circuit) -> Result<Vec<u8>, AllocError>
    requires { IsInSequence circuit }
{
    let mut text = Vec::new(alloc);
    push_binary(&mut text, &circuit)?;
    Ok(text)
}

fn plain_ascii(alloc: Global) -> Result<Vec<u8>, AllocError> {
    ascii(alloc, one_gate(alloc, 2, 4, &[], Names::none(alloc, 2, 1))?)
}

fn constrained_ascii(alloc: Global) -> Result<Vec<u8>, AllocError> {
    ascii(
        alloc,
        one_gate(alloc, 2, 4, &[2], Names::none(alloc, 2, 1))?,
    )
}

fn named_ascii(alloc: Global) -> Result<Vec<u8>, AllocError> {
    ascii(alloc, one_gate(alloc, 2, 4, &[], three_names(alloc)?)?)
}

fn plain_binary(alloc: Global) -> Result<Vec<u8>, AllocError> {
    binary(alloc, one_gate(alloc, 4, 2, &[], Names::none(alloc, 2, 1))?)
}

fn whole_binary(alloc: Global) -> Result<Vec<u8>, AllocError> {
    binary(alloc, one_gate(alloc, 4, 2, &[3], three_names(alloc)?)?)
}

#[test]
fn texts(rt: HostRuntime) {
    let text = b"aag 3 2 0 1 1\n2\n4\n6\n6 2 4\n";
    check(&rt, "an AND", is_bytes(plain_ascii(rt.alloc()), text));
    let text = b"aag 3 2 0 1 1 0 1\n2\n4\n6\n2\n6 2 4\n";
    check(
        &rt,
        "a constraint",
        is_bytes(constrained_ascii(rt.alloc()), text),
    );
    let text = b"aag 3 2 0 1 1\n2\n4\n6\n6 2 4\ni0 x\ni1 y\no0 z\n";
    check(&rt, "names", is_bytes(named_ascii(rt.alloc()), text));
    let text = b"aig 3 2 0 1 1\n6\n\x02\x02";
    check(&rt, "deltas", is_bytes(plain_binary(rt.alloc()), text));
    let text = b"aig 3 2 0 1 1 0 1\n6\n3\n\x02\x02i0 x\ni1 y\no0 z\n";
    check(
        &rt,
        "all in binary",
        is_bytes(whole_binary(rt.alloc()), text),
    );
}

/// Prints a circuit to a file.
fn put(alloc: Global, desk: &mut MemDesk, circuit: &Circuit) -> Result<(), PutErr>
    requires started { (state_of desk.old).started ≡ None }
    requires sequence { IsInSequence circuit.now }
{
    desk.start("aig")?;
    print(alloc, desk, circuit)?;
    desk.close()
}

/// Whether a circuit is printed so.
fn is_printed(alloc: Global, desk: &mut MemDesk, text: &[u8]) -> bool
    requires { (state_of desk.old).started ≡ None }
{
    let Ok(circuit) = one_gate(alloc, 4, 2, &[], Names::none(alloc, 2, 1)) else {
        return false;
    };
    put(alloc, desk, &circuit).is_ok() && desk.file("aig") == Some(text)
}

#[test]
fn aiger_print(rt: HostRuntime) {
    let is_printed = match desk_with(rt.alloc(), &[], &[]) {
        Ok(mut desk) => is_printed(rt.alloc(), &mut desk, b"aig 3 2 0 1 1\n6\n\x02\x02"),
        Err(AllocError) => false,
    };
    check(&rt, "its text", is_printed);
}
