ghost use Rattle.std.specs.Prelude.{◌≡◌, ◌≤◌, [], length, IfOk, OnOk, ◌+◌};
ghost use Rattle.std.specs.List.{range_with_len};
ghost use Rattle.byte_scan.specs.Reading.{Gives};
ghost use Rattle.aiger_binary.specs.Binary.{binary_in, literals_at, Lists, AreBelow};

use crate::gates::gates as read_gates;
use byte_scan::{AigerErr, Scan, VARIABLE_LIMIT, header, literal_line, tail};
use netlist::Circuit;
use std::alloc::{AllocError, Global};

/// Reads a binary AIGER file: the circuit that the bytes spell, or their first fault.
#[tactic(auto, unfolding(crate::specs::Binary::binary_in))]
pub fn read(alloc: Global, bytes: &[u8]) -> Result<Circuit, AigerErr>
    ensures { Gives result (binary_in bytes.now) }
{
    let mut scan = Scan::new(bytes);
    let header = header(&mut scan, b'i')?;
    let mut outputs = Vec::new(alloc);
    read_literals(&mut scan, header.o, header.m, &mut outputs)?;
    let mut constraints = Vec::new(alloc);
    read_literals(&mut scan, header.c, header.m, &mut constraints)?;
    let mut gates = Vec::new(alloc);
    read_gates(&mut scan, header.a, header.i, &mut gates)?;
    let names = tail(alloc, &mut scan, header.i, header.o)?;
    let inputs = inputs(alloc, header.i)?;
    Ok(Circuit::of(alloc, inputs, gates, outputs, constraints, names)?)
}

/// The variables of the inputs.
fn inputs(alloc: Global, count: u32) -> Result<Vec<u32>, AllocError>
    requires { count ≤ VARIABLE_LIMIT }
    ensures { IfOk result (λ v. v.items ≡ range_with_len 1 count) }
{
    let mut inputs = Vec::new(alloc);
    for input in 0..count {
        inputs.push(input + 1)?;
    }
    Ok(inputs)
}

/// Reads the lines of the outputs, or of the constraints.
fn read_literals(
    scan: &mut Scan,
    count: u32,
    most: u32,
    literals: &mut Vec<u32>,
) -> Result<(), AigerErr>
    requires most { most ≤ VARIABLE_LIMIT }
    requires none { literals.old.items ≡ [] }
    ensures reads { Lists result literals.new.items scan.new (literals_at count most [] scan.old) }
    ensures below { OnOk result (AreBelow (most + 1) literals.new.items) }
    ensures count { OnOk result (length literals.new.items ≡ count) }
{
    for _ in 0..count {
        literals.push(literal_line(scan, most)?)?;
    }
    Ok(())
}
