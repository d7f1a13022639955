ghost use Rattle.std.specs.Prelude.{◌≡◌, ◌≤◌};
ghost use Rattle.byte_scan.specs.Reading.{Gives};
ghost use Rattle.aiger_ascii.specs.Ascii.{ascii_in, body_at, named_at, Grows};
ghost use Rattle.netlist.specs.Circuit.{no_parts};

use crate::lines::{constraints, gates, inputs, outputs};
use byte_scan::{AigerErr, Header, Scan, VARIABLE_LIMIT, header, tail};
use circuit_draft::Draft;
use netlist::Circuit;
use std::alloc::Global;

/// Reads an ASCII AIGER file: the circuit that the bytes spell, or their first fault.
#[tactic(auto, unfolding(crate::specs::Ascii::ascii_in))]
pub fn read(alloc: Global, bytes: &[u8]) -> Result<Circuit, AigerErr>
    ensures { Gives result (ascii_in bytes.now) }
{
    let mut scan = Scan::new(bytes);
    let header = header(&mut scan, b'a')?;
    let mut draft = Draft::new(alloc);
    body(&mut scan, &header, &mut draft)?;
    let circuit = draft.finish(alloc)?;
    with_names(alloc, &mut scan, circuit)
}

/// The circuit with the names that the tail gives it.
fn with_names(alloc: Global, scan: &mut Scan, circuit: Circuit) -> Result<Circuit, AigerErr>
    ensures { Gives result (named_at circuit scan.old) }
{
    let inputs = circuit.inputs().len() as u32;
    let outputs = circuit.outputs().len() as u32;
    let names = tail(alloc, scan, inputs, outputs)?;
    Ok(circuit.named(names))
}

/// Reads what the lines behind the header say.
#[tactic(auto, unfolding(crate::specs::Ascii::body_at))]
fn body(scan: &mut Scan, header: &Header, draft: &mut Draft) -> Result<(), AigerErr>
    requires most { header.now.m ≤ VARIABLE_LIMIT }
    requires outputs { header.now.o ≤ VARIABLE_LIMIT }
    requires constraints { header.now.c ≤ VARIABLE_LIMIT }
    requires first { draft.old ≡ no_parts }
    ensures { Grows result draft.new scan.new (body_at header.now scan.old) }
{
    inputs(scan, header.i, header.m, draft)?;
    outputs(scan, header.o, header.m, draft)?;
    constraints(scan, header.c, header.m, draft)?;
    gates(scan, header.a, header.m, draft)
}
