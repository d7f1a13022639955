ghost use Rattle.std.specs.Prelude.{◌≡◌, ◌+◌, ◌≤◌, IfOk, length};
ghost use Rattle.std.specs.List.{range_with_len};
ghost use Rattle.aiger_binary.specs.Binary.{AreBelow};
ghost use Rattle.aiger_file.specs.File.{SpellsAiger};
ghost use Rattle.circuit_text.specs.AsciiText.{ascii_text};
ghost use Rattle.circuit_text.specs.BinaryText.{binary_text, IsInSequence};
ghost use Rattle.netlist.specs.Circuit.{most, plain, IsCircuit};
ghost use Rattle.workload_gen.specs.Gates.{IsDraft};

use circuit_text::{push_ascii, push_binary};
use netlist::{And, Circuit};
use std::alloc::{AllocError, Global};
use std::marker::Model;
use symbol_names::Names;

/// A circuit in AIGER's order, which has a text in both forms, without constraints and names.
#[derive(Drop)]
pub(crate) struct Design {
    inputs: u32,
    gates: Vec<And>,
    outputs: Vec<u32>,
}

impl Model for Design {
    ghost use Rattle.std.specs.List.{range_with_len};
    ghost use Rattle.netlist.specs.Circuit.{Aig, plain};
    ghost use Rattle.workload_gen.specs.Gates.{IsWritable};

    ghost Value = { Aig };

    ghost view = { λ d. plain (range_with_len 1 d.inputs) d.gates.items d.outputs.items };

    ghost invariant = { λ d. IsWritable d.inputs
        (plain (range_with_len 1 d.inputs) d.gates.items d.outputs.items) };
}

impl Design {
    /// The circuit of so many inputs with these gates and outputs.
    pub(crate) fn new(inputs: u32, gates: Vec<And>, outputs: Vec<u32>) -> Design
        requires gates { IsDraft (record { inputs = inputs; gates = gates.items }) }
        requires below { AreBelow (inputs + length gates.items + 1) outputs.items }
        requires few { length outputs.items ≤ most }
        ensures { result ≡ plain (range_with_len 1 inputs) gates.items outputs.items }
    {
        Design {
            inputs,
            gates,
            outputs,
        }
    }

    /// The bytes of the circuit as an ASCII AIGER file, without comment.
    pub(crate) fn ascii(self, alloc: Global) -> Result<Vec<u8>, AllocError>
        ensures text { IfOk result
            (λ v. v.items ≡ ascii_text (length self.inputs + length self.gates) self) }
        ensures spells { IfOk result (λ v. SpellsAiger v.items self) }
    {
        let circuit = self.circuit(alloc)?;
        let variables = circuit.inputs().len() + circuit.gates().len();
        let mut text = Vec::new(alloc);
        push_ascii(&mut text, variables as u32, &circuit)?;
        Ok(text)
    }

    /// The bytes of the circuit as a binary AIGER file, without comment.
    pub(crate) fn binary(self, alloc: Global) -> Result<Vec<u8>, AllocError>
        ensures text { IfOk result (λ v. v.items ≡ binary_text self) }
        ensures spells { IfOk result (λ v. SpellsAiger v.items self) }
    {
        let circuit = self.circuit(alloc)?;
        let mut text = Vec::new(alloc);
        push_binary(&mut text, &circuit)?;
        Ok(text)
    }

    fn circuit(self, alloc: Global) -> Result<Circuit, AllocError>
        ensures same { IfOk result (λ c. c ≡ self) }
        ensures circuit { IfOk result (λ c. IsCircuit c) }
        ensures sequence { IfOk result (λ c. IsInSequence c) }
    {
        let Design {
            inputs,
            gates,
            outputs,
        } = self;
        let names = Names::none(alloc, inputs, outputs.len() as u32);
        let vars = variables(alloc, inputs)?;
        Circuit::of(alloc, vars, gates, outputs, Vec::new(alloc), names)
    }
}

/// The variables of so many inputs.
fn variables(alloc: Global, inputs: u32) -> Result<Vec<u32>, AllocError>
    requires { inputs ≤ most }
    ensures { IfOk result (λ v. v.items ≡ range_with_len 1 inputs) }
{
    let mut variables = Vec::new(alloc);
    for k in 0..inputs {
        variables.push(k + 1)?;
    }
    Ok(variables)
}
