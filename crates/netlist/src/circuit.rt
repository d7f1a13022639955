ghost use Rattle.std.specs.Prelude.{◌≡◌, ◌≤◌, ◌<◌, ◌&&◌, ◌==◌, true, IfOk, IfSome, OnOk, OnErr, length, take, drop};
ghost use Rattle.std.specs.Option.{option_copied};
ghost use Rattle.symbol_names.specs.NameList.{name_at};
ghost use Rattle.symbol_names.specs.Names.{AreNames};
ghost use Rattle.netlist.specs.Circuit.{IsCircuit, is_over, variables_in, value_in, lit_value};
ghost use Rattle.netlist.specs.Edit.{CanSet, CanPut, CanDrop, has_gate, gates_before, gates_since, with_gate, with_new, without_gate, with_output};
ghost use Rattle.netlist.specs.Place.{place_of};
ghost use Rattle.netlist.specs.VariableTable.{IsTable};
ghost use Rattle.netlist.specs.Pair.{gate_from};
ghost use Rattle.netlist.specs.Source.{source_of, source_at, read_in, IsWithin};

use crate::gate::{And, Source};
use crate::parts::Parts;
use crate::variable_table::VariableTable;
use std::alloc::{AllocError, Global};
use std::marker::Model;
use symbol_names::Names;

/// A combinational circuit: input variables, AND gates, output literals and constraint literals, each in
/// order, and the inputs' and outputs' names.
///
/// Variables are those of AIGER, from 1 to 16,777,216, each defined once, as an input or by a gate. A gate's
/// fanins are constants, inputs or earlier gates. A constraint is a literal: only truth values of the inputs
/// on which each constraint is true count.
pub struct Circuit {
    parts: Parts,
    table: VariableTable,
}

// Written out, so that a drop is one call and not one for each field at each exit of a function.
impl Drop for Circuit {
    fn drop(self) {
        let Circuit { parts: _, table: _ } = self;
    }
}

impl Model for Circuit {
    ghost use Rattle.netlist.specs.Circuit.{Aig};
    ghost use Rattle.netlist.specs.Source.{IsIndexed};

    ghost Value = { Aig };

    ghost view = { λ c. c.parts };

    ghost invariant = { λ c. IsIndexed c.parts c.table };
}

impl Circuit {
    /// The circuit of these inputs (variables), gates, outputs and constraints (literals) and names.
    pub fn of(
        alloc: Global,
        inputs: Vec<u32>,
        gates: Vec<And>,
        outputs: Vec<u32>,
        constraints: Vec<u32>,
        names: Names,
    ) -> Result<Circuit, AllocError>
        requires { IsCircuit (record {
          inputs = inputs.items;
          gates = gates.items;
          outputs = outputs.items;
          constraints = constraints.items;
          names = names;
        }) }
        ensures { IfOk result (λ c. c ≡ record {
          inputs = inputs.items;
          gates = gates.items;
          outputs = outputs.items;
          constraints = constraints.items;
          names = names;
        }) }
    {
        Circuit::of_parts(alloc, Parts::of(inputs, gates, outputs, constraints, names))
    }

    /// The circuit of these parts.
    pub fn of_parts(alloc: Global, parts: Parts) -> Result<Circuit, AllocError>
        requires { IsCircuit parts }
        ensures { IfOk result (λ c. c ≡ parts) }
    {
        let table = VariableTable::of(alloc, parts.inputs(), parts.gates())?;
        Ok(Circuit { parts, table })
    }

    /// The circuit of these parts, of a table that was made already.
    pub fn with_table(parts: Parts, table: VariableTable) -> Circuit
        requires circuit { IsCircuit parts }
        requires table { IsTable table (variables_in parts) }
        ensures { result ≡ parts }
    {
        Circuit { parts, table }
    }

    /// The same circuit with these names.
    pub fn named(self, names: Names) -> Circuit
        requires { AreNames (length self.inputs) (length self.outputs) names }
        ensures { result ≡ record self { names = names } }
    {
        let Circuit { parts, table } = self;
        Circuit {
            parts: parts.named(names),
            table,
        }
    }

    /// The same circuit once more.
    pub fn copy(&self, alloc: Global) -> Result<Circuit, AllocError>
        ensures { IfOk result (λ c. c ≡ self.now) }
    {
        let table = self.table.copy(alloc)?;
        let parts = self.parts.copy(alloc)?;
        Ok(Circuit { parts, table })
    }

    /// The inputs' variables, in order.
    pub fn inputs(&self) -> &[u32]
        ensures inputs { result.now ≡ self.now.inputs }
        ensures circuit { IsCircuit self.now }
    {
        self.parts.inputs()
    }

    /// The gates, in order.
    pub fn gates(&self) -> &[And]
        ensures gates { result.now ≡ self.now.gates }
        ensures circuit { IsCircuit self.now }
    {
        self.parts.gates()
    }

    /// The outputs' literals, in order.
    pub fn outputs(&self) -> &[u32]
        ensures outputs { result.now ≡ self.now.outputs }
        ensures circuit { IsCircuit self.now }
    {
        self.parts.outputs()
    }

    /// The constraints' literals, in order.
    pub fn constraints(&self) -> &[u32]
        ensures constraints { result.now ≡ self.now.constraints }
        ensures circuit { IsCircuit self.now }
    {
        self.parts.constraints()
    }

    /// The names of the inputs and outputs, in order.
    pub fn names(&self) -> &Names
        ensures names { result.now ≡ self.now.names }
        ensures circuit { IsCircuit self.now }
    {
        self.parts.names()
    }

    /// What the circuit is made of.
    pub fn into_parts(self) -> Parts
        ensures { result ≡ self }
    {
        let Circuit { parts, table: _ } = self;
        parts
    }

    /// The name of input k, from 0; none also where there is no such input.
    pub fn input_name(&self, k: u32) -> Option<&[u8]>
        ensures { option_copied result ≡ name_at self.now.names.inputs k }
    {
        self.parts.input_name(k)
    }

    /// The name of output j, from 0; none also where there is no such output.
    pub fn output_name(&self, j: u32) -> Option<&[u8]>
        ensures { option_copied result ≡ name_at self.now.names.outputs j }
    {
        self.parts.output_name(j)
    }

    /// What gives a variable its value; none where the circuit hasn't the variable.
    pub(crate) fn source(&self, var: u32) -> Option<Source>
        ensures source { result ≡ source_of self.now var }
        ensures within { IfSome result (IsWithin self.now) }
    {
        let inputs = self.parts.inputs().len() as u32;
        match self.table.place(var) {
            Some(place) => Some(source_at(place, inputs)),
            None => None,
        }
    }

    /// The index of the gate that defines a variable.
    pub(crate) fn gate(&self, var: u32) -> Option<u32>
        ensures gate { result ≡ place_of (λ g. g.var == var) self.now.gates }
        ensures within { IfSome result (λ g. g < length self.now.gates) }
    {
        let _circuit = &self.parts;
        gate_from(self.source(var))
    }

    /// Gives the gate of a variable these fanins. Its place stays.
    pub(crate) fn set_gate(&mut self, gate: And)
        requires { CanSet self.old gate }
        ensures gate { self.new ≡ with_gate self.old gate }
        ensures circuit { IsCircuit self.new }
    {
        let index = self.gate(gate.var).unwrap();
        self.parts.replace_gate(index, gate);
    }

    /// Puts a new gate right before the gate of a variable, or last.
    pub(crate) fn put_gate(&mut self, gate: And, before: Option<u32>) -> Result<(), AllocError>
        requires { CanPut self.old gate before }
        ensures ok { OnOk result (self.new ≡ with_new self.old gate before) }
        ensures err { OnErr result (self.new ≡ self.old) }
        ensures circuit { IsCircuit self.new }
    {
        let index = self.gates_before(before);
        self.table.make_room(gate.var)?;
        self.parts.insert_gate(index, gate)?;
        self.table.refill(self.parts.inputs(), self.parts.gates());
        Ok(())
    }

    /// How many gates stand before the gate of a variable; all where none is named.
    fn gates_before(&self, place: Option<u32>) -> u32
        requires { IfSome place (λ v. has_gate self.now v ≡ true) }
        ensures before { take result self.now.gates ≡ gates_before self.now place }
        ensures since { drop result self.now.gates ≡ gates_since self.now place }
        ensures within { result ≤ length self.now.gates }
    {
        match place {
            Some(var) => self.gate(var).unwrap(),
            None => self.gates().len() as u32,
        }
    }

    /// Takes the gate of a variable away.
    pub(crate) fn drop_gate(&mut self, var: u32)
        requires { CanDrop self.old var }
        ensures gate { self.new ≡ without_gate self.old var }
        ensures circuit { IsCircuit self.new }
    {
        let index = self.gate(var).unwrap();
        self.parts.remove_gate(index);
        self.table.refill(self.parts.inputs(), self.parts.gates());
    }

    /// Gives an output another literal.
    pub(crate) fn set_output(&mut self, j: u32, lit: u32)
        requires output { j < length self.old.outputs }
        requires lit { is_over (variables_in self.old) lit ≡ true }
        ensures output { self.new ≡ with_output self.old j lit }
        ensures circuit { IsCircuit self.new }
    {
        self.parts.replace_output(j, lit);
    }

    /// The value of a literal for the inputs' truth values; `buf` has room for those of the gates.
    pub fn value(&self, inputs: &[bool], lit: u32, buf: &mut [bool]) -> bool
        requires inputs { length inputs.now ≡ length self.now.inputs }
        requires lit { is_over (variables_in self.now) lit ≡ true }
        requires room { length self.now.gates ≤ length buf.old }
        ensures { result ≡ value_in self.now inputs.now lit }
    {
        for (i, gate) in self.parts.gates().iter().enumerate() {
            buf[i] = self.both(inputs, buf, gate.left, gate.right);
        }
        self.read(inputs, buf, lit)
    }

    /// Whether both literals are true, where the inputs and the gates have these values.
    fn both(&self, inputs: &[bool], gates: &[bool], left: u32, right: u32) -> bool
        requires inputs { length inputs.now ≡ length self.now.inputs }
        requires gates { length self.now.gates ≤ length gates.now }
        ensures { let v = read_in self.now inputs.now gates.now in
            result ≡ (lit_value v left && lit_value v right) }
    {
        self.read(inputs, gates, left) && self.read(inputs, gates, right)
    }

    /// The value of a literal where the inputs and the gates have these values.
    fn read(&self, inputs: &[bool], gates: &[bool], lit: u32) -> bool
        requires inputs { length inputs.now ≡ length self.now.inputs }
        requires gates { length self.now.gates ≤ length gates.now }
        ensures { result ≡ lit_value (read_in self.now inputs.now gates.now) lit }
    {
        let value = match self.source(lit / 2) {
            Some(Source::Input(k)) => inputs[k as usize],
            Some(Source::Gate(g)) => gates[g as usize],
            Some(Source::Constant) | None => false,
        };
        value != (lit % 2 == 1)
    }
}

/// The gate's index, where the source is a gate.
fn gate_from(source: Option<Source>) -> Option<u32>
    ensures { result ≡ gate_from source }
{
    match source {
        Some(Source::Gate(index)) => Some(index),
        Some(Source::Constant | Source::Input(_)) | None => None,
    }
}

/// The source at a place among the variables of a circuit with so many inputs.
fn source_at(place: u32, inputs: u32) -> Source
    ensures { result ≡ source_at inputs place }
{
    if place == 0 {
        Source::Constant
    } else if place <= inputs {
        Source::Input(place - 1)
    } else {
        Source::Gate(place - 1 - inputs)
    }
}
