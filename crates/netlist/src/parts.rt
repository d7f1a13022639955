ghost use Rattle.std.specs.Prelude.{◌≡◌, ◌≤◌, ◌<◌, ◌∷◌, ◌++◌, [], length, slice_set, IfOk, OnOk, OnErr};
ghost use Rattle.std.specs.List.{insert, remove};
ghost use Rattle.netlist.specs.Circuit.{most, no_parts, without_names};
ghost use Rattle.std.specs.Option.{option_copied};
ghost use Rattle.symbol_names.specs.NameList.{name_at};

use crate::gate::And;
use std::alloc::{AllocError, Global};
use std::marker::Model;
use symbol_names::Names;

/// What a circuit is made of. Contracts see the record of `specs/Circuit.antt`.
pub struct Parts {
    /// Variables.
    pub(crate) inputs: Vec<u32>,
    pub(crate) gates: Vec<And>,
    /// Literals.
    pub(crate) outputs: Vec<u32>,
    /// Literals.
    pub(crate) constraints: Vec<u32>,
    pub(crate) names: Names,
}

// Written out, so that a drop is one call and not one for each field at each exit of a function.
impl Drop for Parts {
    fn drop(self) {
        let Parts {
            inputs: _,
            gates: _,
            outputs: _,
            constraints: _,
            names: _,
        } = self;
    }
}

impl Model for Parts {
    ghost use Rattle.netlist.specs.Circuit.{Aig};

    ghost Value = { Aig };

    ghost view = { λ p. record {
      inputs = p.inputs.items;
      gates = p.gates.items;
      outputs = p.outputs.items;
      constraints = p.constraints.items;
      names = p.names;
    } };
}

impl Parts {
    /// These inputs (variables), gates, outputs and constraints (literals) and names.
    pub fn of(
        inputs: Vec<u32>,
        gates: Vec<And>,
        outputs: Vec<u32>,
        constraints: Vec<u32>,
        names: Names,
    ) -> Parts
        ensures { result ≡ record {
          inputs = inputs.items;
          gates = gates.items;
          outputs = outputs.items;
          constraints = constraints.items;
          names = names;
        } }
    {
        Parts {
            inputs,
            gates,
            outputs,
            constraints,
            names,
        }
    }

    /// Nothing so far.
    pub fn none(alloc: Global) -> Parts
        ensures { result ≡ no_parts }
    {
        Parts {
            inputs: Vec::new(alloc),
            gates: Vec::new(alloc),
            outputs: Vec::new(alloc),
            constraints: Vec::new(alloc),
            names: Names::none(alloc, 0, 0),
        }
    }

    /// The inputs' variables, in order.
    pub fn inputs(&self) -> &[u32]
        ensures { result.now ≡ self.now.inputs }
    {
        self.inputs.as_slice()
    }

    /// The gates, in order.
    pub fn gates(&self) -> &[And]
        ensures { result.now ≡ self.now.gates }
    {
        self.gates.as_slice()
    }

    /// The outputs' literals, in order.
    pub fn outputs(&self) -> &[u32]
        ensures { result.now ≡ self.now.outputs }
    {
        self.outputs.as_slice()
    }

    /// The constraints' literals, in order.
    pub fn constraints(&self) -> &[u32]
        ensures { result.now ≡ self.now.constraints }
    {
        self.constraints.as_slice()
    }

    /// The names of the inputs and of the outputs.
    pub fn names(&self) -> &Names
        ensures { result.now ≡ self.now.names }
    {
        &self.names
    }

    /// The name of input k, from 0; none also where there is no such input.
    pub fn input_name(&self, k: u32) -> Option<&[u8]>
        ensures { option_copied result ≡ name_at self.now.names.inputs k }
    {
        self.names.inputs.get(k)
    }

    /// The name of output j, from 0; none also where there is no such output.
    pub fn output_name(&self, j: u32) -> Option<&[u8]>
        ensures { option_copied result ≡ name_at self.now.names.outputs j }
    {
        self.names.outputs.get(j)
    }

    /// Puts an input last.
    pub fn push_input(&mut self, var: u32) -> Result<(), AllocError>
        ensures ok { OnOk result (self.new ≡ record self.old { inputs = self.old.inputs ++ var ∷ [] }) }
        ensures err { OnErr result (self.new ≡ self.old) }
    {
        self.inputs.push(var)?;
        Ok(())
    }

    /// Puts an output last.
    pub fn push_output(&mut self, lit: u32) -> Result<(), AllocError>
        ensures ok { OnOk result (self.new ≡ record self.old { outputs = self.old.outputs ++ lit ∷ [] }) }
        ensures err { OnErr result (self.new ≡ self.old) }
    {
        self.outputs.push(lit)?;
        Ok(())
    }

    /// Puts a constraint last.
    pub fn push_constraint(&mut self, lit: u32) -> Result<(), AllocError>
        ensures ok { OnOk result
            (self.new ≡ record self.old { constraints = self.old.constraints ++ lit ∷ [] }) }
        ensures err { OnErr result (self.new ≡ self.old) }
    {
        self.constraints.push(lit)?;
        Ok(())
    }

    /// Puts a gate last.
    pub fn push_gate(&mut self, gate: And) -> Result<(), AllocError>
        ensures ok { OnOk result (self.new ≡ record self.old { gates = self.old.gates ++ gate ∷ [] }) }
        ensures err { OnErr result (self.new ≡ self.old) }
    {
        self.gates.push(gate)?;
        Ok(())
    }

    /// Puts a gate at an index; those from there on move up.
    pub(crate) fn insert_gate(&mut self, index: u32, gate: And) -> Result<(), AllocError>
        requires { index ≤ length self.old.gates }
        ensures ok { OnOk result (self.new ≡ record self.old { gates = insert self.old.gates index gate }) }
        ensures err { OnErr result (self.new ≡ self.old) }
    {
        self.gates.insert(index as usize, gate)?;
        Ok(())
    }

    /// Takes the gate at an index away; those behind it move down.
    pub(crate) fn remove_gate(&mut self, index: u32)
        requires { index < length self.old.gates }
        ensures { self.new ≡ record self.old { gates = remove self.old.gates index } }
    {
        self.gates.remove(index as usize);
    }

    /// Puts a gate into the place of another one.
    pub(crate) fn replace_gate(&mut self, index: u32, gate: And)
        requires { index < length self.old.gates }
        ensures { self.new ≡ record self.old { gates = slice_set self.old.gates index gate } }
    {
        self.gates[index as usize] = gate;
    }

    /// Puts a literal into the place of an output's.
    pub(crate) fn replace_output(&mut self, j: u32, lit: u32)
        requires { j < length self.old.outputs }
        ensures { self.new ≡ record self.old { outputs = slice_set self.old.outputs j lit } }
    {
        self.outputs[j as usize] = lit;
    }

    /// The same parts with these gates.
    pub fn with_gates(self, gates: Vec<And>) -> Parts
        ensures { result ≡ record self { gates = gates.items } }
    {
        let Parts {
            inputs,
            gates: _,
            outputs,
            constraints,
            names,
        } = self;
        Parts {
            inputs,
            gates,
            outputs,
            constraints,
            names,
        }
    }

    /// The same parts with these inputs and outputs and their names.
    pub fn with_ports(self, inputs: Vec<u32>, outputs: Vec<u32>, names: Names) -> Parts
        ensures { result ≡ record self { inputs = inputs.items; outputs = outputs.items; names = names } }
    {
        let Parts {
            inputs: _,
            gates,
            outputs: _,
            constraints,
            names: _,
        } = self;
        Parts {
            inputs,
            gates,
            outputs,
            constraints,
            names,
        }
    }

    /// The same parts without a name. No memory is taken.
    pub fn without_names(self, alloc: Global) -> Parts
        requires inputs { length self.inputs ≤ most }
        requires outputs { length self.outputs ≤ most }
        ensures { result ≡ without_names self }
    {
        let inputs = self.inputs().len() as u32;
        let outputs = self.outputs().len() as u32;
        self.named(Names::none(alloc, inputs, outputs))
    }

    /// The same parts with these names.
    pub fn named(self, names: Names) -> Parts
        ensures { result ≡ record self { names = names } }
    {
        let Parts {
            inputs,
            gates,
            outputs,
            constraints,
            names: _,
        } = self;
        Parts {
            inputs,
            gates,
            outputs,
            constraints,
            names,
        }
    }

    /// The same parts once more.
    pub fn copy(&self, alloc: Global) -> Result<Parts, AllocError>
        ensures { IfOk result (λ p. p ≡ self.now) }
    {
        let inputs = Vec::from_slice(alloc, self.inputs.as_slice())?;
        let gates = Vec::from_slice(alloc, self.gates.as_slice())?;
        let outputs = Vec::from_slice(alloc, self.outputs.as_slice())?;
        let constraints = Vec::from_slice(alloc, self.constraints.as_slice())?;
        let names = self.names.copy(alloc)?;
        Ok(Parts {
            inputs,
            gates,
            outputs,
            constraints,
            names,
        })
    }
}
