ghost use Rattle.std.specs.Prelude.{◌≡◌, ◌≢◌, ◌<◌, ◌≤◌, ◌++◌, ◌∷◌, ◌==◌, [], false, length, OnOk, OnErr, IfOk, IfErr, None, Err, option_map};
ghost use Rattle.lits.specs.Clause.{has};
ghost use Rattle.netlist.specs.Circuit.{IsCircuit, most, no_parts, variables_in, without_names};
ghost use Rattle.byte_scan.specs.Reading.{Gives};
ghost use Rattle.byte_scan.specs.declared.errors.AigerErr.TheVariants.{NoMemory};
ghost use Rattle.circuit_draft.specs.Draft.{IsDraft, finished, undefined_in};
ghost use Rattle.circuit_draft.specs.Levels.{is_in_order};
ghost use Rattle.circuit_draft.specs.Steps.{IsFinished, with_order};

use crate::buckets::Buckets;
use byte_scan::AigerErr;
use netlist::{And, Circuit, Parts, VariableTable};
use std::alloc::{AllocError, Global};
use std::marker::Model;

/// A circuit as far as it is read. It has no names.
pub struct Draft {
    pub(crate) parts: Parts,
    pub(crate) table: VariableTable,
}

// Written out, so that a drop is one call and not one for each field at each exit of a function.
impl Drop for Draft {
    fn drop(self) {
        let Draft { parts: _, table: _ } = self;
    }
}

impl Model for Draft {
    ghost use Rattle.netlist.specs.Circuit.{Aig};
    ghost use Rattle.circuit_draft.specs.Draft.{IsIndexedDraft};

    ghost Value = { Aig };

    ghost view = { λ d. d.parts };

    ghost invariant = { λ d. IsIndexedDraft d.parts d.table };
}

impl Draft {
    /// Nothing so far.
    pub fn new(alloc: Global) -> Draft
        ensures { result ≡ no_parts }
    {
        Draft {
            parts: Parts::none(alloc),
            table: VariableTable::new(alloc),
        }
    }

    /// Whether a variable is the constant or defined.
    pub fn has(&self, var: u32) -> bool
        ensures { result ≡ has ◌==◌ (variables_in self.now) var }
    {
        self.table.place(var).is_some()
    }

    /// Puts an input last, before there is any gate.
    pub fn push_input(&mut self, var: u32) -> Result<(), AllocError>
        requires new { has ◌==◌ (variables_in self.old) var ≡ false }
        requires range { var ≤ most }
        requires first { self.old.gates ≡ [] }
        ensures ok { OnOk result (self.new ≡ record self.old { inputs = self.old.inputs ++ var ∷ [] }) }
        ensures err { OnErr result (self.new ≡ self.old) }
    {
        self.table.make_room(var)?;
        self.parts.push_input(var)?;
        self.table.push(var);
        Ok(())
    }

    /// Puts an output last.
    pub fn push_output(&mut self, lit: u32) -> Result<(), AllocError>
        requires { length self.old.outputs < most }
        ensures ok { OnOk result (self.new ≡ record self.old { outputs = self.old.outputs ++ lit ∷ [] }) }
        ensures err { OnErr result (self.new ≡ self.old) }
    {
        self.parts.push_output(lit)?;
        Ok(())
    }

    /// Puts a constraint last.
    pub fn push_constraint(&mut self, lit: u32) -> Result<(), AllocError>
        requires { length self.old.constraints < most }
        ensures ok { OnOk result
            (self.new ≡ record self.old { constraints = self.old.constraints ++ lit ∷ [] }) }
        ensures err { OnErr result (self.new ≡ self.old) }
    {
        self.parts.push_constraint(lit)?;
        Ok(())
    }

    /// Puts a gate last.
    pub fn push_gate(&mut self, gate: And) -> Result<(), AllocError>
        requires new { has ◌==◌ (variables_in self.old) gate.var ≡ false }
        requires range { gate.var ≤ most }
        ensures ok { OnOk result (self.new ≡ record self.old { gates = self.old.gates ++ gate ∷ [] }) }
        ensures err { OnErr result (self.new ≡ self.old) }
    {
        self.table.make_room(gate.var)?;
        self.parts.push_gate(gate)?;
        self.table.push(gate.var);
        Ok(())
    }

    /// The circuit, without names, or the first fault that shows only when all gates are known.
    pub fn finish(self, alloc: Global) -> Result<Circuit, AigerErr>
        ensures { Gives result (finished self) }
    {
        match self.order(alloc)? {
            Some(gates) => Ok(self.with_gates(alloc, gates)?),
            None => Ok(self.as_it_stands(alloc)),
        }
    }

    /// The gates by level, unless they stand in order already; or the first fault.
    fn order(&self, alloc: Global) -> Result<Option<Vec<And>>, AigerErr>
        requires { IsDraft self.now }
        ensures ok { IfOk result (λ order.
            IsFinished self.now (without_names (with_order self.now (option_map (λ v. v.items) order)))) }
        ensures err { IfErr result (λ e. e ≢ NoMemory → finished self.now ≡ Err e) }
    {
        if let Some(lit) = self.undefined() {
            return Err(AigerErr::Undefined(u64::from(lit)));
        }
        if self.is_in_order() {
            return Ok(None);
        }
        Ok(Some(self.gates_by_level(alloc)?))
    }

    /// The gates by level; or the first gate that has none.
    fn gates_by_level(&self, alloc: Global) -> Result<Vec<And>, AigerErr>
        requires defined { undefined_in self.now ≡ None }
        requires order { is_in_order (0 ∷ self.now.inputs) self.now.gates ≡ false }
        ensures ok { IfOk result (λ v.
            IsFinished self.now (without_names (record self.now { gates = v.items }))) }
        ensures err { IfErr result (λ e. e ≢ NoMemory → finished self.now ≡ Err e) }
    {
        let levels = self.levels(alloc)?;
        Ok(Buckets::sorted_by(alloc, levels, self.parts.gates())?)
    }

    /// The circuit of a draft whose gates are in order.
    fn as_it_stands(self, alloc: Global) -> Circuit
        requires { IsCircuit (without_names self) }
        ensures { result ≡ without_names self }
    {
        let Draft { parts, table } = self;
        Circuit::with_table(parts.without_names(alloc), table)
    }

    /// The circuit of a draft with its gates in this order.
    fn with_gates(self, alloc: Global, gates: Vec<And>) -> Result<Circuit, AllocError>
        requires { IsCircuit (without_names (record self { gates = gates.items })) }
        ensures { IfOk result (λ c. c ≡ without_names (record self { gates = gates.items })) }
    {
        let Draft { parts, table: _ } = self;
        let parts = parts.with_gates(gates).without_names(alloc);
        Circuit::of_parts(alloc, parts)
    }
}
