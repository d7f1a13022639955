ghost use Rattle.std.specs.Prelude.{◌≡◌, ℕ, ◌+◌, ◌<◌, ◌≤◌, ◌^◌, false, List, [], ◌∷◌, ◌++◌, length, IfOk, OnOk, OnErr, All};
ghost use Rattle.std.specs.Prelude.{◌==◌};
ghost use Rattle.lits.specs.Clause.{has};
ghost use Rattle.netlist.specs.Circuit.{gate_vars};
ghost use Rattle.netlist.specs.VariableTable.{place_in, IsTable, AreVariables, HasRoom};

use crate::gate::And;
use std::alloc::{AllocError, Global};
use std::marker::Model;

/// Finds a variable's place among the variables of a circuit, in constant time.
#[derive(Drop)]
pub struct VariableTable {
    places: Vec<u32>,
    count: u32,
}

impl Model for VariableTable {
    ghost use Rattle.netlist.specs.VariableTable.{Places};

    ghost Value = { Places };

    ghost view = { λ t. record { by_variable = t.places.items; count = t.count } };
}

impl VariableTable {
    /// The table of the constant alone.
    pub fn new(alloc: Global) -> VariableTable
        ensures table { IsTable result (0 ∷ []) }
        ensures count { result.count ≡ 1 }
    {
        VariableTable {
            places: Vec::new(alloc),
            count: 1,
        }
    }

    /// The same table once more.
    pub fn copy(&self, alloc: Global) -> Result<VariableTable, AllocError>
        ensures { IfOk result (λ t. t ≡ self.now) }
    {
        Ok(VariableTable {
            places: Vec::from_slice(alloc, self.places.as_slice())?,
            count: self.count,
        })
    }

    /// Puts a new variable last. The table reaches as far as the greatest variable.
    pub fn add(&mut self, var: u32) -> Result<(), AllocError>
        requires { self.old.count < 2 ^ 31 }
        ensures table { OnOk result ((vars : List ℕ) → IsTable self.old vars → has ◌==◌ vars var ≡ false
            → IsTable self.new (vars ++ var ∷ [])) }
        ensures count { OnOk result (self.new.count ≡ self.old.count + 1) }
        ensures err { OnErr result (self.new ≡ self.old) }
    {
        self.make_room(var)?;
        self.push(var);
        Ok(())
    }

    /// Makes room for a variable.
    pub fn make_room(&mut self, var: u32) -> Result<(), AllocError>
        ensures room { OnOk result (var < length self.new.by_variable) }
        ensures table { (vars : List ℕ) → IsTable self.old vars → IsTable self.new vars }
        ensures count { self.new.count ≡ self.old.count }
        ensures err { OnErr result (self.new ≡ self.old) }
    {
        let room = var as usize + 1;
        if self.places.len() < room {
            self.places.resize(room, 0)?;
        }
        Ok(())
    }

    /// The table of the constant alone, with room for the variables up to the greatest.
    fn with_room(alloc: Global, greatest: u32) -> Result<VariableTable, AllocError>
        ensures table { IfOk result (λ t. IsTable t (0 ∷ [])) }
        ensures room { IfOk result (λ t. length t.by_variable ≡ greatest + 1) }
    {
        let places = vec![in alloc; 0; greatest as usize + 1]?;
        Ok(VariableTable { places, count: 1 })
    }

    /// Puts a new variable last, for which there is room.
    pub fn push(&mut self, var: u32)
        requires room { var < length self.old.by_variable }
        requires few { self.old.count < 2 ^ 31 }
        ensures table { (vars : List ℕ) → IsTable self.old vars → has ◌==◌ vars var ≡ false
            → IsTable self.new (vars ++ var ∷ []) }
        ensures room { length self.new.by_variable ≡ length self.old.by_variable }
        ensures count { self.new.count ≡ self.old.count + 1 }
    {
        self.places[var as usize] = self.count;
        self.count += 1;
    }

    /// The place of a variable.
    pub fn place(&self, var: u32) -> Option<u32>
        ensures { result ≡ place_in self.now var }
    {
        if var == 0 {
            return Some(0);
        }
        match self.places.get(var as usize).copied().unwrap_or(0) {
            0 => None,
            place => Some(place),
        }
    }

    /// The table of a circuit's variables: the constant, then the inputs, then the gates.
    pub fn of(alloc: Global, inputs: &[u32], gates: &[And]) -> Result<VariableTable, AllocError>
        requires { AreVariables inputs.now gates.now }
        ensures { IfOk result (λ t. IsTable t (0 ∷ (inputs.now ++ gate_vars gates.now))) }
    {
        let mut table = VariableTable::with_room(alloc, greatest(inputs, gates))?;
        table.fill(inputs, gates);
        Ok(table)
    }

    /// Makes this the table of other variables, for which there is room.
    pub(crate) fn refill(&mut self, inputs: &[u32], gates: &[And])
        requires variables { AreVariables inputs.now gates.now }
        requires room { HasRoom self.old (inputs.now ++ gate_vars gates.now) }
        ensures { IsTable self.new (0 ∷ (inputs.now ++ gate_vars gates.now)) }
    {
        self.clear();
        self.fill(inputs, gates);
    }

    /// Forgets all variables but the constant.
    fn clear(&mut self)
        ensures table { IsTable self.new (0 ∷ []) }
        ensures room { length self.new.by_variable ≡ length self.old.by_variable }
    {
        self.places.fill(0);
        self.count = 1;
    }

    /// Puts the variables of the inputs and then of the gates behind the constant.
    fn fill(&mut self, inputs: &[u32], gates: &[And])
        requires variables { AreVariables inputs.now gates.now }
        requires constant { IsTable self.old (0 ∷ []) }
        requires room { HasRoom self.old (inputs.now ++ gate_vars gates.now) }
        ensures { IsTable self.new (0 ∷ (inputs.now ++ gate_vars gates.now)) }
    {
        for var in inputs {
            self.push(*var);
        }
        for gate in gates {
            self.push(gate.var);
        }
    }
}

/// The greatest variable, or 0.
fn greatest(inputs: &[u32], gates: &[And]) -> u32
    ensures inputs { All (λ v. v ≤ result) inputs.now }
    ensures gates { All (λ g. g.var ≤ result) gates.now }
{
    let mut greatest = 0;
    for var in inputs {
        greatest = greatest.max(*var);
    }
    for gate in gates {
        greatest = greatest.max(gate.var);
    }
    greatest
}
