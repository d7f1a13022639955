ghost use Rattle.std.specs.Prelude.{◌≡◌, ◌+◌, ◌<◌, ◌≤◌, IfOk, OnOk, OnErr, length, slice_index};
ghost use Rattle.std.specs.Vec.{vec_capacity};
ghost use Rattle.netlist.specs.Tables.{AreTables, AreButGate, AreButXor, HasRoom};

use crate::gate::Fanins;
use crate::pair::CircuitPair;
use crate::starts::{fill_starts, renumber};
use lits::Side;
use std::alloc::{AllocError, Global};

/// What a net keeps beside its pair, so that what goes over every gate finds no variable by its name.
#[derive(Drop)]
pub struct Tables {
    /// The fanins of all gates, in the order of positions.
    pub fanins: Vec<Fanins>,
    /// The numbers of the nodes' first clauses in the miter, in the order of the CNF variables, and last
    /// that of the first clause behind them.
    pub starts: Vec<u32>,
}

impl Tables {
    /// The tables of a pair.
    pub fn of(alloc: Global, pair: &CircuitPair) -> Result<Tables, AllocError>
        ensures { IfOk result (AreTables pair.now) }
    {
        let mut tables = Tables::with_room(alloc, pair)?;
        tables.fill(pair);
        Ok(tables)
    }

    /// Empty tables with room for those of a pair.
    fn with_room(alloc: Global, pair: &CircuitPair) -> Result<Tables, AllocError>
        ensures { IfOk result (HasRoom pair.now) }
    {
        let starts = Vec::with_capacity(alloc, pair.variables() as usize + 1)?;
        let fanins = Vec::with_capacity(alloc, pair.gates() as usize)?;
        Ok(Tables { fanins, starts })
    }

    /// Makes these the tables of a pair, in the room that they have.
    pub fn fill(&mut self, pair: &CircuitPair)
        requires { HasRoom pair.now self.old }
        ensures { AreTables pair.now self.new }
    {
        pair.fill_fanins(&mut self.fanins);
        fill_starts(&mut self.starts, pair);
    }

    /// Makes these the tables of a pair again after the gate at a position got other fanins.
    pub fn change_gate(&mut self, pair: &CircuitPair, position: u32)
        requires { AreButGate pair.now position self.old }
        ensures { AreTables pair.now self.new }
    {
        let k = position - pair.first_gate(Side::A);
        self.fanins[k as usize] = pair.fanins(k).unwrap();
        renumber(&mut self.starts, pair, position);
    }

    /// Makes these the tables of a pair again after an output of the XOR at a place got another literal.
    pub fn change_xor(&mut self, pair: &CircuitPair, place: u32)
        requires { AreButXor pair.now place self.old }
        ensures { AreTables pair.now self.new }
    {
        renumber(&mut self.starts, pair, place);
    }

    /// Makes room for one more gate.
    pub fn reserve(&mut self) -> Result<(), AllocError>
        ensures fanins { self.new.fanins.items ≡ self.old.fanins.items }
        ensures starts { self.new.starts.items ≡ self.old.starts.items }
        ensures room_fanins { OnOk result (length self.old.fanins.items + 1 ≤ vec_capacity self.new.fanins) }
        ensures room_starts { OnOk result (length self.old.starts.items + 1 ≤ vec_capacity self.new.starts) }
    {
        self.fanins.reserve(1)?;
        self.starts.reserve(1)?;
        Ok(())
    }

    /// The same tables once more.
    pub fn copy(&self, alloc: Global) -> Result<Tables, AllocError>
        ensures fanins { IfOk result (λ t. t.fanins.items ≡ self.now.fanins.items) }
        ensures starts { IfOk result (λ t. t.starts.items ≡ self.now.starts.items) }
    {
        Ok(Tables {
            fanins: Vec::from_slice(alloc, self.fanins.as_slice())?,
            starts: Vec::from_slice(alloc, self.starts.as_slice())?,
        })
    }

    /// The number of the first clause of the node with a variable, the variable counted from 0.
    pub fn first(&self, place: u32) -> u32
        requires { place < length self.now.starts.items }
        ensures { result ≡ slice_index self.now.starts.items place }
    {
        self.starts[place as usize]
    }
}
