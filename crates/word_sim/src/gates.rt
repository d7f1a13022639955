ghost use Rattle.std.specs.Prelude.{◌≡◌, ◌<◌, ◌*◌, ◌^◌, ◌∷◌, ◌++◌, [], ℕ, Bool, false, length, OnOk, OnErr};
ghost use Rattle.word_sim.specs.Gates.{AreAnds, HaveRows, IsInside, has_place, known_after};
ghost use Rattle.word_sim.specs.Rows.{row_at};

use crate::rows::fill_gate;
use netlist::Fanins;
use std::alloc::{AllocError, Global};
use std::marker::Model;

/// A gate that is simulated: where its row stands, and its fanins with where theirs do.
#[derive(Clone, Copy)]
pub struct GateAt {
    pub place: u32,
    pub fanins: Fanins,
}

/// Gates that are simulated, in order, each behind its fanins: those of some cones, where all gates of a net
/// would be too many.
pub struct GateList {
    places: u32,
    gates: Vec<GateAt>,
}

// Written out, so that a drop is one call.
impl Drop for GateList {
    fn drop(self) {
        let GateList {
            places: _,
            gates: _,
        } = self;
    }
}

impl Model for GateList {
    ghost use Rattle.word_sim.specs.Gates.{Gates, AreInside};

    ghost Value = { Gates };

    ghost view = { λ l. record { places = l.places; gates = l.gates.items } };

    ghost invariant = { λ l. AreInside l.places l.gates.items };
}

impl GateList {
    /// No gates yet, and so many places for rows.
    pub fn new(alloc: Global, places: u32) -> GateList
        ensures { result ≡ record { places = places; gates = [] } }
    {
        GateList {
            places,
            gates: Vec::new(alloc),
        }
    }

    /// How many places for rows there are.
    pub fn places(&self) -> u32
        ensures { result ≡ self.now.places }
    {
        self.places
    }

    /// Puts a gate last, whose row stands behind those of its fanins.
    pub fn push(&mut self, gate: GateAt) -> Result<(), AllocError>
        requires { IsInside self.old.places gate }
        ensures ok { OnOk result
            (self.new ≡ record { places = self.old.places; gates = self.old.gates ++ gate ∷ [] }) }
        ensures err { OnErr result (self.new ≡ self.old) }
    {
        self.gates.push(gate)?;
        Ok(())
    }

    /// Writes the row of each gate, of so many whole words, where the rows of constants and inputs stand:
    /// where the values of the nodes are such that each listed gate is the AND of its fanins, bit b of word
    /// w of a gate's row is its value on pattern 64 w + b. Rows of other places stay as they are.
    pub fn fill(&self, words: usize, rows: &mut [u64])
        requires words { words < 2 ^ 32 }
        requires room { length rows.old ≡ self.now.places * words }
        ensures rows { (truth : ℕ → ℕ → Bool) (known : ℕ → Bool) → AreAnds truth known self.now.gates
            → HaveRows words truth known rows.old
            → HaveRows words truth (known_after known self.now.gates) rows.new }
        ensures others { (q : ℕ) → has_place self.now.gates q ≡ false
            → row_at words q rows.new ≡ row_at words q rows.old }
        ensures size { length rows.new ≡ length rows.old }
    {
        for gate in &self.gates {
            fill_gate(
                gate.fanins,
                rows,
                gate.place as usize,
                words,
                64 * words as u64,
            );
        }
    }
}
