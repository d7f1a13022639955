ghost use Rattle.std.specs.Prelude.{◌≡◌, ◌<◌, ◌==◌, true, length, slice_index, None, IfOk, OnOk, MatchBool, ◌≢◌};
ghost use Rattle.netlist.specs.Circuit.{is_over, variables_in};
ghost use Rattle.circuit_draft.specs.Levels.{level_of};
ghost use Rattle.circuit_draft.specs.Steps.{AreDefined, AreLevels, IsFanin, IsStep, IsOpen, Keeps, gate_at};

use crate::draft::Draft;
use std::alloc::AllocError;

/// What is known of a fanin: its level, or the place of the gate whose level is to be found first.
#[derive(Clone, Copy)]
pub(crate) enum Fanin {
    At(u32),
    Gate(u32),
}

/// The level of a gate, or the place of the gate whose level is to be found first.
#[derive(Clone, Copy)]
pub(crate) enum Step {
    At(u32),
    First(u32),
}

impl Draft {
    /// What the levels so far say of a literal.
    fn fanin(&self, levels: &[u32], lit: u32) -> Fanin
        requires levels { AreLevels self.now levels.now }
        requires defined { is_over (variables_in self.now) lit ≡ true }
        ensures { IsFanin self.now levels.now lit result }
    {
        let sources = self.parts.inputs().len() as u32;
        match self.table.place(lit / 2) {
            Some(place) if place > sources => {
                let gate = place - sources - 1;
                let level = levels[gate as usize];
                if level == 0 {
                    Fanin::Gate(gate)
                } else {
                    Fanin::At(level)
                }
            }
            _ => Fanin::At(0),
        }
    }

    /// What the levels so far say of the gate at a place.
    fn step(&self, levels: &[u32], place: u32) -> Step
        requires levels { AreLevels self.now levels.now }
        requires open { IsOpen self.now levels.now place }
        requires left { is_over (variables_in self.now) (gate_at self.now place).left ≡ true }
        requires right { is_over (variables_in self.now) (gate_at self.now place).right ≡ true }
        ensures { IsStep self.now levels.now place result }
    {
        let gate = self.parts.gates()[place as usize];
        match (
            self.fanin(levels, gate.left),
            self.fanin(levels, gate.right),
        ) {
            (Fanin::Gate(first), _) | (_, Fanin::Gate(first)) => Step::First(first),
            (Fanin::At(left), Fanin::At(right)) => Step::At(left.max(right) + 1),
        }
    }

    /// Finds the level of the gate at `root`, and of the gates below it that it needs; `false` where it has
    /// none.
    ///
    /// The path from the root to the gate whose level is sought stands on `path`, a stack of its own, so a
    /// long chain of gates needs no more than that. A gate is put on the path once, unless it is on a cycle:
    /// then the path grows until more gates stand on it than there are.
    pub(crate) fn climb(
        &self,
        levels: &mut [u32],
        path: &mut Vec<u32>,
        root: u32,
    ) -> Result<bool, AllocError>
        requires levels { AreLevels self.now levels.old }
        requires root { root < length self.now.gates }
        requires defined { AreDefined self.now }
        ensures levels { OnOk result (AreLevels self.now levels.new) }
        ensures keeps { OnOk result (Keeps levels.old levels.new) }
        ensures found { IfOk result (λ found. MatchBool found
            (slice_index levels.new root ≢ 0)
            (level_of self.now (gate_at self.now root).var ≡ None)) }
    {
        let count = self.parts.gates().len();
        if levels[root as usize] != 0 {
            return Ok(true);
        }
        path.clear();
        path.push(root)?;
        while let Some(gate) = path.pop() {
            match self.step(levels, gate) {
                Step::At(level) => levels[gate as usize] = level,
                Step::First(fanin) => {
                    path.push(gate)?;
                    path.push(fanin)?;
                    if path.len() > count {
                        return Ok(false);
                    }
                }
            }
        }
        Ok(true)
    }
}
