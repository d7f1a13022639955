ghost use Rattle.std.specs.Prelude.{◌≡◌, ◌∷◌, take};
ghost use Rattle.netlist.specs.Circuit.{is_over, variables_in};
ghost use Rattle.circuit_draft.specs.Draft.{undefined_in};
ghost use Rattle.circuit_draft.specs.Levels.{is_in_order};

use crate::draft::Draft;

impl Draft {
    /// The first literal, in reading order, whose variable is neither the constant nor defined.
    pub(crate) fn undefined(&self) -> Option<u32>
        ensures { result ≡ undefined_in self.now }
    {
        for lit in self.parts.outputs() {
            if !self.has(*lit / 2) {
                return Some(*lit);
            }
        }
        for constraint in self.parts.constraints() {
            if !self.has(*constraint / 2) {
                return Some(*constraint);
            }
        }
        for gate in self.parts.gates() {
            if !self.has(gate.left / 2) {
                return Some(gate.left);
            }
            if !self.has(gate.right / 2) {
                return Some(gate.right);
            }
        }
        None
    }

    /// Whether each gate stands behind its fanins.
    pub(crate) fn is_in_order(&self) -> bool
        ensures { result ≡ is_in_order (0 ∷ self.now.inputs) self.now.gates }
    {
        let mut place = self.parts.inputs().len() as u32 + 1;
        for gate in self.parts.gates() {
            if !self.is_among(place, gate.left) {
                return false;
            }
            if !self.is_among(place, gate.right) {
                return false;
            }
            place += 1;
        }
        true
    }

    /// Whether a literal is over the first so many variables.
    fn is_among(&self, count: u32, lit: u32) -> bool
        ensures { result ≡ is_over (take count (variables_in self.now)) lit }
    {
        match self.table.place(lit / 2) {
            Some(place) => place < count,
            None => false,
        }
    }
}
