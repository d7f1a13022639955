/// When to restart: after a multiple of a unit of learned clauses, by Luby's sequence 1 1 2 1 1 2 4 ..
/// (Luby, Sinclair and Zuckerman 1993), computed by Knuth's reluctant doubling.
#[derive(Drop)]
pub struct Luby {
    /// The clauses that are learned before the first restart.
    unit: u64,
    turn: u64,
    factor: u64,
    left: u64,
}

impl Luby {
    /// At the sequence's begin, with so many learned clauses as its unit.
    pub fn new(unit: u64) -> Luby {
        Luby {
            unit,
            turn: 1,
            factor: 1,
            left: unit,
        }
    }

    /// Counts a learned clause. Whether a restart is due.
    pub fn count(&mut self) -> bool {
        self.left = self.left.saturating_sub(1);
        if self.left > 0 {
            return false;
        }
        if self.turn & self.turn.wrapping_neg() == self.factor {
            self.turn = self.turn.wrapping_add(1);
            self.factor = 1;
        } else {
            self.factor = self.factor.saturating_mul(2);
        }
        self.left = self.factor.saturating_mul(self.unit);
        true
    }
}
