use crate::reason::Reason;
use search_parts::{at, put};
use std::alloc::{AllocError, Global};

/// What defines a variable.
#[derive(Clone, Copy)]
pub(crate) enum Kind {
    /// It wasn't looked at yet.
    New,
    /// Nothing: an input; or its own unit: the constant.
    Free,
    /// A gate. The first fanin is the circuit's left one.
    Gate,
    /// A gate. The first fanin is the circuit's right one.
    Turned,
    /// The entry at this place: both fanins are the code that it is merged to.
    Merged(u32),
    /// Two steps of the equalities: both fanins are the code that it is equal to.
    Shown,
}

/// A node that a query came to: 32 bytes, so that a line of the cache has two.
#[derive(Clone, Copy)]
pub(crate) struct Variable {
    /// The codes of its fanins. The one that lies lower is the first.
    pub(crate) first: u32,
    pub(crate) second: u32,
    /// The readers of the first fanin's variable, and of the second's, that were loaded before this one.
    pub(crate) next_first: u32,
    pub(crate) next_second: u32,
    /// The variable's last reader: twice a gate's variable, and 1 where it is the gate's second fanin. 0 ends
    /// a chain of readers, since the constant reads nothing.
    pub(crate) readers: u32,
    pub(crate) position: u32,
    pub(crate) kind: Kind,
}

const NOWHERE: Variable = Variable {
    first: 0,
    second: 0,
    next_first: 0,
    next_second: 0,
    readers: 0,
    position: 0,
    kind: Kind::New,
};

/// The variables of a query: nodes get numbers in the order in which it comes to them. The constant is
/// variable 0.
///
/// What was used is cleared before the next query, so that a query costs what it looks at and not the size of
/// the net.
#[derive(Drop)]
pub(crate) struct Variables {
    /// For each position the variable of its node; 0 where it has none.
    numbers: Vec<u32>,
    /// The variables, and behind them room.
    pub(crate) records: Vec<Variable>,
    /// How many variables there are.
    len: u32,
}

impl Variables {
    /// No variables, of a net with so many positions.
    pub(crate) fn of(alloc: Global, positions: u32) -> Result<Variables, AllocError> {
        Ok(Variables {
            numbers: vec![in alloc; 0; positions as usize]?,
            records: Vec::new(alloc),
            len: 0,
        })
    }

    /// Forgets all variables.
    pub(crate) fn clear(&mut self) {
        for var in 0..self.len {
            let position = self.position(var);
            put(&mut self.numbers, position, 0);
        }
        self.len = 0;
    }

    /// How many variables there are.
    #[inline(always)]
    pub(crate) fn len(&self) -> u32 {
        self.len
    }

    /// The variable of a position.
    #[inline(always)]
    pub(crate) fn number(&mut self, position: u32) -> Result<u32, AllocError> {
        let known = at(&self.numbers, position);
        if known > 0 || (position == 0 && self.len > 0) {
            return Ok(known);
        }
        let number = self.len;
        let record = Variable {
            position,
            ..NOWHERE
        };
        if (number as usize) < self.records.len() {
            self.records[number as usize] = record;
        } else {
            self.records.push(record)?;
        }
        self.len = number.saturating_add(1);
        put(&mut self.numbers, position, number);
        Ok(number)
    }

    /// What is known of a variable.
    #[inline(always)]
    pub(crate) fn get(&self, var: u32) -> Variable {
        match self.records.get(var as usize) {
            Some(variable) => *variable,
            None => NOWHERE,
        }
    }

    /// The position of a variable's node.
    pub(crate) fn position(&self, var: u32) -> u32 {
        self.get(var).position
    }

    /// Says that a variable has no fanins.
    pub(crate) fn define_free(&mut self, var: u32) {
        let var = var as usize;
        if var < self.records.len() {
            self.records[var].kind = Kind::Free;
        }
    }

    /// Says what defines a variable, with these codes as fanins, of which it becomes a reader.
    pub(crate) fn define(&mut self, var: u32, kind: Kind, first: u32, second: u32) {
        let reader = var.wrapping_mul(2);
        let next_first = self.read_by(first / 2, reader);
        let next_second = if first == second {
            0
        } else {
            self.read_by(second / 2, reader | 1)
        };
        let known = self.get(var);
        let var = var as usize;
        if var < self.records.len() {
            self.records[var] = Variable {
                first,
                second,
                next_first,
                next_second,
                kind,
                ..known
            };
        }
    }

    /// Notes a reader of a variable. Gives the one before it.
    fn read_by(&mut self, var: u32, reader: u32) -> u32 {
        let var = var as usize;
        if var >= self.records.len() {
            return 0;
        }
        let before = self.records[var].readers;
        self.records[var].readers = reader;
        before
    }

    /// The codes of a variable's clause. A clause of fewer than three has its last one more than once.
    #[inline(always)]
    pub(crate) fn codes(&self, reason: Reason) -> [u32; 3] {
        match reason {
            Reason::First(var) => {
                let gate = self.get(var);
                match gate.kind {
                    Kind::Free => [var.wrapping_mul(2); 3],
                    _ => [var.wrapping_mul(2) | 1, gate.first, gate.first],
                }
            }
            Reason::Second(var) => {
                let gate = self.get(var);
                [var.wrapping_mul(2) | 1, gate.second, gate.second]
            }
            Reason::Both(var) => {
                let gate = self.get(var);
                [var.wrapping_mul(2), gate.first ^ 1, gate.second ^ 1]
            }
            _ => [NOWHERE.first; 3],
        }
    }
}
