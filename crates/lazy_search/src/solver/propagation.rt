use crate::given::Given;
use crate::log::Log;
use crate::reason::Reason;
use crate::solver::LazySolver;
use crate::trail::{Trail, assign};
use crate::variables::{Kind, Variable};
use search_parts::{FALSE, FREE, TRUE, at};
use std::alloc::AllocError;

impl LazySolver {
    /// Propagates until nothing is left, or a clause is false: which one.
    ///
    /// A gate or a merge isn't kept as clauses with watches, which took twice the time: its record has the
    /// codes of its fanins, and each variable has a chain of the gates that read it (as in the circuit-based
    /// solver of Kuehlmann, Paruthi, Krohm and Ganai 2002). Only learned clauses are watched.
    pub(super) fn propagate(&mut self, given: &Given) -> Result<Option<Reason>, AllocError> {
        let is_taught = !self.clauses.is_empty();
        for _ in 0..u64::MAX {
            let Some(code) = self.trail.next() else {
                return Ok(None);
            };
            let gate = self.known(given, code / 2)?;
            if let Some(conflict) = down(&mut self.trail, &gate, code)? {
                return Ok(Some(conflict));
            }
            if let Some(conflict) = self.up(gate.readers, code) {
                return Ok(Some(conflict));
            }
            if is_taught {
                let clauses = &mut self.clauses;
                if let Some(conflict) = self.watches.visit_all(clauses, &mut self.trail, code ^ 1) {
                    return Ok(Some(conflict));
                }
            }
        }
        Ok(None)
    }

    /// What defines a variable, which is loaded where it wasn't looked at yet.
    #[inline(always)]
    pub(super) fn known(&mut self, given: &Given, var: u32) -> Result<Variable, AllocError> {
        let known = self.variables.get(var);
        match known.kind {
            Kind::New => {
                self.load(given, var)?;
                Ok(self.variables.get(var))
            }
            _ => Ok(known),
        }
    }

    /// Does what a code that is true asks of the gates that read it, of which this reader is the first. Tells
    /// the clause that is false, if one is.
    #[inline(always)]
    fn up(&mut self, reader: u32, code: u32) -> Option<Reason> {
        if reader == 0 {
            return None;
        }
        let records = &self.variables.records;
        up(
            records,
            &mut self.trail.values,
            &mut self.trail.log,
            reader,
            code,
        )
    }
}

/// Does what a gate's value asks of its fanins. Tells the clause that is false, if one is.
#[inline(always)]
fn down(trail: &mut Trail, gate: &Variable, code: u32) -> Result<Option<Reason>, AllocError> {
    match gate.kind {
        Kind::New | Kind::Free => Ok(None),
        _ => {
            if code & 1 == 0 {
                Ok(down_true(trail, gate, code / 2))
            } else {
                down_false(trail, gate, code / 2)
            }
        }
    }
}

/// Makes both fanins of a gate true.
#[inline(always)]
fn down_true(trail: &mut Trail, gate: &Variable, var: u32) -> Option<Reason> {
    let first = trail.value(gate.first);
    if first == FALSE {
        return Some(Reason::First(var));
    }
    if first == FREE {
        trail.assign(gate.first, Reason::First(var));
    }
    let second = trail.value(gate.second);
    if second == FALSE {
        return Some(Reason::Second(var));
    }
    if second == FREE {
        trail.assign(gate.second, Reason::Second(var));
    }
    None
}

/// Makes a fanin of a gate false if the other one is true. The gate is open if both are free.
#[inline(always)]
fn down_false(trail: &mut Trail, gate: &Variable, var: u32) -> Result<Option<Reason>, AllocError> {
    let first = trail.value(gate.first);
    let second = trail.value(gate.second);
    if first == TRUE {
        if second == TRUE {
            return Ok(Some(Reason::Both(var)));
        }
        if second == FREE {
            trail.assign(gate.second ^ 1, Reason::Both(var));
        }
    } else if first == FREE {
        if second == TRUE || gate.first == gate.second {
            trail.assign(gate.first ^ 1, Reason::Both(var));
        } else if second == FREE {
            trail.open.push(var)?;
        }
    }
    Ok(None)
}

/// Does what a code that is true asks of the gates in a chain of its variable's readers. The tables are given
/// apart: with the trail whole, each is looked up anew at each gate.
#[inline(always)]
fn up(
    records: &[Variable],
    values: &mut [u32],
    log: &mut Log,
    first: u32,
    code: u32,
) -> Option<Reason> {
    let mut reader = first;
    for _ in 0..u64::MAX {
        let gate = records.get((reader / 2) as usize)?;
        let is_first = reader & 1 == 0;
        let (mine, other, next) = if is_first {
            (gate.first, gate.second, gate.next_first)
        } else {
            (gate.second, gate.first, gate.next_second)
        };
        let conflict = if mine == code {
            fanin_true(values, log, reader / 2, other)
        } else {
            fanin_false(values, log, reader / 2, is_first)
        };
        if conflict.is_some() || next == 0 {
            return conflict;
        }
        reader = next;
    }
    None
}

/// Makes a gate false, since a fanin is.
#[inline(always)]
fn fanin_false(values: &mut [u32], log: &mut Log, var: u32, is_first: bool) -> Option<Reason> {
    let value = at(values, var.wrapping_mul(2));
    if value == FALSE {
        return None;
    }
    let reason = if is_first {
        Reason::First(var)
    } else {
        Reason::Second(var)
    };
    if value == TRUE {
        return Some(reason);
    }
    assign(values, log, var.wrapping_mul(2) | 1, reason);
    None
}

/// Makes a gate true if its other fanin is true too, and that false if the gate is.
#[inline(always)]
fn fanin_true(values: &mut [u32], log: &mut Log, var: u32, other: u32) -> Option<Reason> {
    let lit = var.wrapping_mul(2);
    let value = at(values, lit);
    if value == TRUE {
        return None;
    }
    let there = at(values, other);
    if there == TRUE {
        if value == FALSE {
            return Some(Reason::Both(var));
        }
        assign(values, log, lit, Reason::Both(var));
    } else if there == FREE && value == FALSE {
        assign(values, log, other ^ 1, Reason::Both(var));
    }
    None
}
