ghost use Rattle.std.specs.Prelude.{◌≡◌, ℕ, IfOk, replicate};
ghost use Rattle.proof_stitch.specs.Table.{KeepsShape, IsPut, number_at};

use std::alloc::{AllocError, Global};

/// A number for each step of a book's Merge and Out entries, by the step's id in the whole proof.
#[derive(Drop)]
pub struct ByStep {
    /// The ids of the formula's clauses, which have no number here, stand before those of the steps.
    pub clauses: u64,
    pub numbers: Vec<u64>,
}

impl ByStep {
    /// Every number is 0.
    pub fn new(alloc: Global, clauses: u64, steps: u64) -> Result<ByStep, AllocError>
        ensures clauses { IfOk result (λ t. t.clauses ≡ clauses) }
        ensures numbers { IfOk result (λ t. t.numbers.items ≡ replicate steps 0) }
    {
        let numbers = vec![in alloc; 0; steps as usize]?;
        Ok(ByStep { clauses, numbers })
    }

    /// The number of the step with that id, or 0 where there is no such step.
    pub fn get(&self, id: u64) -> u64
        ensures { result ≡ number_at self.now id }
    {
        if id <= self.clauses {
            return 0;
        }
        let place = id - self.clauses - 1;
        self.numbers.get(place as usize).copied().unwrap_or(0)
    }

    /// Changes the number of the step with that id, if there is such a step.
    pub fn set(&mut self, id: u64, number: u64)
        ensures shape { KeepsShape self.old self.new }
        ensures put { IsPut id number self.old self.new }
    {
        if id <= self.clauses {
            return;
        }
        let place = (id - self.clauses - 1) as usize;
        if place < self.numbers.len() {
            self.numbers[place] = number;
        }
    }
}
