ghost use Rattle.std.specs.Prelude.{◌≡◌, ◌++◌, ◌∷◌, [], OnOk};

use crate::exclusive::Exclusive;
use crate::plan::{Move, Plan};
use search_parts::NONE;
use std::alloc::{AllocError, Global};
use std::collections::BinaryHeap;

/// With fewer gates than this the search finds a proof by itself, which is as short.
const FEWEST: u32 = 5;

/// A clause with a code more than the one that is to be shown, or than a case of that.
#[derive(Clone, Copy)]
pub struct Case {
    /// The code.
    pub code: u32,
    /// The clause's number.
    pub clause: u32,
    /// How many codes it has besides.
    len: usize,
}

/// What shows that two sums modulo 2 are one.
///
/// Gates that are exclusive ORs say that a node is the sum of two others. Where the sum of two nodes goes away
/// once each gate is put in its node's place, the nodes have one value. A search by clauses finds no short proof
/// of that by itself (Urquhart 1987 has sums that have none). Here gates are added up in an order in which the
/// sums between have few terms, and each of these becomes the clauses that say it, 2^(n-1) for n terms, by unit
/// propagation from those before. So a chain and a tree of exclusive ORs are equal by a number of steps that
/// grows with their inputs: 4,096 bits take 1.7 seconds for 47, and a Hamming decoder of 64 bits and a CRC of 16
/// by 32 bits, which stayed open, are decided.
#[derive(Drop)]
pub struct Sums {
    plan: Plan,
    /// Positions of the nodes that are still to be replaced by their gates.
    pending: BinaryHeap<u32>,
    /// The clause that is to be shown.
    goal: Vec<u32>,
    /// What cases of it were shown.
    cases: Vec<Case>,
    /// The clauses that say sums: the sum's number and the clause's.
    said: Vec<(u32, u32)>,
    /// How many of them were of sums that are still needed when the watches were made anew.
    needed: usize,
}

impl Sums {
    /// No sums.
    pub fn new(alloc: Global) -> Sums {
        Sums {
            plan: Plan::new(alloc),
            pending: BinaryHeap::new(alloc),
            goal: Vec::new(alloc),
            cases: Vec::new(alloc),
            said: Vec::new(alloc),
            needed: 0,
        }
    }

    /// Forgets all; the sum of these two variables is asked for.
    pub fn begin(&mut self, first: u32, second: u32) {
        self.plan.clear(first, second);
        self.pending.clear();
        self.said.clear();
        self.needed = 0;
    }

    /// Notes that the node at a position is a term of the sum.
    pub fn add_pending(&mut self, position: u32) -> Result<(), AllocError> {
        self.pending.push(position)?;
        Ok(())
    }

    /// Takes the highest term away.
    pub fn next_pending(&mut self) -> Option<u32> {
        self.pending.pop()
    }

    /// Takes a term away that is there once more. Whether it was.
    pub fn cancels(&mut self, position: u32) -> bool {
        let is_twice = match self.pending.peek() {
            Some(next) => *next == position,
            None => false,
        };
        if is_twice {
            let _same = self.pending.pop();
        }
        is_twice
    }

    /// Puts the gate last that has this variable.
    pub fn add_gate(&mut self, var: u32, gate: Exclusive) -> Result<(), AllocError> {
        self.plan.add_gate(var, gate)
    }

    /// Whether there are enough gates for a plan.
    pub fn has_enough(&self) -> bool {
        self.plan.gates() >= FEWEST
    }

    /// Finds an order in which the gates are added up in at most so many steps. Whether there is one.
    pub fn make_plan(&mut self, most: u64) -> Result<bool, AllocError> {
        self.plan.make(most)
    }

    /// How many moves the order has.
    pub fn moves(&self) -> u32 {
        self.plan.moves()
    }

    /// The move at a place of the order.
    pub fn order(&self, place: u32) -> Option<Move> {
        self.plan.order(place)
    }

    /// Joins two sums.
    pub fn unite(&mut self, one: u32, two: u32) -> Result<(), AllocError> {
        let _sum = self.plan.unite(one, two)?;
        Ok(())
    }

    /// Begins to say a sum by clauses. How many assignments its terms have.
    pub fn begin_saying(&mut self, sum: u32) -> Result<u32, AllocError> {
        let _parts = self.plan.list_inner(sum)?;
        Ok(1_u32.wrapping_shl(self.plan.width(sum)))
    }

    /// Begins to show the clause which says that the terms of a sum haven't these values, a bit for each. None
    /// is shown of values that the sum allows: whether it doesn't.
    pub fn begin_goal(&mut self, sum: u32, values: u32) -> Result<bool, AllocError> {
        let is_odd = values.count_ones() & 1 == 1;
        if is_odd == self.plan.is_odd(sum) {
            return Ok(false);
        }
        self.plan.list_clause(sum, values, &mut self.goal)?;
        self.cases.clear();
        Ok(true)
    }

    /// The clause that is to be shown.
    pub fn goal(&self) -> &[u32]
        ensures { result.now ≡ self.now.goal.items }
    {
        self.goal.as_slice()
    }

    /// What cases of it were shown.
    pub fn cases(&self) -> &[Case] {
        self.cases.as_slice()
    }

    /// The terms of the sum's parts that it hasn't itself.
    pub fn inner(&self) -> &[u32] {
        self.plan.inner()
    }

    /// Shows the clause with this code more, first.
    pub fn begin_case(&mut self, code: u32) -> Result<(), AllocError>
        ensures { OnOk result (self.new.goal.items ≡ self.old.goal.items ++ code ∷ []) }
    {
        self.goal.push(code)?;
        Ok(())
    }

    /// Takes the last code away from the clause that was shown with it, under this number: it is true from now
    /// on where the others are false.
    pub fn end_case(&mut self, clause: u32) -> Result<(), AllocError> {
        let Some(code) = self.goal.pop() else {
            return Ok(());
        };
        let len = self.goal.len();
        for _ in 0..self.cases.len() {
            match self.cases.last() {
                Some(case) if case.len > len => {
                    let _case = self.cases.pop();
                }
                _ => break,
            }
        }
        self.cases.push(Case { code, clause, len })?;
        Ok(())
    }

    /// Notes that a clause says a sum, with others.
    pub fn push_said(&mut self, sum: u32, clause: u32) -> Result<(), AllocError> {
        self.said.push((sum, clause))?;
        Ok(())
    }

    /// Notes that all clauses of a sum are there.
    pub fn note_said(&mut self, sum: u32) {
        self.plan.note_said(sum);
    }

    /// How many clauses say sums.
    pub fn said(&self) -> usize {
        self.said.len()
    }

    /// The clause at a place of those that say sums.
    pub fn said_at(&self, place: usize) -> u32 {
        match self.said.get(place) {
            Some(said) => said.1,
            None => NONE,
        }
    }

    /// Whether more than half of them came since those were left out that aren't needed any more.
    pub fn is_stale(&self) -> bool {
        self.said.len() / 2 > self.needed
    }

    /// Forgets the clauses of sums that aren't needed any more.
    pub fn keep_needed(&mut self) {
        let mut to: usize = 0;
        for place in 0..self.said.len() {
            let said = self.said[place];
            if self.plan.is_needed(said.0) && to < self.said.len() {
                self.said[to] = said;
                to = to.saturating_add(1);
            }
        }
        self.said.truncate(to);
        self.needed = to;
    }
}
