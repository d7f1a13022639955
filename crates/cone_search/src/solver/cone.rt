use crate::solver::ConeSolver;
use crate::solver::store::Name;
use crate::solver::trail::Trail;
use merged_net::{Merges, Source};
use netlist::Net;
use search_parts::{FALSE, FREE, at, count, put};
use shared_equalities::{Equalities, Equality, Finder};
use std::alloc::AllocError;

impl ConeSolver {
    /// Begins a query about two codes of positions: its cone is what they stand on. Clauses that aren't there
    /// yet are loaded; nothing is gone into behind a node that is equal to another one.
    pub(crate) fn enter(
        &mut self,
        net: &Net,
        merges: &Merges,
        equalities: &Equalities,
        codes: (u32, u32),
    ) -> Result<(), AllocError> {
        self.back(0)?;
        self.query = self.query.wrapping_add(1);
        self.order.empty();
        self.cone.clear();
        self.pending.clear();
        let first = self.code(codes.0)?;
        let second = self.code(codes.1)?;
        self.pending.extend_from_slice(&[first / 2, second / 2])?;
        for _ in 0..u64::MAX {
            let Some(var) = self.pending.pop() else {
                break;
            };
            self.visit(net, merges, equalities, var)?;
        }
        Ok(())
    }

    /// Takes a variable into the cone, unless it is there.
    fn visit(
        &mut self,
        net: &Net,
        merges: &Merges,
        equalities: &Equalities,
        var: u32,
    ) -> Result<(), AllocError> {
        let mut node = self.nodes.get(var);
        if node.query == self.query {
            return Ok(());
        }
        node.query = self.query;
        self.nodes.set(var, node);
        self.order.put(var)?;
        self.cone.push(var)?;
        if node.equal > 0 {
            let target = self.code(node.equal.wrapping_sub(1))?;
            self.pending.push(target / 2)?;
            return Ok(());
        }
        if let Some(equality) = equalities.target(Finder::Whole, node.position) {
            return self.load_shown(var, equality);
        }
        match merges.source(net, node.position) {
            Source::Free => self.note_loaded(var),
            Source::Merged(entry, target) => self.load_equal(var, entry, target)?,
            Source::Gate(left, right) => self.load_gate(var, left, right)?,
        }
        Ok(())
    }

    /// Visits what a node was found to be equal to, and loads that.
    fn load_shown(&mut self, var: u32, equality: Equality) -> Result<(), AllocError> {
        let target = self.code(equality.target)?;
        self.pending.push(target / 2)?;
        self.note_equal(var, equality.target);
        let code = var.wrapping_mul(2);
        self.add_base(&[code | 1, target], Name::Shown(equality.there))?;
        self.add_base(&[code, target ^ 1], Name::Shown(equality.back))
    }

    /// Notes what code of a position a variable's node was found to be equal to.
    pub(crate) fn note_equal(&mut self, var: u32, target: u32) {
        let mut node = self.nodes.get(var);
        node.equal = target.saturating_add(1);
        self.nodes.set(var, node);
    }

    /// Notes that the clauses of a variable are loaded.
    fn note_loaded(&mut self, var: u32) {
        let mut node = self.nodes.get(var);
        node.is_loaded = true;
        self.nodes.set(var, node);
    }

    /// Visits what a node is merged to, and loads that.
    fn load_equal(&mut self, var: u32, entry: u32, target: u32) -> Result<(), AllocError> {
        let target = self.code(target)?;
        self.pending.push(target / 2)?;
        if self.nodes.get(var).is_loaded {
            return Ok(());
        }
        self.note_loaded(var);
        let code = var.wrapping_mul(2);
        self.add_base(&[code | 1, target], Name::Entry(entry, 0))?;
        self.add_base(&[code, target ^ 1], Name::Entry(entry, 1))
    }

    /// Visits a gate's fanins, and loads its clauses.
    fn load_gate(&mut self, var: u32, left: u32, right: u32) -> Result<(), AllocError> {
        let left = self.code(left)?;
        let right = self.code(right)?;
        self.pending.extend_from_slice(&[left / 2, right / 2])?;
        let node = self.nodes.get(var);
        if node.is_loaded {
            return Ok(());
        }
        self.note_loaded(var);
        let code = var.wrapping_mul(2);
        let position = node.position;
        self.add_base(&[code | 1, left], Name::Axiom(position, 0))?;
        self.add_base(&[code | 1, right], Name::Axiom(position, 1))?;
        if left == right {
            self.add_base(&[code, left ^ 1], Name::Axiom(position, 2))?;
        } else if left != right ^ 1 {
            self.add_base(&[code, left ^ 1, right ^ 1], Name::Axiom(position, 2))?;
        }
        Ok(())
    }

    /// The code of a variable for that of a position, which gets a variable if it has none.
    pub(crate) fn code(&mut self, placed: u32) -> Result<u32, AllocError> {
        let position = placed / 2;
        let known = self.nodes.number(position);
        if known > 0 {
            return Ok(known.wrapping_sub(1).wrapping_mul(2) | (placed & 1));
        }
        let number = self.variables;
        self.nodes.push(position, number)?;
        self.trail.grow()?;
        self.watches.grow()?;
        self.analysis.grow()?;
        self.order.grow()?;
        self.variables = number.saturating_add(1);
        Ok(number.wrapping_mul(2) | (placed & 1))
    }

    /// Adds a clause of the circuit or the book.
    pub(crate) fn add_base(&mut self, clause: &[u32], name: Name) -> Result<(), AllocError> {
        self.added.clear();
        self.added.extend_from_slice(clause)?;
        bring_free(&mut self.added, &self.trail);
        let place = self.store.push(&self.added, name, &[], 0)?;
        self.attach(place)
    }

    /// Has a clause watched, of which the first two codes aren't false where two aren't, and makes its first one
    /// true where all others are false.
    pub(crate) fn attach(&mut self, place: u32) -> Result<(), AllocError> {
        let first = self.store.code(place);
        let size = self.store.size_of(place);
        if size > 1 {
            self.watch(place)?;
            let second = self.store.code(place.wrapping_add(1));
            if self.trail.value(second) != FALSE {
                return Ok(());
            }
        }
        if self.trail.value(first) == FREE {
            self.trail.assign(first, place);
        }
        Ok(())
    }

    /// Has a clause watched by its first two codes.
    pub(crate) fn watch(&mut self, place: u32) -> Result<(), AllocError> {
        self.watches.watch(&self.store, place)
    }

    /// Gives the levels above this one up. Variables of the cone can be chosen again.
    pub(crate) fn back(&mut self, level: u32) -> Result<(), AllocError> {
        for code in self.trail.above(level) {
            let var = *code / 2;
            if self.nodes.get(var).query == self.query {
                self.order.put(var)?;
            }
        }
        self.trail.cut(level);
        Ok(())
    }
}

/// Brings two codes of a clause to its front that aren't false, as far as there are any.
pub(crate) fn bring_free(clause: &mut [u32], trail: &Trail) {
    let mut to: u32 = 0;
    for place in 0..count(clause.len()) {
        let code = at(clause, place);
        if to < 2 && trail.value(code) != FALSE {
            let moved = at(clause, to);
            put(clause, to, code);
            put(clause, place, moved);
            to = to.saturating_add(1);
        }
    }
}
