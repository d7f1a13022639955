use crate::clauses::Name;
use crate::given::Given;
use crate::reason::Reason;
use crate::solver::LazySolver;
use crate::variables::Kind;
use lits::{Lit, Side};
use merged_net::{Source, lit_code};
use netlist::Net;
use search_parts::{FALSE, FREE, count};
use shared_equalities::{Equality, Finder};
use std::alloc::AllocError;

impl LazySolver {
    /// Loads what defines a variable: its merge, or else its gate.
    pub(super) fn load(&mut self, given: &Given, var: u32) -> Result<(), AllocError> {
        let position = self.variables.position(var);
        if let Some(equality) = self.shown_equal(given, position) {
            return self.load_equal(var, Kind::Shown, equality.target);
        }
        match given.merges.source(given.net, position) {
            Source::Free => {
                self.variables.define_free(var);
                Ok(())
            }
            Source::Merged(entry, target) => self.load_equal(var, Kind::Merged(entry), target),
            Source::Gate(left, right) => self.load_gate(given, var, left, right),
        }
    }

    /// What a node is equal to by steps that the query may use.
    fn shown_equal(&self, given: &Given, position: u32) -> Option<Equality> {
        if self.shown == 0 {
            return None;
        }
        let equality = given.equalities.target(Finder::Lazy, position)?;
        if equality.back < self.shown {
            Some(equality)
        } else {
            None
        }
    }

    /// Loads that a variable is equal to a code: it is a gate of which both fanins are that code.
    fn load_equal(&mut self, var: u32, kind: Kind, target: u32) -> Result<(), AllocError> {
        let target = self.code(target)?;
        self.variables.define(var, kind, target, target);
        Ok(())
    }

    /// Loads a gate. The fanin that lies lower is the first, since it is chosen first.
    fn load_gate(
        &mut self,
        given: &Given,
        var: u32,
        left: u32,
        right: u32,
    ) -> Result<(), AllocError> {
        let is_turned = given.merges.depth(left / 2) > given.merges.depth(right / 2);
        let left = self.code(left)?;
        let right = self.code(right)?;
        if is_turned {
            self.variables.define(var, Kind::Turned, right, left);
        } else {
            self.variables.define(var, Kind::Gate, left, right);
        }
        Ok(())
    }

    /// Loads the units of all constraints: the search is then for an admitted input, and what it refutes is so
    /// on each of these.
    pub(super) fn load_constraints(&mut self, net: &Net) -> Result<(), AllocError> {
        self.load_constraints_of(net, Side::A)?;
        self.load_constraints_of(net, Side::B)
    }

    /// Loads those of one side.
    fn load_constraints_of(&mut self, net: &Net, side: Side) -> Result<(), AllocError> {
        for k in 0..count(net.circuit(side).constraints().len()) {
            if let Some(lit) = net.constraint(side, k) {
                self.load_unit(net, lit, Name::Bound(side, k))?;
            }
        }
        Ok(())
    }

    /// Loads a constraint's unit.
    fn load_unit(&mut self, net: &Net, lit: Lit, name: Name) -> Result<(), AllocError> {
        let Some(placed) = lit_code(net, lit) else {
            return Ok(());
        };
        let code = self.code(placed)?;
        let unit = Reason::Listed(self.clauses.push(&[code], name)?);
        let value = self.trail.value(code);
        if value == FALSE {
            self.denied = Some(unit);
        } else if value == FREE {
            self.trail.assign(code, unit);
        }
        Ok(())
    }
}
