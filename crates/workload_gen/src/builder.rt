ghost use Rattle.std.specs.Prelude.{◌≡◌, ◌+◌, ◌≤◌, ◌<◌, IfOk, OnOk};
ghost use Rattle.netlist.specs.Circuit.{var_of, most};
ghost use Rattle.std.specs.Prelude.{length};
ghost use Rattle.aiger_binary.specs.Binary.{AreBelow};
ghost use Rattle.workload_gen.specs.Gates.{input_literal, negated, next, start, and_gate, or_gate, xor_gate, mux_gate, full_adder, circuit_of};

use crate::design::Design;
use netlist::And;
use std::alloc::{AllocError, Global};
use std::marker::Model;

/// A circuit that is built gate by gate over so many inputs. Nothing is folded.
#[derive(Drop)]
pub(crate) struct Builder {
    inputs: u32,
    gates: Vec<And>,
}

impl Model for Builder {
    ghost use Rattle.workload_gen.specs.Gates.{Draft, IsDraft};

    ghost Value = { Draft };

    ghost view = { λ b. record { inputs = b.inputs; gates = b.gates.items } };

    ghost invariant = { λ b. IsDraft (record { inputs = b.inputs; gates = b.gates.items }) };
}

impl Builder {
    /// The inputs alone.
    pub(crate) fn new(alloc: Global, inputs: u32) -> Builder
        requires { inputs ≤ most }
        ensures { result ≡ start inputs }
    {
        Builder {
            inputs,
            gates: Vec::new(alloc),
        }
    }

    /// Adds a gate with the next variable, the greater literal first, and answers its literal.
    #[tactic(auto, unfolding(crate::specs::Gates::and_gate))]
    pub(crate) fn and(&mut self, x: u32, y: u32) -> Result<u32, AllocError>
        requires x { var_of x < next self.old }
        requires y { var_of y < next self.old }
        requires room { next self.old ≤ most }
        ensures gate { IfOk result (λ z. (z, self.new) ≡ and_gate x y self.old) }
        ensures literal { IfOk result (λ z. var_of z < next self.new) }
        ensures count { OnOk result (next self.new ≡ next self.old + 1) }
        ensures inputs { OnOk result (self.new.inputs ≡ self.old.inputs) }
    {
        let var = self.inputs + self.gates.len() as u32 + 1;
        self.gates.push(And {
            var,
            left: x.max(y),
            right: x.min(y),
        })?;
        Ok(2 * var)
    }

    /// The OR, by De Morgan: AIGER has AND gates alone.
    #[tactic(auto, unfolding(crate::specs::Gates::or_gate))]
    pub(crate) fn or(&mut self, x: u32, y: u32) -> Result<u32, AllocError>
        requires x { var_of x < next self.old }
        requires y { var_of y < next self.old }
        requires room { next self.old ≤ most }
        ensures gate { IfOk result (λ z. (z, self.new) ≡ or_gate x y self.old) }
        ensures literal { IfOk result (λ z. var_of z < next self.new) }
        ensures count { OnOk result (next self.new ≡ next self.old + 1) }
        ensures inputs { OnOk result (self.new.inputs ≡ self.old.inputs) }
    {
        Ok(not(self.and(not(x), not(y))?))
    }

    /// The XOR, by three gates. Nothing is folded or shared, so that the two architectures stay apart in
    /// structure.
    #[tactic(auto, unfolding(crate::specs::Gates::xor_gate))]
    pub(crate) fn xor(&mut self, x: u32, y: u32) -> Result<u32, AllocError>
        requires x { var_of x < next self.old }
        requires y { var_of y < next self.old }
        requires room { next self.old + 2 ≤ most }
        ensures gate { IfOk result (λ z. (z, self.new) ≡ xor_gate x y self.old) }
        ensures literal { IfOk result (λ z. var_of z < next self.new) }
        ensures count { OnOk result (next self.new ≡ next self.old + 3) }
        ensures inputs { OnOk result (self.new.inputs ≡ self.old.inputs) }
    {
        let p = self.and(x, not(y))?;
        let q = self.and(not(x), y)?;
        self.or(p, q)
    }

    /// `x` where `s` is true, else `y`.
    #[tactic(auto, unfolding(crate::specs::Gates::mux_gate))]
    pub(crate) fn mux(&mut self, s: u32, x: u32, y: u32) -> Result<u32, AllocError>
        requires s { var_of s < next self.old }
        requires x { var_of x < next self.old }
        requires y { var_of y < next self.old }
        requires room { next self.old + 2 ≤ most }
        ensures gate { IfOk result (λ z. (z, self.new) ≡ mux_gate s x y self.old) }
        ensures literal { IfOk result (λ z. var_of z < next self.new) }
        ensures count { OnOk result (next self.new ≡ next self.old + 3) }
        ensures inputs { OnOk result (self.new.inputs ≡ self.old.inputs) }
    {
        let p = self.and(s, x)?;
        let q = self.and(not(s), y)?;
        self.or(p, q)
    }

    /// The sum and the carry of two bits and the carry before them.
    #[tactic(auto, unfolding(crate::specs::Gates::full_adder))]
    pub(crate) fn full(&mut self, x: u32, y: u32, c: u32) -> Result<(u32, u32), AllocError>
        requires x { var_of x < next self.old }
        requires y { var_of y < next self.old }
        requires c { var_of c < next self.old }
        requires room { next self.old + 8 ≤ most }
        ensures gates { IfOk result (λ z. (z, self.new) ≡ full_adder x y c self.old) }
        ensures literals { IfOk result
            (λ z. (var_of z.0 < next self.new) × (var_of z.1 < next self.new)) }
        ensures count { OnOk result (next self.new ≡ next self.old + 9) }
        ensures inputs { OnOk result (self.new.inputs ≡ self.old.inputs) }
    {
        let t = self.xor(x, y)?;
        let s = self.xor(t, c)?;
        let u = self.and(x, y)?;
        let v = self.and(t, c)?;
        let carry = self.or(u, v)?;
        Ok((s, carry))
    }

    /// The circuit with these outputs.
    pub(crate) fn finish(self, outputs: Vec<u32>) -> Design
        requires below { AreBelow (next self) outputs.items }
        requires few { length outputs.items ≤ most }
        ensures { result ≡ circuit_of (outputs.items, self) }
    {
        Design::new(self.inputs, self.gates, outputs)
    }
}

/// The literal of an input, from 0.
pub(crate) fn input(k: u32) -> u32
    requires { k < most }
    ensures literal { result ≡ input_literal k }
    ensures var { var_of result ≡ k + 1 }
{
    2 * (k + 1)
}

/// The negated literal.
pub(crate) fn not(x: u32) -> u32
    ensures literal { result ≡ negated x }
    ensures var { var_of result ≡ var_of x }
{
    if x % 2 == 0 { x + 1 } else { x - 1 }
}
