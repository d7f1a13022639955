//! The small circuits of the worked cases, for the crates of tests.
//!
//! `circuit` and `and` write a circuit down as a line or two of a test; `swapped_ands` and `two_xors` are the
//! pairs that most cases are about. What `circuit` promises is exact, so that a test may ask for what a
//! call requires of its circuits. `specs/Worked.antt` has the circuit of one gate and circuits with
//! constraints. Begin to read here.
#![tactic(auto)]

ghost use Rattle.std.specs.Prelude.{◌≡◌, [], ◌∷◌, IfOk};
ghost use Rattle.netlist.specs.Circuit.{IsCircuit, plain};
ghost use Rattle.worked_circuits.specs.Worked.{constrained, one_gate};

use netlist::{And, Circuit, Names};
use std::alloc::{AllocError, Global};

/// The gate of a variable, by the literals of its fanins.
pub fn and(var: u32, left: u32, right: u32) -> And
    ensures { result ≡ record { var = var; left = left; right = right } }
{
    And { var, left, right }
}

/// The circuit of input variables, gates and output literals, without constraints and names.
pub fn circuit(
    alloc: Global,
    inputs: &[u32],
    gates: &[And],
    outputs: &[u32],
) -> Result<Circuit, AllocError>
    requires { IsCircuit (plain inputs.now gates.now outputs.now) }
    ensures { IfOk result (λ c. c ≡ plain inputs.now gates.now outputs.now) }
{
    constrained_circuit(alloc, inputs, gates, outputs, &[])
}

/// The circuit of input variables, gates, output literals and constraint literals, without names.
pub fn constrained_circuit(
    alloc: Global,
    inputs: &[u32],
    gates: &[And],
    outputs: &[u32],
    constraints: &[u32],
) -> Result<Circuit, AllocError>
    requires { IsCircuit (constrained inputs.now gates.now outputs.now constraints.now) }
    ensures { IfOk result (λ c. c ≡ constrained inputs.now gates.now outputs.now constraints.now) }
{
    let names = Names::none(alloc, inputs.len() as u32, outputs.len() as u32);
    Circuit::of(
        alloc,
        Vec::from_slice(alloc, inputs)?,
        Vec::from_slice(alloc, gates)?,
        Vec::from_slice(alloc, outputs)?,
        Vec::from_slice(alloc, constraints)?,
        names,
    )
}

/// The circuit of two inputs, 1 and 2, with one output.
pub fn two_input_circuit(alloc: Global, gates: &[And], output: u32) -> Result<Circuit, AllocError>
    requires { IsCircuit (plain (1 ∷ 2 ∷ []) gates.now (output ∷ [])) }
    ensures { IfOk result (λ c. c ≡ plain (1 ∷ 2 ∷ []) gates.now (output ∷ [])) }
{
    circuit(alloc, &[1, 2], gates, &[output])
}

/// The circuit of two inputs and a gate, 3, that is its output.
pub fn one_gate(alloc: Global, left: u32, right: u32) -> Result<Circuit, AllocError>
    requires { IsCircuit (one_gate left right) }
    ensures { IfOk result (λ c. c ≡ one_gate left right) }
{
    two_input_circuit(alloc, &[and(3, left, right)], 6)
}

/// Two ANDs of two inputs, gate 3 of each circuit, whose fanins stand in the other order.
pub fn swapped_ands(alloc: Global) -> Result<(Circuit, Circuit), AllocError>
    ensures { IfOk result (λ p. (p.0 ≡ one_gate 2 4) × (p.1 ≡ one_gate 4 2)) }
{
    Ok((one_gate(alloc, 2, 4)?, one_gate(alloc, 4, 2)?))
}

/// Two XORs of two inputs by other gates, of which gate 5 of the first is the negation of gate 5 of the
/// second.
pub fn two_xors(alloc: Global) -> Result<(Circuit, Circuit), AllocError>
    ensures outputs { IfOk result (λ p. (p.0.outputs ≡ 11 ∷ []) × (p.1.outputs ≡ 10 ∷ [])) }
    ensures constraints { IfOk result (λ p. (p.0.constraints ≡ []) × (p.1.constraints ≡ [])) }
{
    let gates = [and(3, 2, 5), and(4, 3, 4), and(5, 7, 9)];
    let a = two_input_circuit(alloc, &gates, 11)?;
    let gates = [and(3, 2, 4), and(4, 3, 5), and(5, 7, 9)];
    let b = two_input_circuit(alloc, &gates, 10)?;
    Ok((a, b))
}
