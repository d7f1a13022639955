ghost use Rattle.std.specs.Prelude.{◌≡◌, ◌≤◌, ◌<◌, ◌+◌, [], length, IfOk, OnOk};
ghost use Rattle.aiger_ascii.specs.Ascii.{defined, input_at, output_at, constraint_at, gate_at, lines_at, Grows, IsNew};

use byte_scan::{AigerErr, Scan, VARIABLE_LIMIT, literal_line, number, number_line, space, used};
use circuit_draft::Draft;
use netlist::And;

/// Reads the lines of the inputs.
pub(crate) fn inputs(
    scan: &mut Scan,
    count: u32,
    most: u32,
    draft: &mut Draft,
) -> Result<(), AigerErr>
    requires most { most ≤ VARIABLE_LIMIT }
    requires first { draft.old.gates ≡ [] }
    ensures reads { Grows result draft.new scan.new (lines_at input_at count most draft.old scan.old) }
    ensures outputs { OnOk result (draft.new.outputs ≡ draft.old.outputs) }
    ensures constraints { OnOk result (draft.new.constraints ≡ draft.old.constraints) }
{
    for _ in 0..count {
        input(scan, most, draft)?;
    }
    Ok(())
}

/// Reads the line of an input.
fn input(scan: &mut Scan, most: u32, draft: &mut Draft) -> Result<(), AigerErr>
    requires most { most ≤ VARIABLE_LIMIT }
    requires first { draft.old.gates ≡ [] }
    ensures reads { Grows result draft.new scan.new (input_at most draft.old scan.old) }
    ensures gates { OnOk result (draft.new.gates ≡ []) }
    ensures outputs { OnOk result (draft.new.outputs ≡ draft.old.outputs) }
    ensures constraints { OnOk result (draft.new.constraints ≡ draft.old.constraints) }
{
    let n = number_line(scan)?;
    let var = defined(n, most, draft)?;
    draft.push_input(var)?;
    Ok(())
}

/// Reads the lines of the outputs.
pub(crate) fn outputs(
    scan: &mut Scan,
    count: u32,
    most: u32,
    draft: &mut Draft,
) -> Result<(), AigerErr>
    requires most { most ≤ VARIABLE_LIMIT }
    requires room { length draft.old.outputs + count ≤ VARIABLE_LIMIT }
    ensures reads { Grows result draft.new scan.new (lines_at output_at count most draft.old scan.old) }
    ensures constraints { OnOk result (draft.new.constraints ≡ draft.old.constraints) }
{
    for _ in 0..count {
        output(scan, most, draft)?;
    }
    Ok(())
}

/// Reads the line of an output.
fn output(scan: &mut Scan, most: u32, draft: &mut Draft) -> Result<(), AigerErr>
    requires most { most ≤ VARIABLE_LIMIT }
    requires room { length draft.old.outputs < VARIABLE_LIMIT }
    ensures reads { Grows result draft.new scan.new (output_at most draft.old scan.old) }
    ensures count { OnOk result (length draft.new.outputs ≡ length draft.old.outputs + 1) }
    ensures constraints { OnOk result (draft.new.constraints ≡ draft.old.constraints) }
{
    let lit = literal_line(scan, most)?;
    draft.push_output(lit)?;
    Ok(())
}

/// Reads the lines of the constraints.
pub(crate) fn constraints(
    scan: &mut Scan,
    count: u32,
    most: u32,
    draft: &mut Draft,
) -> Result<(), AigerErr>
    requires most { most ≤ VARIABLE_LIMIT }
    requires room { length draft.old.constraints + count ≤ VARIABLE_LIMIT }
    ensures { Grows result draft.new scan.new (lines_at constraint_at count most draft.old scan.old) }
{
    for _ in 0..count {
        constraint(scan, most, draft)?;
    }
    Ok(())
}

/// Reads the line of a constraint.
fn constraint(scan: &mut Scan, most: u32, draft: &mut Draft) -> Result<(), AigerErr>
    requires most { most ≤ VARIABLE_LIMIT }
    requires room { length draft.old.constraints < VARIABLE_LIMIT }
    ensures reads { Grows result draft.new scan.new (constraint_at most draft.old scan.old) }
    ensures count { OnOk result (length draft.new.constraints ≡ length draft.old.constraints + 1) }
{
    let lit = literal_line(scan, most)?;
    draft.push_constraint(lit)?;
    Ok(())
}

/// Reads the lines of the gates.
pub(crate) fn gates(
    scan: &mut Scan,
    count: u32,
    most: u32,
    draft: &mut Draft,
) -> Result<(), AigerErr>
    requires { most ≤ VARIABLE_LIMIT }
    ensures { Grows result draft.new scan.new (lines_at gate_at count most draft.old scan.old) }
{
    for _ in 0..count {
        gate(scan, most, draft)?;
    }
    Ok(())
}

/// Reads the line of a gate.
fn gate(scan: &mut Scan, most: u32, draft: &mut Draft) -> Result<(), AigerErr>
    requires { most ≤ VARIABLE_LIMIT }
    ensures { Grows result draft.new scan.new (gate_at most draft.old scan.old) }
{
    let lhs = number(scan)?;
    space(scan)?;
    let rhs0 = number(scan)?;
    space(scan)?;
    let rhs1 = number_line(scan)?;
    let var = defined(lhs, most, draft)?;
    let left = used(rhs0, most)?;
    let right = used(rhs1, most)?;
    draft.push_gate(And { var, left, right })?;
    Ok(())
}

/// The variable of a literal that is defined and wasn't before.
fn defined(n: u64, most: u32, draft: &Draft) -> Result<u32, AigerErr>
    requires { most ≤ VARIABLE_LIMIT }
    ensures reads { result ≡ defined most draft.now n }
    ensures new { IfOk result (IsNew most draft.now) }
{
    if n % 2 == 1 || n == 0 || n > 2 * u64::from(most) {
        return Err(AigerErr::BadLiteral(n));
    }
    let var = (n / 2) as u32;
    if draft.has(var) {
        return Err(AigerErr::DefinedTwice(n));
    }
    Ok(var)
}
