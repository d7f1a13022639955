ghost use Rattle.std.specs.Prelude.{◌≡◌};
ghost use Rattle.netlist_edits.specs.Line.{is_number, is_gate_literal, is_place, has_numbers_of_a_line};

use lits::Side;

/// The greatest number of a line: the greatest literal of a circuit, the negation of variable 16,777,216.
pub(crate) const LITERAL_LIMIT: u32 = 33_554_433;

/// A change to one circuit of a pair. Its literals are those of AIGER in that circuit.
#[derive(Clone, Copy, PartialEq, Eq)]
pub enum Edit {
    /// The gate of `lhs` gets these fanins.
    Set {
        side: Side,
        lhs: u32,
        r0: u32,
        r1: u32,
    },
    /// A gate of a new variable comes in, right before the gate of `before`, or last.
    New {
        side: Side,
        lhs: u32,
        r0: u32,
        r1: u32,
        before: Option<u32>,
    },
    /// The gate of `lhs` goes.
    Remove {
        side: Side,
        lhs: u32,
    },
    /// Output j, from 0, gets this literal.
    Out {
        side: Side,
        j: u32,
        lit: u32,
    },
}

/// What a line of a script asks for.
#[derive(Clone, Copy, PartialEq, Eq)]
pub enum Command {
    Edit(Edit),
    /// The circuits are to be checked as they stand.
    Check,
}

/// Whether the edit's numbers are such as a line may have.
pub(crate) fn has_numbers_of_a_line(edit: &Edit) -> bool
    ensures { result ≡ has_numbers_of_a_line edit.now }
{
    match *edit {
        Edit::Set { lhs, r0, r1, .. } => is_gate_literal(lhs) && is_number(r0) && is_number(r1),
        Edit::New {
            lhs,
            r0,
            r1,
            before,
            ..
        } => { is_gate_literal(lhs) && is_number(r0) && is_number(r1) && is_place(before) }
        Edit::Remove { lhs, .. } => is_gate_literal(lhs),
        Edit::Out { j, lit, .. } => is_number(j) && is_number(lit),
    }
}

/// Whether a line may have this number.
pub(crate) fn is_number(n: u32) -> bool
    ensures { result ≡ is_number n }
{
    n <= LITERAL_LIMIT
}

/// Whether a line may have this number where it names a gate.
pub(crate) fn is_gate_literal(n: u32) -> bool
    ensures { result ≡ is_gate_literal n }
{
    n % 2 == 0 && is_number(n)
}

/// Whether a line may name this place for a new gate.
fn is_place(before: Option<u32>) -> bool
    ensures { result ≡ is_place before }
{
    match before {
        Some(n) => is_gate_literal(n),
        None => true,
    }
}
