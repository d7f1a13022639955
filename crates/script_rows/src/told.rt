//! What comes of a line or of an edit, in words, and tables that are one text each.
//!
//! A row ends where a semicolon stands, and its words stand behind an arrow.
use lits::Side;
use netlist::{Circuit, Net};
use netlist_edits::{BadLine, Command, Edit, EditErr, apply, read_line};
use std::alloc::{AllocError, Global};
use std::process::Abort;

/// Fails the test, with these words, unless it is so.
pub(crate) fn expect(rt: &impl Abort, what: &str, is_so: bool) {
    assert!(rt; is_so, "{what}");
}

/// The line of a row, and what comes of it.
pub(crate) fn parts(row: &str) -> (&str, &str) {
    row.split_once(" => ").unwrap_or((row, ""))
}

fn name_of(side: Side) -> &'static str {
    match side {
        Side::A => "a",
        Side::B => "b",
    }
}

fn new_words(alloc: Global, gate: &str, before: Option<u32>) -> Result<String, AllocError> {
    match before {
        Some(lhs) => format!(in alloc; "new {gate} before {lhs}"),
        None => format!(in alloc; "new {gate} last"),
    }
}

fn edit_words(alloc: Global, edit: Edit) -> Result<String, AllocError> {
    match edit {
        Edit::Set { side, lhs, r0, r1 } => {
            format!(in alloc; "set {} {lhs} {r0} {r1}", name_of(side))
        }
        Edit::New {
            side,
            lhs,
            r0,
            r1,
            before,
        } => {
            let gate = format!(in alloc; "{} {lhs} {r0} {r1}", name_of(side))?;
            new_words(alloc, gate.as_str(), before)
        }
        Edit::Remove { side, lhs } => format!(in alloc; "drop {} {lhs}", name_of(side)),
        Edit::Out { side, j, lit } => format!(in alloc; "out {} {j} {lit}", name_of(side)),
    }
}

/// What is read of a line.
pub(crate) fn line_words(alloc: Global, line: &str) -> Result<String, AllocError> {
    match read_line(line.as_bytes()) {
        Ok(Some(Command::Edit(edit))) => edit_words(alloc, edit),
        Ok(Some(Command::Check)) => String::from_str(alloc, "check"),
        Ok(None) => String::from_str(alloc, "nothing"),
        Err(BadLine) => String::from_str(alloc, "bad"),
    }
}

/// The gates of a circuit, then its outputs.
fn circuit_words(alloc: Global, circuit: &Circuit) -> Result<String, AllocError> {
    let mut words = String::new(alloc);
    for gate in circuit.gates() {
        let lhs = u64::from(gate.var) * 2;
        let gate = format!(in alloc; "{lhs} {} {}, ", gate.left, gate.right)?;
        words.push_str(gate.as_str())?;
    }
    words.push_str("out")?;
    for lit in circuit.outputs() {
        let lit = format!(in alloc; " {lit}")?;
        words.push_str(lit.as_str())?;
    }
    Ok(words)
}

fn side_of(edit: &Edit) -> Side {
    match *edit {
        Edit::Set { side, .. }
        | Edit::New { side, .. }
        | Edit::Remove { side, .. }
        | Edit::Out { side, .. } => side,
    }
}

/// What an edit makes of its circuit, or its fault. One that is refused has to leave its circuit as it was.
pub(crate) fn applied(alloc: Global, net: &mut Net, edit: &Edit) -> Result<String, AllocError> {
    let side = side_of(edit);
    let before = circuit_words(alloc, net.circuit(side))?;
    let made = apply(alloc, net, edit);
    let after = circuit_words(alloc, net.circuit(side))?;
    match made {
        Ok(()) => Ok(after),
        Err(fault) => fault_words(alloc, fault, before.as_str() == after.as_str()),
    }
}

fn fault_words(alloc: Global, fault: EditErr, is_same: bool) -> Result<String, AllocError> {
    if is_same {
        fault.to_string(alloc)
    } else {
        String::from_str(alloc, "refused, and changed")
    }
}

/// What comes of a line of a script.
pub(crate) fn made(alloc: Global, net: &mut Net, line: &str) -> Result<String, AllocError> {
    match read_line(line.as_bytes()) {
        Ok(Some(Command::Edit(edit))) => applied(alloc, net, &edit),
        Ok(Some(Command::Check) | None) => String::from_str(alloc, "no edit"),
        Err(BadLine) => String::from_str(alloc, "bad line"),
    }
}
