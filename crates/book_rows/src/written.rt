//! A session from its opening to the files of its check.
ghost use Rattle.std.specs.Prelude.{◌≡◌, None, IfOk};
ghost use Rattle.desk_port.specs.MemDesk.{state_of};

use crate::pairs::expect;
use check_session::{Options, Session, Verdict};
use desk_port::{MemDesk, OpenGate};
use netlist::{Circuit, Unlike};
use std::alloc::{AllocError, Global};
use std::collections::BTreeMap;
use std::process::Abort;
use std::sync::Wait;
use std::thread::Threads;
use worked_circuits::{circuit, one_gate, swapped_ands};
use workload_gen::{Kind, make};

/// The numbers that the program goes by where it isn't told others.
const DEFAULTS: Options = Options {
    workers: 4,
    seed: 1,
    words: 4,
    sweep_budget: 100,
    out_budget: 100_000,
    by_name: false,
};

const SWAPPED_CNF: &[u8] =
    b"p cnf 6 12\n1 0\n-4 2 0\n-4 3 0\n4 -2 -3 0\n-5 3 0\n-5 2 0\n5 -3 -2 0\n-6 4 5 0\n\
    -6 -4 -5 0\n6 -4 5 0\n6 4 -5 0\n6 0\n";

/// A desk without a file, on which these calls fail.
fn desk_failing(alloc: Global, fails: &[u64]) -> Result<MemDesk, AllocError>
    ensures { IfOk result (λ desk. (state_of desk).started ≡ None) }
{
    MemDesk::new(alloc, BTreeMap::new(alloc), Vec::from_slice(alloc, fails)?)
}

/// Whether two ANDs whose fanins are swapped are found equivalent, and whether check 7 leaves the CNF and a
/// proof, each whole, or as much of the two as this.
fn writes(
    rt: &(impl Threads + Wait + Sync),
    alloc: Global,
    fails: &[u64],
    is_written: bool,
    proof_begins: bool,
) -> Result<bool, AllocError> {
    let (a, b) = swapped_ands(alloc)?;
    let Ok(mut session) = Session::open(alloc, a, b, DEFAULTS) else {
        return Ok(false);
    };
    let verdict = session.check(rt, alloc, &OpenGate)?;
    let mut desk = desk_failing(alloc, fails)?;
    let written = session.write(alloc, &mut desk, "p", 7);
    Ok(
        matches!(verdict, Verdict::Equivalent)
            && written.is_ok() == is_written
            && desk.file("p.7.cnf") == Some(SWAPPED_CNF)
            && desk.file("p.7.lrat").is_some() == proof_begins,
    )
}

/// A check's files stand under its number, and behind a file that fails none is touched.
#[test]
fn files_of_a_check(rt: HostRuntime) {
    let whole = writes(&rt, rt.alloc(), &[], true, true);
    expect(&rt, "both files", matches!(whole, Ok(true)));
    let first = writes(&rt, rt.alloc(), &[2], false, false);
    expect(&rt, "the first file alone", matches!(first, Ok(true)));
}

/// A tree of 3,069 gates.
fn parity(alloc: Global) -> Option<Circuit> {
    let (file, _) = make(alloc, Kind::Parity, 1024).ok()?;
    aiger_file::read(alloc, file.as_slice()).ok()
}

/// Whether both files are longer than a piece, the CNF has the clauses of 6,138 gates, of an XOR and two more,
/// and each write has a whole piece but the last one of each file.
fn are_in_pieces(desk: &MemDesk) -> bool {
    let (Some(cnf), Some(proof)) = (desk.file("p.0.cnf"), desk.file("p.0.lrat")) else {
        return false;
    };
    let sizes = desk.sizes();
    let whole = sizes.iter().filter(|size| **size == 65_536).count();
    cnf.starts_with(b"p cnf 7164 18420\n")
        && cnf.len() > 65_536
        && proof.len() > 65_536
        && whole == (cnf.len() / 65_536).saturating_add(proof.len() / 65_536)
        && sizes.len()
            == cnf
                .len()
                .div_ceil(65_536)
                .saturating_add(proof.len().div_ceil(65_536))
}

/// Whether the parity is found equivalent to itself, with its files in pieces.
fn writes_pieces(
    rt: &(impl Threads + Wait + Sync),
    alloc: Global,
    a: Circuit,
    b: Circuit,
) -> Result<bool, AllocError> {
    let Ok(mut session) = Session::open(alloc, a, b, DEFAULTS) else {
        return Ok(false);
    };
    let verdict = session.check(rt, alloc, &OpenGate)?;
    let mut desk = desk_failing(alloc, &[])?;
    let written = session.write(alloc, &mut desk, "p", 0);
    Ok(matches!(verdict, Verdict::Equivalent) && written.is_ok() && are_in_pieces(&desk))
}

#[test]
fn large_files_go_out_in_pieces(rt: HostRuntime) {
    let alloc = rt.alloc();
    let (Some(a), Some(b)) = (parity(alloc), parity(alloc)) else {
        return expect(&rt, "memory", false);
    };
    let pieces = writes_pieces(&rt, alloc, a, b);
    expect(&rt, "both files in pieces", matches!(pieces, Ok(true)));
}

/// Circuits of two and of three inputs have no session.
#[test]
fn input_counts_differ(rt: HostRuntime) {
    let alloc = rt.alloc();
    let (Ok(a), Ok(b)) = (one_gate(alloc, 2, 4), circuit(alloc, &[1, 2, 3], &[], &[6])) else {
        return expect(&rt, "memory", false);
    };
    let refused = Session::open(alloc, a, b, DEFAULTS);
    expect(
        &rt,
        "inputs 2 and 3 differ",
        matches!(refused, Err(Unlike::Inputs(2, 3))),
    );
}
