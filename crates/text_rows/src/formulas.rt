ghost use Rattle.std.specs.Prelude.{◌≡◌, None};
ghost use Rattle.desk_port.specs.MemDesk.{state_of};

use crate::checks::{check, check_bytes, is_told};
use crate::desks::desk_with;
use crate::tables::{Table, check_rows};
use desk_port::{Desk, MemDesk, PutErr};
use dimacs_text::{print, read};
use lits::{Clause, ClauseErr, Dim, Listed};
use std::alloc::{AllocError, Global};
use std::test::*;

/// A clause of one literal, and the empty one.
fn two_clauses(alloc: Global) -> Result<Vec<Clause<Dim>>, ClauseErr> {
    let mut clauses = Vec::new(alloc);
    clauses.push(Clause::of(alloc, &[Dim::new(1, false)])?)?;
    clauses.push(Clause::of(alloc, &[])?)?;
    Ok(clauses)
}

/// Prints the formula of these clauses, over one variable, to a file.
fn put_formula(alloc: Global, desk: &mut MemDesk, clauses: &[Clause<Dim>]) -> Result<(), PutErr>
    requires { (state_of desk.old).started ≡ None }
{
    desk.start("cnf")?;
    print(alloc, desk, 1, clauses)?;
    desk.close()
}

/// Whether the formula of these clauses is printed so.
fn is_printed(alloc: Global, desk: &mut MemDesk, text: &[u8]) -> bool
    requires { (state_of desk.old).started ≡ None }
{
    let Ok(clauses) = two_clauses(alloc) else {
        return false;
    };
    put_formula(alloc, desk, clauses.as_slice()).is_ok() && desk.file("cnf") == Some(text)
}

#[test]
fn dimacs_print(rt: HostRuntime) {
    let is_printed = match desk_with(rt.alloc(), &[], &[]) {
        Ok(mut desk) => is_printed(rt.alloc(), &mut desk, b"p cnf 1 2\n1 0\n0\n"),
        Err(AllocError) => false,
    };
    check(&rt, "its text", is_printed);
}

/// Whether the clause has these numbers, in this order.
fn is_clause(clause: &[Dim], numbers: &[i32]) -> bool {
    if clause.len() != numbers.len() {
        return false;
    }
    for i in 0..numbers.len() {
        if Some(clause[i]) != Dim::of(numbers[i]) {
            return false;
        }
    }
    true
}

fn are_clauses(clauses: &[Listed<Dim>], numbers: &[&[i32]]) -> bool {
    if clauses.len() != numbers.len() {
        return false;
    }
    for i in 0..numbers.len() {
        if !is_clause(clauses[i].as_slice(), numbers[i]) {
            return false;
        }
    }
    true
}

/// Whether the text is read as these clauses over so many variables.
fn is_read(alloc: Global, text: &[u8], variables: u32, clauses: &[&[i32]]) -> bool {
    match read(alloc, text) {
        Ok(cnf) => cnf.variables == variables && are_clauses(cnf.clauses.as_slice(), clauses),
        Err(_) => false,
    }
}

/// The worked formula, and its clauses.
const WORKED: &[u8] = b"p cnf 6 12\n1 0\n-4 2 0\n-4 3 0\n4 -2 -3 0\n-5 3 0\n-5 2 0\n5 -3 -2 0\n\
    -6 4 5 0\n-6 -4 -5 0\n6 -4 5 0\n6 4 -5 0\n6 0\n";

const WORKED_CLAUSES: &[&[i32]] = &[
    &[1],
    &[-4, 2],
    &[-4, 3],
    &[4, -2, -3],
    &[-5, 3],
    &[-5, 2],
    &[5, -3, -2],
    &[-6, 4, 5],
    &[-6, -4, -5],
    &[6, -4, 5],
    &[6, 4, -5],
    &[6],
];

/// A clause of 50 variables, each twice and with `-1` behind it.
const WIDE: &[u8] =
    b"p cnf 50 1\n1 1 -1\n2 2 -1\n3 3 -1\n4 4 -1\n5 5 -1\n6 6 -1\n7 7 -1\n8 8 -1\n9 9 -1\n\
    10 10 -1\n11 11 -1\n12 12 -1\n13 13 -1\n14 14 -1\n15 15 -1\n16 16 -1\n17 17 -1\n18 18 -1\n\
    19 19 -1\n20 20 -1\n21 21 -1\n22 22 -1\n23 23 -1\n24 24 -1\n25 25 -1\n26 26 -1\n27 27 -1\n\
    28 28 -1\n29 29 -1\n30 30 -1\n31 31 -1\n32 32 -1\n33 33 -1\n34 34 -1\n35 35 -1\n36 36 -1\n\
    37 37 -1\n38 38 -1\n39 39 -1\n40 40 -1\n41 41 -1\n42 42 -1\n43 43 -1\n44 44 -1\n45 45 -1\n\
    46 46 -1\n47 47 -1\n48 48 -1\n49 49 -1\n50 50 -1\n0\n";

const WIDE_CLAUSE: &[i32] = &[
    1, -1, 2, 3, 4, 5, 6, 7, 8, 9, 10, 11, 12, 13, 14, 15, 16, 17, 18, 19, 20, 21, 22, 23, 24, 25,
    26, 27, 28, 29, 30, 31, 32, 33, 34, 35, 36, 37, 38, 39, 40, 41, 42, 43, 44, 45, 46, 47, 48, 49,
    50,
];

/// A text, its variables and its clauses.
static FORMULAS: [(&[u8], u32, &[&[i32]]); 8] = [
    (WORKED, 6, WORKED_CLAUSES),
    (b"p cnf 0 0", 0, &[]),
    (b"p cnf 0 1\n0\n", 0, &[&[]]),
    (b"p cnf 007 01\n-007 00\n", 7, &[&[-7]]),
    (
        b"p cnf 2147483647 1 -2147483647 0",
        2_147_483_647,
        &[&[-2_147_483_647]],
    ),
    // Comments stand between any two lines, and a clause may span lines.
    (
        b"c p cnf 9 9\n p\r\nc between\n\tcnf\t3\nc\n 2\n1\nc 7 0\n-2\r\n0\n\n 3\t0\r\nc",
        3,
        &[&[1, -2], &[3]],
    ),
    // A repeated literal counts once, and one may stand beside its negation.
    (
        b"p cnf 2 2\n1 -2 1 -2 2 0 2 2 2 0\n",
        2,
        &[&[1, -2, 2], &[2]],
    ),
    (WIDE, 50, &[WIDE_CLAUSE]),
];

/// A text, and its first fault.
const FAULTS: &str = concat!(
    // worked
    "p cnf 1 1\n2 0\n => variable of 2 is too large;",
    "p cnf 1 2\n1 0\n => 2 clauses announced, 1 found;",
    "p cnf 1 1\n1 => ends too early at byte 11;",
    // headers
    " => bad header;",
    "c only a comment\n => bad header;",
    "p => bad header;",
    "p cnf\n => bad header;",
    "p cnf 1\n => bad header;",
    "p cnf 1\nc 1\n => bad header;",
    "p cnf 2147483648 0\n => bad header;",
    "p cnf 0 2147483648\n => bad header;",
    "p cnf 100000000000000000000 0\n => bad header;",
    "p cnf -1 0\n => bad header;",
    "p cnf +1 0\n => bad header;",
    "p cnf 1 -0\n => bad header;",
    "p cnf 1 x\n => bad header;",
    "p dnf 1 0\n => bad header;",
    "pcnf 1 0\n => bad header;",
    "1 0\np cnf 1 1\n => bad header;",
    // This `cnf` begins a comment.
    "p\ncnf 1 0\n => bad header;",
    // numbers
    "p cnf 1 1\n-0 0\n => bad number at byte 10;",
    "p cnf 1 1\n1 -00\n => bad number at byte 12;",
    "p cnf 1 1\n1 +1 0\n => bad number at byte 12;",
    "p cnf 1 1\n1\n- 1 0\n => bad number at byte 12;",
    "p cnf 1 1\n--1 0\n => bad number at byte 10;",
    "p cnf 1 1\n1-1 0\n => bad number at byte 10;",
    "p cnf 1 1\n1 0x\n => bad number at byte 12;",
    "p cnf 1 1\n1 0\n%\n0\n => bad number at byte 14;",
    "p cnf 1 1 1\x0b0\n => bad number at byte 10;",
    "c\np cnf 1 1\r\n\t 1 0 x => bad number at byte 19;",
    // Only at the front of a line does `c` begin a comment.
    "p cnf 1 1\n1 c 0\n => bad number at byte 12;",
    "p cnf 1 1\n1\n c\n0\n => bad number at byte 13;",
    // what is found later
    "p cnf 0 1\n1 0\n => variable of 1 is too large;",
    "p cnf 3 1\n3 -4 0\n => variable of 4 is too large;",
    "p cnf 2147483647 1\n2147483648 0\n => variable of 2147483648 is too large;",
    "p cnf 3 1\n-99999999999999999999 0\n => variable of 1000000000000000000 is too large;",
    "p cnf 1 1\n1 0 1\n => ends too early at byte 16;",
    "p cnf 1 1\n1\nc 0\n => ends too early at byte 16;",
    "p cnf 1 0\n1 0\n => 0 clauses announced, 1 found;",
    "p cnf 1 1  => 1 clauses announced, 0 found;",
    "p cnf 1 3\n1 0 0\n => 3 clauses announced, 2 found;",
    // The first word that is wrong counts, then the end, and then the number of clauses.
    "p cnf 1 9\n2 x\n => variable of 2 is too large;",
    "p cnf 1 9\nx 2\n => bad number at byte 10;",
    "p cnf 1 9\n1 0 1 x => bad number at byte 16;",
    "p cnf 1 9\n1 0 1 => ends too early at byte 15;",
    "p cnf 1 0\n1 0 2 0\n => variable of 2 is too large",
);

/// The fault of such a text.
struct Faults;

impl Table for Faults {
    fn is_met(alloc: Global, file: &str, words: &str) -> bool {
        is_told(alloc, read(alloc, file.as_bytes()).err(), words)
    }
}

#[test]
fn dimacs_read(rt: HostRuntime) {
    for (text, variables, clauses) in &FORMULAS {
        let is_read = is_read(rt.alloc(), text, *variables, clauses);
        check_bytes(&rt, text, is_read);
    }
    check_rows::<Faults>(&rt, rt.alloc(), FAULTS);
}
