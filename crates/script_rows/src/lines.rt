use crate::told::{expect, line_words, parts};
use netlist_edits::{BadLine, read_line};
use std::test::*;

/// Well-formed lines, the limits of their numbers, and lines with one thing wrong. Each byte between a
/// semicolon and an arrow counts.
const LINES: &str = concat!(
    "set a 6 2 4 => set a 6 2 4;set b 6 3 5 => set b 6 3 5;set a 006 02 0 => set a 6 2 0;",
    "new b 8 6 2 end => new b 8 6 2 last;new a 8 1 0 before 06 => new a 8 1 0 before 6;",
    "drop b 6 => drop b 6;out b 0 8 => out b 0 8;out a 1 7 => out a 1 7;check => check; => nothing;",
    "set a 33554432 33554433 33554433 => set a 33554432 33554433 33554433;",
    "drop a 33554432 => drop a 33554432;out a 33554433 33554433 => out a 33554433 33554433;",
    "set a 33554434 2 4 => bad;set a 6 33554434 4 => bad;set a 6 2 33554434 => bad;",
    "drop a 33554433 => bad;out a 33554434 2 => bad;out a 0 33554434 => bad;",
    "drop a 18446744073709551622 => bad;new a 8 2 4 before 33554434 => bad;",
    "set a 7 2 4 => bad;new a 7 2 4 end => bad;new a 8 2 4 before 7 => bad;drop a 7 => bad;",
    "set c 6 4 4 => bad;set A 6 4 4 => bad;set ab 6 4 4 => bad;drop  6 => bad;SET a 6 4 4 => bad;",
    "set  a 6 2 4 => bad; set a 6 2 4 => bad;set a 6 2 4  => bad;set a 6 2  4 => bad;check  => bad;",
    " check => bad;  => bad;set\ta 6 2 4 => bad;set a 6 2\t4 => bad;check\t => bad;check\r => bad;",
    "set a +6 2 4 => bad;set a -6 2 4 => bad;set a 6. 2 4 => bad;set a 0x6 2 4 => bad;set a six 2 4 => bad;",
    "set a 6 2 => bad;set a 6 2 4 5 => bad;set => bad;new a 8 2 4 => bad;new a 8 2 4 before => bad;",
    "new a 8 2 4 end 6 => bad;new a 8 2 4 before 6 6 => bad;new a 8 2 4 END => bad;new a 8 2 4 after 6 => bad;",
    "new a 8 2 4 before end => bad;new a 8 2 4 6 => bad;drop a => bad;drop a 6 6 => bad;drop => bad;",
    "out a 0 => bad;out a 0 2 4 => bad;out a => bad;check a => bad;checks => bad;dro a 6 => bad;c => bad;",
    "set a 6 2 4\nset a 6 2 4 => bad;check\n => bad;drop a 6\n => bad",
);

#[test]
fn lines(rt: HostRuntime) {
    for row in LINES.split(';') {
        let (line, words) = parts(row);
        let told = line_words(rt.alloc(), line).expect(&rt, "memory");
        expect(&rt, row, told.as_str() == words);
    }
}

/// Lines whose first parts are no lines.
const CUT: &str = "set a 6 2 4;new b 8 6 2 end;new b 8 6 2 before 10;drop b 6;out b 0 8;check";

#[test]
fn cut_lines(rt: HostRuntime) {
    for line in CUT.split(';') {
        let bytes = line.as_bytes();
        expect(&rt, line, read_line(bytes).is_ok());
        for end in 1..bytes.len() {
            expect(&rt, line, read_line(&bytes[..end]) == Err(BadLine));
        }
    }
}
