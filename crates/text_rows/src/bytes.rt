use crate::checks::{check, check_bytes, is_told};
use crate::tables::{Table, check_rows};
use Call::{Byte, Line, Number};
use byte_scan::*;
use std::alloc::Global;
use std::test::*;

/// A call of a scan, and what it should answer.
enum Call {
    Number(Option<u64>),
    Byte(Option<u8>),
    Line(Option<&'static [u8]>),
}

/// What stands next, the call that reads it, and the place behind it.
type Row = (&'static str, Call, u64);

fn is_answer(scan: &mut Scan<'_>, call: &Call) -> bool {
    match call {
        Number(want) => scan.number() == *want,
        Byte(want) => scan.byte() == *want,
        Line(want) => scan.line() == *want,
    }
}

static CALLS: [Row; 10] = [
    ("007", Number(Some(7)), 3),
    ("no number", Number(None), 3),
    ("a space", Byte(Some(b' ')), 4),
    ("x", Line(Some(b"x")), 6),
    ("an empty line", Line(Some(b"")), 7),
    (
        "a large number",
        Number(Some(1_000_000_000_000_000_000)),
        27,
    ),
    ("its line feed", Byte(Some(b'\n')), 28),
    ("last", Line(Some(b"last")), 32),
    ("no line", Line(None), 32),
    ("no byte", Byte(None), 32),
];

#[test]
fn bytes_numbers_and_lines(rt: HostRuntime) {
    let mut scan = Scan::new(b"007 x\n\n99999999999999999999\nlast");
    check(&rt, "the start", scan.at() == 0);
    for (name, call, at) in &CALLS {
        let is_answer = is_answer(&mut scan, call);
        check(&rt, name, is_answer && scan.at() == *at);
    }
}

/// The numbers of a header of the text form.
fn numbers(bytes: &[u8]) -> Result<[u32; 5], AigerErr> {
    let header = header(&mut Scan::new(bytes), b'a')?;
    Ok([header.m, header.i, header.l, header.o, header.a])
}

static HEADERS: [(&[u8], [u32; 5]); 4] = [
    (b"aag 3 2 0 1 1\n2\n", [3, 2, 0, 1, 1]),
    (b"aag 3 2 0 1 1", [3, 2, 0, 1, 1]),
    (b"aag 3 02 0 1 000001 0 0 0 0\n", [3, 2, 0, 1, 1]),
    (b"aag 16777216 0 0 0 0\n", [16777216, 0, 0, 0, 0]),
];

/// A header, and its fault.
const BAD_HEADERS: &str = concat!(
    " => bad header;",
    "aag 3 2 0 1  => bad header;",
    "aag 3 2 0 1\n => bad header;",
    "aag 3 2 0 1 1 0 0 0 0 0\n => bad header;",
    "aag 3  2 0 1 1\n => bad header;",
    "aag 3 2 0 1 1 \n => bad header;",
    "aag 3 2 0 1 1\r\n => bad header;",
    "aig 3 2 0 1 1\n => bad header;",
    "aag 2 2 0 1 1\n => bad header;",
    "aag 16777217 0 0 0 0\n => 16777217 is above 16777216;",
    "aag 1000000000000000000000 0 0 0 0\n => 1000000000000000000 is above 16777216;",
    "aag 1 0 1 0 16777217\n => 16777217 is above 16777216;",
    "aag 1 0 1 0 0 0 1\n => 1 latches;",
    "aag 1 1 0 0 0 0 1 1\n => section J is not supported;",
    "aag 1 1 0 0 9 0 0 0 1\n => section F is not supported",
);

/// Whether the header is read as these numbers.
fn has_numbers(bytes: &[u8], want: &[u32; 5]) -> bool {
    match numbers(bytes) {
        Ok(numbers) => numbers == *want,
        Err(_) => false,
    }
}

/// The fault of such a header.
struct BadHeaders;

impl Table for BadHeaders {
    fn is_met(alloc: Global, file: &str, words: &str) -> bool {
        is_told(alloc, numbers(file.as_bytes()).err(), words)
    }
}

#[test]
fn headers(rt: HostRuntime) {
    for (bytes, want) in &HEADERS {
        check_bytes(&rt, bytes, has_numbers(bytes, want));
    }
    check_rows::<BadHeaders>(&rt, rt.alloc(), BAD_HEADERS);
}

/// Whether a header of the binary form is read up to this place.
fn ends_at(bytes: &[u8], at: u64) -> bool {
    let mut scan = Scan::new(bytes);
    header(&mut scan, b'i').is_ok() && scan.at() == at
}

#[test]
fn headers_of_the_binary_form(rt: HostRuntime) {
    check(&rt, "M is I and A", ends_at(b"aig 3 2 0 1 1\n6\n", 14));
    let header = header(&mut Scan::new(b"aig 4 2 0 1 1\n6\n"), b'i');
    check(&rt, "M is above", header.err() == Some(AigerErr::BadHeader));
}
