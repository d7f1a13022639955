//! Which bytes are a lemma file, and the first fault of others.
use crate::files::{MERGE, file_of};
use crate::tables::{Table, check_rows, expect};
use book_file::{BookErr, read};
use std::alloc::{AllocError, Global};
use std::process::Abort;
use std::test::*;

/// How many entries the bytes spell, or their fault, as a text.
fn told(alloc: Global, bytes: &[u8]) -> Result<String, AllocError> {
    match read(alloc, bytes) {
        Ok(entries) => format!(in alloc; "{}", entries.len()),
        Err(fault) => fault.to_string(alloc),
    }
}

fn is_told(alloc: Global, bytes: &[u8], words: &str) -> bool {
    match told(alloc, bytes) {
        Ok(text) => text.as_str() == words,
        Err(AllocError) => false,
    }
}

/// How many entries a file has, or its fault.
struct Reads;

impl Table for Reads {
    fn is_met(&self, alloc: Global, file: &str, words: &str) -> bool {
        match file_of(alloc, file) {
            Ok(bytes) => is_told(alloc, bytes.as_slice(), words),
            Err(AllocError) => false,
        }
    }
}

static FORMS: &str = "lemmas 1, => 0|\
    lemmas 1,m b3 a3,s -b3 a3 ; b3/0 b3/1 a3/2,s b3 -a3 ; a3/0 a3/1 b3/2,., => 1|\
    lemmas 1,o 0,s -x0 ; x0/0 #0/1 @0 !a0 !b4294967295,.,o 1,s ;,., => 2|\
    lemmas 1,m a4294967295 -c,s i0 -i4294967295 ; c/255,s ; #999999999999999999/0 @999999999999999999,., => 1|\
    lemmas 1,m a3 x0,s a3 ;,.,m a3 x0,s a3 ;,., => 2";

static FIRST_LINES: &str = " => line 1: ends too early|\
    , => line 1: bad line|\
    lemmas 1 => line 1: ends too early|\
    lemmas 2, => line 1: bad line|\
    lemmas 2,m b3 a3,s -b3 a3 ; b3/0 b3/1 a3/2,s b3 -a3 ; a3/0 a3/1 b3/2,., => line 1: bad line|\
    lemmas, => line 1: bad line|\
    lemmas 1 1, => line 1: bad line|\
    lemmas 01, => line 1: bad line|\
    lemmas  1, => line 1: bad line| lemmas 1, => line 1: bad line|\
    lemmas 1 , => line 1: bad line|\
    m b3 a3,s b3 ;,., => line 1: bad line|\
    Lemmas 1, => line 1: bad line|\
    lemmas 1,lemmas 1, => line 2: bad line|\
    lemmas 1,, => line 2: bad line";

static ORDERS: &str = "lemmas 1,., => line 2: bad line|\
    lemmas 1,s b3 ;, => line 2: bad line|\
    lemmas 1,m b3 a3,., => line 3: bad line|\
    lemmas 1,o 0,., => line 3: bad line|\
    lemmas 1,o 0,o 1,s ;,., => line 3: bad line|\
    lemmas 1,m b3 a3,s b3 ;,m b4 a4,s b4 ;,., => line 4: bad line|\
    lemmas 1,m b3 a3,s b3 ;,.,., => line 5: bad line|\
    lemmas 1,m b3 a3,s b3 ;,.,s b3 ;, => line 5: bad line|\
    lemmas 1,m b3 a3,s b3 ;,lemmas 1,., => line 4: bad line|\
    lemmas 1,m b3 a3,s b3 ;,,., => line 4: bad line|\
    lemmas 1,m b3 a3,s b3 ;, => line 4: ends too early|\
    lemmas 1,m b3 a3, => line 3: ends too early|\
    lemmas 1,m b3 a3,s -b3 a3 ; b3/0 b3/1 a3/2,s b3 -a3 ; a3/0 a3/1 b3/2, => line 5: ends too early|\
    lemmas 1,m b3 a3,s b3 ;,. => line 4: ends too early|\
    lemmas 1,? => line 2: ends too early|\
    lemmas 1,?,? => line 2: bad line";

static LINES: &str = "lemmas 1,m b3, => line 2: bad line|\
    lemmas 1,m b3 a3 a4, => line 2: bad line|\
    lemmas 1,m -b3 a3, => line 2: bad line|\
    lemmas 1,m b3 --a3, => line 2: bad line|\
    lemmas 1,m b a3, => line 2: bad line|\
    lemmas 1,m d3 a3, => line 2: bad line|\
    lemmas 1,m b03 a3, => line 2: bad line|\
    lemmas 1,m b4294967296 a3, => line 2: bad line|\
    lemmas 1,m b99999999999999999999999999 a3, => line 2: bad line|\
    lemmas 1,m b+3 a3, => line 2: bad line|\
    lemmas 1,m c0 a3, => line 2: bad line|\
    lemmas 1,m b3  a3, => line 2: bad line|\
    lemmas 1, m b3 a3, => line 2: bad line|\
    lemmas 1,m b3 a3 , => line 2: bad line|\
    lemmas 1,m b3\ta3, => line 2: bad line|\
    lemmas 1,m b3 a3\r, => line 2: bad line|\
    lemmas 1,o, => line 2: bad line|\
    lemmas 1,o x0, => line 2: bad line|\
    lemmas 1,o -0, => line 2: bad line|\
    lemmas 1,o 00, => line 2: bad line|\
    lemmas 1,o 4294967296, => line 2: bad line|\
    lemmas 1,o 0 1, => line 2: bad line|\
    lemmas 1,p 0, => line 2: bad line|\
    lemmas 1,o 0,s ;,. , => line 4: bad line|\
    lemmas 1,o 0,s ;,.., => line 4: bad line";

static STEPS: &str = "lemmas 1,o 0,s, => line 3: bad line|\
    lemmas 1,o 0,s -x0, => line 3: bad line|\
    lemmas 1,o 0,s  ;, => line 3: bad line|\
    lemmas 1,o 0,s ; , => line 3: bad line|\
    lemmas 1,o 0,s -x0; a3/0, => line 3: bad line|\
    lemmas 1,o 0,s -x0 ;; a3/0, => line 3: bad line|\
    lemmas 1,o 0,s -x0 ; a3/0 ;, => line 3: bad line|\
    lemmas 1,o 0,s -x0 a3/0 ; a3/0, => line 3: bad line|\
    lemmas 1,o 0,s -x0 ; -x0, => line 3: bad line|\
    lemmas 1,o 0,s a3 a3 ;, => line 3: bad line|\
    lemmas 1,o 0,s a3 i0 -a3 ;, => line 3: bad line|\
    lemmas 1,o 0,s a3 b3 i0 i1 a3 ;, => line 3: bad line|\
    lemmas 1,o 0,s ; a3, => line 3: bad line|\
    lemmas 1,o 0,s ; a3/, => line 3: bad line|\
    lemmas 1,o 0,s ; /0, => line 3: bad line|\
    lemmas 1,o 0,s ; a3/0/0, => line 3: bad line|\
    lemmas 1,o 0,s ; a3/256, => line 3: bad line|\
    lemmas 1,o 0,s ; a3/00, => line 3: bad line|\
    lemmas 1,o 0,s ; -a3/0, => line 3: bad line|\
    lemmas 1,o 0,s ; #0, => line 3: bad line|\
    lemmas 1,o 0,s ; #0/2, => line 3: bad line|\
    lemmas 1,o 0,s ; #00/0, => line 3: bad line|\
    lemmas 1,o 0,s ; #/0, => line 3: bad line|\
    lemmas 1,o 0,s ; #1000000000000000000/0, => line 3: bad line|\
    lemmas 1,o 0,s ; @, => line 3: bad line|\
    lemmas 1,o 0,s ; @01, => line 3: bad line|\
    lemmas 1,o 0,s ; @1000000000000000000, => line 3: bad line|\
    lemmas 1,o 0,s ; !c0, => line 3: bad line|\
    lemmas 1,o 0,s ; !a, => line 3: bad line|\
    lemmas 1,o 0,s ; !a01, => line 3: bad line|\
    lemmas 1,o 0,s ; !a4294967296, => line 3: bad line|\
    lemmas 1,o 0,s ; !, => line 3: bad line";

#[test]
fn of_forms(rt: HostRuntime) {
    check_rows(&rt, rt.alloc(), &Reads, FORMS);
    check_rows(&rt, rt.alloc(), &Reads, FIRST_LINES);
    check_rows(&rt, rt.alloc(), &Reads, ORDERS);
}

#[test]
fn of_lines(rt: HostRuntime) {
    check_rows(&rt, rt.alloc(), &Reads, LINES);
    check_rows(&rt, rt.alloc(), &Reads, STEPS);
}

/// What comes of the first `len` bytes of a file: it ends too early, by the number of the line that is due,
/// unless it ends behind its first line or is whole.
fn told_of_cut(alloc: Global, file: &[u8], len: usize) -> Result<String, AllocError> {
    if len == 9 {
        return format!(in alloc; "0");
    }
    if len == file.len() {
        return format!(in alloc; "1");
    }
    let mut line = 1_usize;
    for byte in file.iter().take(len) {
        if *byte == b'\n' {
            line = line.saturating_add(1);
        }
    }
    format!(in alloc; "line {line}: ends too early")
}

#[test]
fn cut_at_each_byte(rt: HostRuntime) {
    let alloc = rt.alloc();
    let file = file_of(alloc, MERGE).expect(&rt, "memory");
    for len in 0..=file.len() {
        let words = told_of_cut(alloc, file.as_slice(), len).expect(&rt, "memory");
        let is_so = is_told(alloc, &file.as_slice()[..len], words.as_str());
        expect(&rt, words.as_str(), is_so);
    }
}

#[test]
fn a_long_line(rt: HostRuntime) {
    let alloc = rt.alloc();
    let mut file = file_of(alloc, "lemmas 1,o 0,s ;").expect(&rt, "memory");
    for _ in 0..20_000 {
        file.extend_from_slice(b" @0").expect(&rt, "memory");
    }
    file.extend_from_slice(b"\n.\n").expect(&rt, "memory");
    expect(&rt, "a long line", is_told(alloc, file.as_slice(), "1"));
}

#[test]
fn texts_of_faults(rt: HostRuntime) {
    let alloc = rt.alloc();
    let text = BookErr::BadLine(3).to_string(alloc).expect(&rt, "memory");
    expect(&rt, "a bad line", text.as_str() == "line 3: bad line");
    let text = BookErr::Truncated(5).to_string(alloc).expect(&rt, "memory");
    expect(
        &rt,
        "an early end",
        text.as_str() == "line 5: ends too early",
    );
    let text = BookErr::NoMemory.to_string(alloc).expect(&rt, "memory");
    expect(&rt, "memory", text.as_str() == "out of memory");
}
