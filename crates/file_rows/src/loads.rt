//! What a net takes of lemmas, whoever wrote them.
use crate::files::file_of;
use crate::tables::{Table, check_rows};
use book_file::{load, read};
use netlist::Net;
use std::alloc::{AllocError, Global};
use std::process::Abort;
use std::test::*;
use worked_circuits::{swapped_ands, two_xors};

/// How many entries of a file are taken, of how many, as a text; `refused` where it is no file.
fn told(alloc: Global, net: &Net, file: &str) -> Result<String, AllocError> {
    let bytes = file_of(alloc, file)?;
    match read(alloc, bytes.as_slice()) {
        Ok(entries) => {
            let all = entries.len();
            let (_book, taken) = load(alloc, net, entries, 100, 100)?;
            format!(in alloc; "{taken} of {all}")
        }
        Err(_) => format!(in alloc; "refused"),
    }
}

/// How many entries of a file a net takes.
#[derive(Drop)]
struct Loads {
    net: Net,
}

impl Table for Loads {
    fn is_met(&self, alloc: Global, file: &str, words: &str) -> bool {
        match told(alloc, &self.net, file) {
            Ok(text) => text.as_str() == words,
            Err(AllocError) => false,
        }
    }
}

/// Over two ANDs with swapped fanins: the merge and the equal output, and what is wrong with each.
static SWAPPED: &str = "lemmas 1, => 0 of 0|\
    lemmas 1,m b3 a3,s -b3 a3 ; b3/0 b3/1 a3/2,s b3 -a3 ; a3/0 a3/1 b3/2,., => 1 of 1|\
    lemmas 1,m b3 a3,s -b3 a3 ; b3/0 a3/2,s b3 -a3 ; a3/0 a3/1 b3/2,., => 0 of 1|\
    lemmas 1,m b3 a3,s -b3 a3 ; b3/0 b3/1 a3/1,s b3 -a3 ; a3/0 a3/1 b3/2,., => 0 of 1|\
    lemmas 1,m b3 a3,s -b3 a3 ; b3/0 b3/1 a3/3,s b3 -a3 ; a3/0 a3/1 b3/2,., => 0 of 1|\
    lemmas 1,m b3 a3,s b3 -a3 ; a3/0 a3/1 b3/2,s -b3 a3 ; b3/0 b3/1 a3/2,., => 0 of 1|\
    lemmas 1,m b3 -a3,s -b3 a3 ; b3/0 b3/1 a3/2,s b3 -a3 ; a3/0 a3/1 b3/2,., => 0 of 1|\
    lemmas 1,m a3 b3,s -a3 b3 ; a3/0 a3/1 b3/2,s a3 -b3 ; b3/0 b3/1 a3/2,., => 0 of 1|\
    lemmas 1,m b3 b3,s -b3 b4 ;,s b3 ;,., => 0 of 1|\
    lemmas 1,m b4 a3,s -b4 a3 ; b4/0 b4/1 a3/2,s b4 -a3 ; a3/0 a3/1 b4/2,., => 0 of 1|\
    lemmas 1,m b3 a3,s i2 ;,s -b3 a3 ; b3/0 b3/1 a3/2,s b3 -a3 ; a3/0 a3/1 b3/2,., => 0 of 1|\
    lemmas 1,m b3 i0,s -b3 i0 ; b3/1,s b3 -i0 ; b3/2,., => 0 of 1|\
    lemmas 1,m b3 a3,s -b3 a3 ; b3/0 b3/1 a3/2,s b3 -a3 ; a3/0 a3/1 b3/2,.,\
    m b3 a3,s -b3 a3 ; b3/0 b3/1 a3/2,s b3 -a3 ; a3/0 a3/1 b3/2,., => 1 of 2|\
    lemmas 1,m b3 a3,s -b3 a3 ; b3/0 b3/1 a3/2,s b3 -a3 ; a3/0 a3/1 b3/2,.,\
    o 0,s -x0 a3 ; x0/0 #0/0,s -x0 ; @0 #0/1 x0/1,., => 2 of 2|\
    lemmas 1,m b3 a3,s -b3 a3 ; b3/0 b3/1 a3/2,s b3 -a3 ; a3/0 a3/1 b3/2,.,\
    o 0,s -x0 a3 ; x0/0 #0/1,s -x0 ; @0 #0/1 x0/1,., => 1 of 2|\
    lemmas 1,m b3 a3,s -b3 a3 ; b3/0 b3/1 a3/2,s b3 -a3 ; a3/0 a3/1 b3/2,.,\
    o 1,s -x1 a3 ; x1/0 #0/0,s -x1 ; @0 #0/1 x1/1,., => 1 of 2";

/// Entries that cite others: those that were passed over, later ones, themselves, or others behind one that was
/// passed over.
static CITED: &str = "lemmas 1,m b3 a3,s -b3 a3 ; b3/0 a3/2,s b3 -a3 ; a3/0 a3/1 b3/2,.,\
    o 0,s -x0 a3 ; x0/0 #0/0,s -x0 ; @0 #0/1 x0/1,., => 0 of 2|\
    lemmas 1,o 0,s -x0 a3 ; x0/0 #1/0,s -x0 ; @0 #1/1 x0/1,.,\
    m b3 a3,s -b3 a3 ; b3/0 b3/1 a3/2,s b3 -a3 ; a3/0 a3/1 b3/2,., => 1 of 2|\
    lemmas 1,m b3 a3,s -b3 a3 ; #0/0,s b3 -a3 ; #0/1,., => 0 of 1|\
    lemmas 1,m b3 a3,s -b3 a3 ; #7/0,s b3 -a3 ; #7/1,., => 0 of 1|\
    lemmas 1,m b3 i0,s -b3 i0 ; b3/1,s b3 -i0 ; b3/2,.,\
    m b3 a3,s -b3 a3 ; b3/0 b3/1 a3/2,s b3 -a3 ; a3/0 a3/1 b3/2,.,\
    o 0,s -x0 a3 ; x0/0 #1/0,s -x0 ; @0 #1/1 x0/1,., => 2 of 3|\
    lemmas 1,m b3 i0,s -b3 i0 ; b3/1,s b3 -i0 ; b3/2,.,\
    m b3 a3,s -b3 a3 ; b3/0 b3/1 a3/2,s b3 -a3 ; a3/0 a3/1 b3/2,.,\
    o 0,s -x0 a3 ; x0/0 #0/0,s -x0 ; @0 #0/1 x0/1,., => 1 of 3|\
    lemmas 1,m b3 a3,s -b3 a3 ; b3/0 b3/1 a3/2,s b3 -a3 ; a3/0 a3/1 b3/2,.,\
    o 0,s -x0 a3 ; x0/0 #0/0,s -x0 ; @0 #0/1 x0/1,.,\
    o 0,s -x0 ; #1/0,., => 2 of 3";

/// Over two XORs the merge of two ANDs with swapped fanins is none.
static OTHER_NET: &str =
    "lemmas 1,m b3 a3,s -b3 a3 ; b3/0 b3/1 a3/2,s b3 -a3 ; a3/0 a3/1 b3/2,., => 0 of 1|\
    lemmas 1,m b3 a3,s -b3 a3 ; x0/0,s b3 -a3 ; x0/1,., => 0 of 1";

#[test]
fn over_swapped_ands(rt: HostRuntime) {
    let alloc = rt.alloc();
    let (a, b) = swapped_ands(alloc).expect(&rt, "memory");
    let net = Net::of(alloc, a, b).expect(&rt, "a net");
    let loads = Loads { net };
    check_rows(&rt, alloc, &loads, SWAPPED);
    check_rows(&rt, alloc, &loads, CITED);
}

#[test]
fn over_two_xors(rt: HostRuntime) {
    let alloc = rt.alloc();
    let (a, b) = two_xors(alloc).expect(&rt, "memory");
    let net = Net::of(alloc, a, b).expect(&rt, "a net");
    let loads = Loads { net };
    check_rows(&rt, alloc, &loads, OTHER_NET);
}
