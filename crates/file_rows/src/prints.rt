//! What is written of a book, and what becomes of it when it is read and loaded.
ghost use Rattle.std.specs.Prelude.{◌≡◌, None, IfOk};
ghost use Rattle.desk_port.specs.MemDesk.{state_of};
ghost use Rattle.lemma_book.specs.Book.{IsLegal};

use crate::tables::expect;
use book_file::{load, print, read};
use desk_port::{Desk, MemDesk};
use equal_outputs::equal_output;
use lemma_book::Book;
use netlist::Net;
use std::alloc::{AllocError, Global};
use std::collections::BTreeMap;
use std::test::*;
use strash_pass::run;
use worked_circuits::{swapped_ands, two_xors};

/// How the file of two ANDs with swapped fanins begins: the structural pass merges them, and then their outputs
/// are equal.
static BEGINS: &[u8] =
    b"lemmas 1\nm b3 a3\ns -b3 a3 ; b3/0 a3/2 b3/1\ns b3 -a3 ; a3/0 a3/1 b3/2\n.\no 0\n";

/// What the structural pass merges, and the first output, if it is equal by that.
fn merged(alloc: Global, net: &Net) -> Result<Book, AllocError>
    ensures { IfOk result (IsLegal net.now) }
{
    let mut book = Book::new(alloc, 100, 100);
    let _merges = run(alloc, net, &mut book)?;
    if net.outputs() == 0 || book.about(0).is_some() {
        return Ok(book);
    }
    if let Some(entry) = equal_output(alloc, net, &book, 0)? {
        let _offered = book.offer(alloc, net, entry);
    }
    Ok(book)
}

fn empty_desk(alloc: Global) -> Result<MemDesk, AllocError>
    ensures { IfOk result (λ desk. (state_of desk).started ≡ None) }
{
    MemDesk::new(alloc, BTreeMap::new(alloc), Vec::new(alloc))
}

/// The file that is written of a book of the net.
pub(crate) fn written(alloc: Global, net: &Net, book: &Book) -> Option<Vec<u8>>
    requires { IsLegal net.now book.now }
{
    netlist::laws::is_net(net);
    let mut desk = empty_desk(alloc).ok()?;
    desk.start("l").ok()?;
    print(alloc, &mut desk, book).ok()?;
    desk.close().ok()?;
    Vec::from_slice(alloc, desk.file("l")?).ok()
}

/// How many entries the file has, and how many of them a net takes.
fn taken(alloc: Global, net: &Net, file: &[u8]) -> Option<(u64, u64)> {
    let entries = read(alloc, file).ok()?;
    let all = entries.len() as u64;
    let (_book, taken) = load(alloc, net, entries, 100, 100).ok()?;
    Some((all, taken))
}

/// Whether the net's file begins so, and the net takes all of its entries, which are so many.
fn is_written(alloc: Global, net: &Net, begins: &[u8], all: u64) -> Option<bool> {
    let book = merged(alloc, net).ok()?;
    let file = written(alloc, net, &book)?;
    let is_taken = taken(alloc, net, file.as_slice())? == (all, all);
    Some(file.starts_with(begins) && is_taken)
}

#[test]
fn swapped(rt: HostRuntime) {
    let alloc = rt.alloc();
    let (a, b) = swapped_ands(alloc).expect(&rt, "memory");
    let net = Net::of(alloc, a, b).expect(&rt, "a net");
    let is_so = is_written(alloc, &net, BEGINS, 2) == Some(true);
    expect(&rt, "the file of swapped ANDs", is_so);
}

#[test]
fn nothing_merged(rt: HostRuntime) {
    let alloc = rt.alloc();
    let (a, b) = two_xors(alloc).expect(&rt, "memory");
    let net = Net::of(alloc, a, b).expect(&rt, "a net");
    let is_so = is_written(alloc, &net, b"lemmas 1\n", 0) == Some(true);
    expect(&rt, "the file of two XORs", is_so);
}
