//! Two threads at one board: each offers, draws and looks, one pass takes in the other, and closes.
ghost use Rattle.std.specs.Prelude.{◌≡◌, IfOk};
ghost use Rattle.std.specs.Thread.{IsSync};
ghost use Rattle.lemma_book.specs.Book.{IsLegal};
ghost use Rattle.board_lock.specs.Pass.{share_of};
ghost use Rattle.board_rows.specs.Work.{MayWork};

use crate::calls::{draw, look_once, offer_once};
use crate::circuits::{Kind, swapped_ands};
use board_lock::{Board, Pass, Record};
use lemma_book::Book;
use netlist::Net;
use std::alloc::{AllocError, Global};
use std::sync::Wait;
use std::test::*;
use std::thread::{Threads, join};

/// What one thread does: the merge once, and three rounds.
fn work<R: Wait>(rt: &R, alloc: Global, net: &Net, board: &Board, mut pass: Pass) -> Pass
    requires { MayWork net.now board.now pass }
    ensures table { result.table ≡ pass.table }
    ensures share { share_of result ≡ share_of pass }
{
    let _merge = offer_once(rt, alloc, net, board, &mut pass, Kind::Merge);
    for _ in 0..3 {
        let _apart = offer_once(rt, alloc, net, board, &mut pass, Kind::Apart);
        let _task = draw(net, board, &mut pass);
        let _known = look_once(rt, alloc, net, board, &mut pass);
    }
    pass
}

/// Two threads work at a board that is opened with the book; what they leave is a legal book.
fn both<R: Threads + Wait + Sync>(
    rt: &R,
    alloc: Global,
    net: &Net,
    book: Book,
) -> Result<(Book, Record), AllocError>
    requires { IsLegal net.now book }
    ensures { IfOk result (λ r. IsLegal net.now r.0) }
{
    let Ok((board, mut pass)) = Board::open(alloc, net, book, 4) else {
        return Err(AllocError);
    };
    let other = pass.split(alloc, &board, 1 << 40)?;
    let shared = &board;
    let (mut one, two) = join(
        rt,
        || -> Pass
            requires { IsSync R.row × MayWork net.now shared.now pass }
            ensures { (result.table ≡ pass.table) × (share_of result ≡ share_of pass) }
        { work(rt, alloc, net, shared, pass) },
        || -> Pass
            requires { IsSync R.row × MayWork net.now shared.now other }
            ensures { (result.table ≡ other.table) × (share_of result ≡ share_of other) }
        { work(rt, alloc, net, shared, other) },
    );
    one.join(&board, two);
    Ok(board.close(one))
}

/// Whether each turn of the two threads stands in the record, and the book has seven entries.
fn is_whole(book: &Book, record: &Record) -> bool {
    book.len() == 7 && record.turns.len() == 14 && record.missed == 0 && record.drawn == 6
}

/// Whether two threads over this net leave that.
fn is_met<R: Threads + Wait + Sync>(rt: &R, alloc: Global, net: &Net) -> Result<bool, AllocError> {
    let (book, record) = both(rt, alloc, net, Book::new(alloc, 1, 1))?;
    Ok(is_whole(&book, &record))
}

fn is_met_over_ands<R: Threads + Wait + Sync>(rt: &R, alloc: Global) -> Option<bool> {
    is_met(rt, alloc, &swapped_ands(alloc)?).ok()
}

#[test]
fn two_threads(rt: HostRuntime) {
    assert!(rt; is_met_over_ands(&rt, rt.alloc()) == Some(true));
}
