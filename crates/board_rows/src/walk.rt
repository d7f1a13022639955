//! One task and two passes, on one thread.
ghost use Rattle.std.specs.Prelude.{◌≡◌, IfSome};
ghost use Rattle.lemma_book.specs.Book.{IsLegal};
ghost use Rattle.board_lock.specs.Pass.{share_of};
ghost use Rattle.board_rows.specs.Work.{MayWork, IsOpened, IsSplit};

use crate::calls::{draw, look_once, offer_once};
use crate::circuits::{Kind, begins_with_merge, swapped_ands};
use board_lock::{Board, Pass, Record};
use lemma_book::{Book, Offered};
use netlist::Net;
use std::alloc::Global;
use std::sync::Wait;
use std::test::*;

/// What the calls behind the split answered: the second pass's draw, both offers and both looks, and whether
/// the first pass sees the merge then.
#[derive(Clone, Copy)]
struct Told {
    task: Option<u64>,
    offers: (Option<Offered>, Option<Offered>),
    looks: (Option<u64>, Option<u64>),
    is_seen: bool,
}

fn open(alloc: Global, net: &Net, book: Book) -> Option<(Board, Pass)>
    requires { IsLegal net.now book }
    ensures { IfSome result (λ r. IsOpened net.now r.0 r.1) }
{
    Board::open(alloc, net, book, 1).ok()
}

fn split(alloc: Global, net: &Net, board: &Board, pass: &mut Pass) -> Option<Pass>
    requires may { MayWork net.now board.now pass.old }
    ensures may { MayWork net.now board.now pass.new }
    ensures split { IfSome result (IsSplit net.now board.now pass.old pass.new) }
{
    if pass.left() <= 1 << 40 {
        return None;
    }
    pass.split(alloc, board, 1 << 40).ok()
}

/// The second pass draws, and finds no task; both offer one entry, and both look.
fn answers<R: Wait>(
    rt: &R,
    alloc: Global,
    net: &Net,
    board: &Board,
    p: &mut Pass,
    q: &mut Pass,
) -> Told
    requires first { MayWork net.now board.now p.old }
    requires second { MayWork net.now board.now q.old }
    ensures first { MayWork net.now board.now p.new }
    ensures second { MayWork net.now board.now q.new }
    ensures first_share { share_of p.new ≡ share_of p.old }
    ensures second_share { share_of q.new ≡ share_of q.old }
{
    Told {
        task: draw(net, board, q),
        offers: (
            offer_once(rt, alloc, net, board, p, Kind::Merge),
            offer_once(rt, alloc, net, board, q, Kind::Merge),
        ),
        looks: (
            look_once(rt, alloc, net, board, q),
            look_once(rt, alloc, net, board, p),
        ),
        is_seen: begins_with_merge(p.seen()),
    }
}

/// The whole walk, with what the board leaves. The first pass draws before it is split.
fn walked<R: Wait>(rt: &R, alloc: Global, net: &Net, book: Book) -> Option<(Told, Book, Record)>
    requires { IsLegal net.now book }
    ensures { IfSome result (λ r. IsLegal net.now r.1) }
{
    let (board, mut p) = open(alloc, net, book)?;
    if draw(net, &board, &mut p) != Some(0) {
        return None;
    }
    let mut q = split(alloc, net, &board, &mut p)?;
    let answers = answers(rt, alloc, net, &board, &mut p, &mut q);
    p.join(&board, q);
    let (book, record) = board.close(p);
    Some((answers, book, record))
}

fn is_told(told: &Told) -> bool {
    told.task.is_none()
        && told.offers == (Some(Offered::At(0)), Some(Offered::Already(0)))
        && told.looks == (Some(1), Some(1))
        && told.is_seen
}

/// Whether the merge stands alone in the book, after four turns and two draws.
fn has_merge(book: &Book, record: &Record) -> bool {
    begins_with_merge(book)
        && book.len() == 1
        && record.turns.len() == 4
        && record.missed == 0
        && record.drawn == 2
}

/// Whether the walk over this net ends as it should; none where memory is refused.
fn is_met<R: Wait>(rt: &R, alloc: Global, net: &Net) -> Option<bool> {
    let (told, book, record) = walked(rt, alloc, net, Book::new(alloc, 1, 1))?;
    Some(is_told(&told) && has_merge(&book, &record))
}

fn is_met_over_ands<R: Wait>(rt: &R, alloc: Global) -> Option<bool> {
    is_met(rt, alloc, &swapped_ands(alloc)?)
}

#[test]
fn board_walk(rt: HostRuntime) {
    assert!(rt; is_met_over_ands(&rt, rt.alloc()) == Some(true));
}
