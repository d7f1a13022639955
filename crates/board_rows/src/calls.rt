//! Calls of a pass that check their own conditions, and what each keeps.
ghost use Rattle.std.specs.Prelude.{◌≡◌};
ghost use Rattle.board_lock.specs.Pass.{share_of};
ghost use Rattle.board_rows.specs.Work.{MayWork};

use crate::circuits::{Kind, good};
use board_lock::{Board, Pass};
use lemma_book::Offered;
use netlist::Net;
use std::alloc::{AllocError, Global};
use std::sync::Wait;

/// Offers an entry of the kind, if it is good over what the pass knows.
pub(crate) fn offer_once<R: Wait>(
    rt: &R,
    alloc: Global,
    net: &Net,
    board: &Board,
    pass: &mut Pass,
    kind: Kind,
) -> Option<Offered>
    requires may { MayWork net.now board.now pass.old }
    ensures may { MayWork net.now board.now pass.new }
    ensures share { share_of pass.new ≡ share_of pass.old }
{
    if pass.left() < 1 {
        return None;
    }
    let entry = good(alloc, net, pass.seen(), kind)?;
    match pass.offer(rt, alloc, net, board, entry) {
        Ok(offered) => Some(offered),
        Err((_entry, AllocError)) => None,
    }
}

/// Looks at the book.
pub(crate) fn look_once<R: Wait>(
    rt: &R,
    alloc: Global,
    net: &Net,
    board: &Board,
    pass: &mut Pass,
) -> Option<u64>
    requires may { MayWork net.now board.now pass.old }
    ensures may { MayWork net.now board.now pass.new }
    ensures share { share_of pass.new ≡ share_of pass.old }
{
    if pass.left() < 1 {
        return None;
    }
    match pass.refresh(rt, alloc, board) {
        Ok(known) => Some(known),
        Err(AllocError) => None,
    }
}

/// Draws a number.
pub(crate) fn draw(net: &Net, board: &Board, pass: &mut Pass) -> Option<u64>
    requires may { MayWork net.now board.now pass.old }
    ensures may { MayWork net.now board.now pass.new }
    ensures share { share_of pass.new ≡ share_of pass.old }
{
    if pass.left() < 1 {
        return None;
    }
    pass.draw(board)
}
