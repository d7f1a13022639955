use lemma_book::Book;
use netlist::Net;
use std::marker::Model;

/// What a board is about, as its rule is told it: a net, and the book that the board is opened with.
///
/// It owns both: closures that take a pass by value and borrow what has a lifetime inside pass on nothing at
/// a `join` of threads.
#[derive(Drop)]
pub struct About {
    pub net: Net,
    pub opening: Book,
}

impl Model for About {
    ghost use Rattle.board_lock.specs.Story.{Root};

    ghost Value = { Root };

    ghost view = { λ a. record { net = a.net; opening = a.opening } };
}
