use lemma_book::{Book, Entry};
use std::collections::LinkedList;

/// What one turn answered, with the entry that was offered. No value of it is made.
pub enum Said {
    At(u64, Entry),
    Already(u64, Entry),
    Known(u64),
}

/// An answer, and the number of the pass that got it. No value of it is made.
pub struct Note {
    pub pass: u64,
    pub said: Said,
}

/// What a board keeps of a pass, in proofs alone: no value of it is made.
///
/// `draws`, `missed` and `notes` are the pass's own and those of the passes that it took over, `known` is the book as
/// it knows it.
pub struct Own {
    pub draws: LinkedList<u64>,
    pub missed: u64,
    pub notes: LinkedList<Note>,
    pub known: Book,
}
