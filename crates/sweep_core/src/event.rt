use lemma_book::{Entry, Offered};

/// What one worker, by its number from 0, does to what all of them share.
#[derive(Drop)]
pub enum Event {
    /// It draws the number of a task.
    Draw(u32),
    /// It gets to know the whole book.
    Refresh(u32),
    /// It offers an entry that is good over what it knows.
    Offer(u32, Entry),
}

/// What an event answers its worker.
#[derive(Clone, Copy, PartialEq, Eq)]
pub enum Reply {
    /// The number drawn; none where all tasks were drawn.
    Task(Option<u64>),
    /// How many entries the worker knows now.
    Known(u64),
    /// The entry's own place, or that of the entry that settles it.
    Offered(Offered),
}
