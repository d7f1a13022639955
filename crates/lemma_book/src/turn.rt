/// What one turn at a shared book comes to: an entry's own place, the place of the entry that settles
/// it, or how many entries the book has.
#[derive(Clone, Copy)]
pub enum What {
    At(u64),
    Already(u64),
    Known(u64),
}

/// A turn at a shared book, and the number of the pass whose turn it was.
#[derive(Clone, Copy)]
pub struct Turn {
    pub pass: u64,
    pub what: What,
}
