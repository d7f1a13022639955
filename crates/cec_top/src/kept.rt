use lemma_book::Book;

/// The book of a check, as it was when the check ended.
#[derive(Drop)]
pub struct Kept {
    /// The check's number, from 0.
    pub check: u64,
    pub book: Book,
}
