//! Tables that are one text each: files, and what comes of them.
//!
//! A row ends where a bar stands, but for the last, and what comes of its file stands behind an arrow. As an
//! array of pairs such a table would cost the prover far more.
use std::alloc::Global;
use std::process::Abort;

/// What is asked of each row of a table.
pub(crate) trait Table {
    /// Whether the words tell what comes of the file.
    fn is_met(&self, alloc: Global, file: &str, words: &str) -> bool;
}

/// Fails the test, with these words, unless it is so.
pub(crate) fn expect(rt: &impl Abort, what: &str, is_so: bool) {
    assert!(rt; is_so, "{what}");
}

/// Asks it of each row.
pub(crate) fn check_rows<T: Table>(rt: &impl Abort, alloc: Global, table: &T, rows: &str) {
    for row in rows.split('|') {
        let (file, words) = row.split_once(" => ").unwrap_or((row, ""));
        expect(rt, row, table.is_met(alloc, file, words));
    }
}
