//! Tables that are one text each: files, or words of a command, and what comes of them.
//!
//! A row ends where a semicolon stands, but for the last, and its words stand behind an arrow. As an array of
//! pairs such a table would cost the prover far more, some quarter of a second for each row.
use crate::checks::check;
use std::alloc::Global;
use std::process::Abort;

/// What is asked of each row of a table.
pub(crate) trait Table {
    /// Whether the words tell what comes of the file.
    fn is_met(alloc: Global, file: &str, words: &str) -> bool;
}

/// The file of a row, and the words that tell what comes of it.
fn parts(row: &str) -> (&str, &str) {
    row.split_once(" => ").unwrap_or((row, ""))
}

/// Asks it of each row.
pub(crate) fn check_rows<T: Table>(rt: &impl Abort, alloc: Global, rows: &str) {
    for row in rows.split(';') {
        let (file, words) = parts(row);
        check(rt, row, T::is_met(alloc, file, words));
    }
}
