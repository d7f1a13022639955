//! Files as rows have them.
use std::alloc::{AllocError, Global};

/// The lemma that merges the second of two ANDs with swapped fanins to the first.
pub(crate) static MERGE: &str =
    "lemmas 1,m b3 a3,s -b3 a3 ; b3/0 b3/1 a3/2,s b3 -a3 ; a3/0 a3/1 b3/2,.,";

/// The bytes of the file in which each comma of the text stands for an LF.
pub(crate) fn file_of(alloc: Global, text: &str) -> Result<Vec<u8>, AllocError> {
    let mut file = Vec::with_capacity(alloc, text.len())?;
    for byte in text.as_bytes() {
        file.push(if *byte == b',' { b'\n' } else { *byte })?;
    }
    Ok(file)
}
