//! What each test asks in the end.
use std::alloc::{AllocError, Global};
use std::fmt::Display;
use std::process::Abort;

/// Asks that this holds, and says what doesn't.
pub(crate) fn check(rt: &impl Abort, what: &str, holds: bool) {
    assert!(rt; holds, "{what}");
}

/// Asks that this holds of a file.
pub(crate) fn check_bytes(rt: &impl Abort, bytes: &[u8], holds: bool) {
    assert!(rt; holds, "at {bytes:?}");
}

/// Whether a text was made, and is this one.
pub(crate) fn is_text(made: Result<String, AllocError>, text: &str) -> bool {
    match made {
        Ok(made) => made.as_str() == text,
        Err(AllocError) => false,
    }
}

/// Whether bytes were made, and are these.
pub(crate) fn is_bytes(made: Result<Vec<u8>, AllocError>, bytes: &[u8]) -> bool {
    match made {
        Ok(made) => made.as_slice() == bytes,
        Err(AllocError) => false,
    }
}

/// Whether the words are the fault's text, or "read" where there is none.
pub(crate) fn is_told<E: Display + Copy>(alloc: Global, fault: Option<E>, words: &str) -> bool {
    match fault {
        Some(fault) => is_text(fault.to_string(alloc), words),
        None => words == "read",
    }
}
