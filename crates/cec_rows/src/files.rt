//! The files of the worked cases, and the words that most of them are run with.

/// The AND of two inputs.
pub(crate) const SWAPPED_A: &[u8] = b"aag 3 2 0 1 1\n2\n4\n6\n6 2 4\n";

/// The same with its fanins swapped.
pub(crate) const SWAPPED_B: &[u8] = b"aag 3 2 0 1 1\n2\n4\n6\n6 4 2\n";

/// The second one in the binary form.
pub(crate) const SWAPPED_BINARY: &[u8] = b"aig 3 2 0 1 1\n6\n\x02\x02";

/// The CNF of the two.
pub(crate) const SWAPPED_CNF: &[u8] =
    b"p cnf 6 12\n1 0\n-4 2 0\n-4 3 0\n4 -2 -3 0\n-5 3 0\n-5 2 0\n5 -3 -2 0\n-6 4 5 0\n\
    -6 -4 -5 0\n6 -4 5 0\n6 4 -5 0\n6 0\n";

/// The CNF of two circuits without inputs and outputs.
pub(crate) const EMPTY_CNF: &[u8] = b"p cnf 1 2\n1 0\n0\n";

/// The XOR of two inputs.
pub(crate) const XOR_X: &[u8] = b"aag 5 2 0 1 3\n2\n4\n11\n6 2 5\n8 3 4\n10 7 9\n";

/// Their XOR by other gates.
pub(crate) const XOR_Y: &[u8] = b"aag 5 2 0 1 3\n2\n4\n10\n6 2 4\n8 3 5\n10 7 9\n";

/// The constant false over two inputs.
pub(crate) const FALSE: &[u8] = b"aag 2 2 0 1 0\n2\n4\n0\n";

/// The AND against the constant false, as the files of a check.
pub(crate) const AGAINST_FALSE: [(&str, &[u8]); 2] = [("A", SWAPPED_A), ("B", FALSE)];

/// Gates that are an input and false, and a circuit of both without gates.
pub(crate) const FOLDS: [(&str, &[u8]); 2] = [
    ("A", b"aag 3 1 0 2 2\n2\n4\n6\n4 2 2\n6 2 3\n"),
    ("B", b"aag 1 1 0 2 0\n2\n2\n0\n"),
];

/// The two ANDs, as the files of a check.
pub(crate) const SWAPPED: [(&str, &[u8]); 2] = [("A", SWAPPED_A), ("B", SWAPPED_B)];

/// The two XORs, likewise.
pub(crate) const XORS: [(&str, &[u8]); 2] = [("A", XOR_X), ("B", XOR_Y)];

/// A check whose files are left.
pub(crate) const WORDS: [&str; 5] = ["check", "A", "B", "--out", "p"];

/// The same with budgets of one learned clause.
pub(crate) const TIGHT: [&str; 9] = [
    "check",
    "A",
    "B",
    "--sweep-budget",
    "1",
    "--budget",
    "1",
    "--out",
    "p",
];
