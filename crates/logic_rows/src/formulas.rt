//! Small formulas with their answers, as lines of text.
//!
//! A line has the clauses of a base, each of which ends in a semicolon, and targets, each behind a bar: its
//! literals, whether the base implies it, and the units that the plan spends.

/// Two gates that are the AND of two inputs, with their fanins swapped, by the names of the gates' clauses.
pub(crate) const TWIN_GATES: &str = "a3.0: -a3 0; a3.1: -a3 1; a3.2: a3 -0 -1; \
    b3.0: -b3 1; b3.1: -b3 0; b3.2: b3 -1 -0;";

/// A gate that is the AND of two inputs.
pub(crate) const ONE_GATE: &str = "-a3 0; -a3 1; a3 -0 -1;";

/// The cone of the one output of two circuits, each an XOR of two inputs by other gates: an AND of the first
/// input and a literal of the second, one of their negations, and one of both gates' negations.
pub(crate) const CONE_OF_XOR: &str = "\
    -a3 0; -a3 -1; a3 -0 1; -a4 -0; -a4 1; a4 0 -1; -a5 -a3; -a5 -a4; a5 a3 a4; \
    -b3 0; -b3 1; b3 -0 -1; -b4 -0; -b4 -1; b4 0 1; -b5 -b3; -b5 -b4; b5 b3 b4; \
    -d0 -a5 b5; -d0 a5 -b5; d0 a5 b5; d0 -a5 -b5;";

/// Small bases with their answers, by a brute force over all assignments, and the units spent, by the
/// plan's definition; both were worked out by a program in another language. The thirteenth to the
/// sixteenth are three pigeons in two holes, two in two, and three of which the third may stay out; the
/// last two are all clauses of three variables, and all but one.
pub(crate) const SMALL: &str = "\
| ? no 0
; | ? yes 0
1; -1; | ? yes 0
1; | 1? yes 0
1; | -1? no 0
1 2; | 1 2? yes 0
1 2; | 1? no 0
-1 2; -2 3; -3 4; | -1 4? yes 0
-1 2; -2 3; -3 4; | -4 1? no 0
1 2; 1 2; -1 2; 1 -2; | 1 2? yes 0
1 2; -1 2; 1 -2; -1 -2; | ? yes 1
1 2; -1 2; 1 -2; | ? no 1
1 2; 3 4; 5 6; -1 -3; -1 -5; -3 -5; -2 -4; -2 -6; -4 -6; | ? yes 1
1 2; 3 4; -1 -3; -2 -4; | ? no 0
1 2; 3 4; -1 -3; -1 -5; -3 -5; -2 -4; -2 -6; -4 -6; | -5 -6? yes 0
1 2; 3 4; -1 -3; -1 -5; -3 -5; -2 -4; -2 -6; -4 -6; | -5? yes 0
1 2 3; 1 2 -3; 1 -2 3; 1 -2 -3; -1 2 3; -1 2 -3; -1 -2 3; -1 -2 -3; | ? yes 3
1 2 3; 1 2 -3; 1 -2 3; 1 -2 -3; -1 2 3; -1 2 -3; -1 -2 3; | ? no 3
";

/// Two chains of XORs over two to five inputs, from either end, which have the same value.
pub(crate) const CHAINS: &str = "\
-a1 0 1; -a1 -0 -1; a1 -0 1; a1 0 -1; -b0 0 1; -b0 -0 -1; b0 -0 1; b0 0 -1; \
    | -a1 b0? yes 1 | a1 -b0? yes 1 | a1 b0? no 0
-a1 0 1; -a1 -0 -1; a1 -0 1; a1 0 -1; -a2 a1 2; -a2 -a1 -2; a2 -a1 2; a2 a1 -2; \
    -b1 1 2; -b1 -1 -2; b1 -1 2; b1 1 -2; -b0 0 b1; -b0 -0 -b1; b0 -0 b1; b0 0 -b1; \
    | -a2 b0? yes 3 | a2 -b0? yes 3 | a2 b0? no 0
-a1 0 1; -a1 -0 -1; a1 -0 1; a1 0 -1; -a2 a1 2; -a2 -a1 -2; a2 -a1 2; a2 a1 -2; \
    -a3 a2 3; -a3 -a2 -3; a3 -a2 3; a3 a2 -3; -b2 2 3; -b2 -2 -3; b2 -2 3; b2 2 -3; \
    -b1 1 b2; -b1 -1 -b2; b1 -1 b2; b1 1 -b2; -b0 0 b1; -b0 -0 -b1; b0 -0 b1; b0 0 -b1; \
    | -a3 b0? yes 7 | a3 -b0? yes 7 | a3 b0? no 0
-a1 0 1; -a1 -0 -1; a1 -0 1; a1 0 -1; -a2 a1 2; -a2 -a1 -2; a2 -a1 2; a2 a1 -2; \
    -a3 a2 3; -a3 -a2 -3; a3 -a2 3; a3 a2 -3; -a4 a3 4; -a4 -a3 -4; a4 -a3 4; a4 a3 -4; \
    -b3 3 4; -b3 -3 -4; b3 -3 4; b3 3 -4; -b2 2 b3; -b2 -2 -b3; b2 -2 b3; b2 2 -b3; \
    -b1 1 b2; -b1 -1 -b2; b1 -1 b2; b1 1 -b2; -b0 0 b1; -b0 -0 -b1; b0 -0 b1; b0 0 -b1; \
    | -a4 b0? yes 15 | a4 -b0? yes 15 | a4 b0? no 0
";

/// Seeds, whether the clauses drawn from each are unsatisfiable, and the units spent, worked out as the lines
/// above.
pub(crate) static DRAWN: [(u32, bool, u64); 32] = [
    (1, true, 4),
    (2, true, 5),
    (3, false, 1),
    (4, false, 0),
    (5, true, 0),
    (6, false, 1),
    (7, true, 4),
    (8, false, 1),
    (9, false, 3),
    (10, false, 0),
    (11, false, 0),
    (12, true, 2),
    (13, true, 0),
    (14, false, 3),
    (15, false, 3),
    (16, false, 0),
    (17, true, 5),
    (18, false, 2),
    (19, true, 2),
    (20, true, 2),
    (21, false, 2),
    (22, true, 3),
    (23, false, 4),
    (24, false, 4),
    (25, true, 1),
    (26, true, 1),
    (27, true, 1),
    (28, true, 2),
    (29, true, 1),
    (30, true, 5),
    (31, false, 2),
    (32, false, 1),
];
