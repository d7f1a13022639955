//! All that the command line can say. A new option of `check` is a row here, a rule in
//! `specs/Commands.antt`, a field of what `read` hands out with its default (`asked.rt`, `matches.rt` and
//! `specs/Words.antt`), and a line of the law `plain_words`.

use crate::asked::{BUDGET_LIMIT, WORDS_LIMIT, WORKERS_LIMIT};
use workload_gen::MOST_BITS;

/// What an argument takes.
#[derive(Clone, Copy)]
pub(crate) enum Takes {
    /// Any text, without a name, which has to be there.
    Place,
    /// A number from `least` to `most`, without a name, which has to be there.
    Count { least: u64, most: u64 },
    /// Any text behind `--NAME`, which may be left out.
    Text,
    /// A number from `least` to `most` behind `--NAME`, which may be left out.
    Number { least: u64, most: u64 },
    /// Nothing: `--NAME` stands alone, and may be left out.
    Flag,
}

/// An argument of a command.
#[derive(Clone, Copy)]
pub(crate) struct ArgumentRow {
    /// The name of an option, and what the value is asked for by.
    pub(crate) name: &'static str,
    /// What help calls the value, of which a flag has none.
    pub(crate) value_name: &'static str,
    pub(crate) takes: Takes,
    pub(crate) help: &'static str,
}

/// A command of the program.
#[derive(Clone, Copy)]
pub(crate) struct CommandRow {
    pub(crate) name: &'static str,
    /// What the command does, in one line.
    pub(crate) help: &'static str,
    /// What it says and leaves, at the end of its help.
    pub(crate) notes: &'static str,
    /// In the order of help, and those without a name in the order of the words.
    pub(crate) arguments: &'static [ArgumentRow],
}

/// The program's version. README.md and CHANGELOG.md name it, too.
pub(crate) const VERSION: &str = "0.2.0";

/// What the program does, in one line.
pub(crate) const PROGRAM_HELP: &str =
    "Decide whether circuits compute the same, and leave a proof that others can check";

pub(crate) static COMMANDS: [CommandRow; 4] = [
    CommandRow {
        name: "check",
        help: "Decide whether two circuits compute the same outputs",
        notes: CHECK_NOTES,
        arguments: &[
            ArgumentRow {
                name: "a",
                value_name: "A",
                takes: Takes::Place,
                help: "A combinational circuit, as an AIGER file",
            },
            ArgumentRow {
                name: "b",
                value_name: "B",
                takes: Takes::Place,
                help: "Another one, with as many inputs and outputs",
            },
            ArgumentRow {
                name: "edits",
                value_name: "F",
                takes: Takes::Text,
                help: "Edit the circuits and check them again, as the script in file F says",
            },
            ArgumentRow {
                name: "out",
                value_name: "PREFIX",
                takes: Takes::Text,
                help: "Leave the question and its proof in files whose names begin with PREFIX",
            },
            ArgumentRow {
                name: "load",
                value_name: "FILE",
                takes: Takes::Text,
                help: "Begin with those lemmas in FILE that hold, as --save leaves them",
            },
            ArgumentRow {
                name: "save",
                value_name: "FILE",
                takes: Takes::Text,
                help: "Leave the lemmas of the last check in FILE, for --load",
            },
            ArgumentRow {
                name: "witness",
                value_name: "FILE",
                takes: Takes::Text,
                help: "Leave an input that tells the circuits apart in FILE, for aigsim",
            },
            ArgumentRow {
                name: "workers",
                value_name: "N",
                takes: Takes::Number {
                    least: 1,
                    most: WORKERS_LIMIT,
                },
                help: "Settle pairs of nodes and outputs by N workers, from 1 to 64 [default: 4]",
            },
            ArgumentRow {
                name: "seed",
                value_name: "N",
                takes: Takes::Number {
                    least: 0,
                    most: u64::MAX,
                },
                help: "Draw the first patterns from N, from 0 to 18446744073709551615 [default: 1]",
            },
            ArgumentRow {
                name: "words",
                value_name: "N",
                takes: Takes::Number {
                    least: 1,
                    most: WORDS_LIMIT,
                },
                help: "Draw 64 times N first patterns, N from 1 to 64 [default: 4]",
            },
            ArgumentRow {
                name: "sweep-budget",
                value_name: "N",
                takes: Takes::Number {
                    least: 1,
                    most: BUDGET_LIMIT,
                },
                help: "Give up on a pair of nodes after N learned clauses, \
                       from 1 to 1000000000 [default: 100]",
            },
            ArgumentRow {
                name: "budget",
                value_name: "N",
                takes: Takes::Number {
                    least: 1,
                    most: BUDGET_LIMIT,
                },
                help: "Give up on an output after N learned clauses, \
                       from 1 to 1000000000 [default: 100000]",
            },
            ArgumentRow {
                name: "match",
                value_name: "BY",
                takes: Takes::Text,
                help: "Pair inputs and outputs by their position, \
                       or by the names that the files give them: position or names [default: position]",
            },
            ArgumentRow {
                name: "stats",
                value_name: "",
                takes: Takes::Flag,
                help: "Warn what was done behind each verdict, in lines of a name and a number",
            },
            ArgumentRow {
                name: "progress",
                value_name: "",
                takes: Takes::Flag,
                help: "Warn how far a check is while it goes on, at most twice a second",
            },
        ],
    },
    CommandRow {
        name: "fraig",
        help: "Merge the nodes of a circuit that are equal, and leave what is left of it with a proof",
        notes: FRAIG_NOTES,
        arguments: &[
            ArgumentRow {
                name: "a",
                value_name: "A",
                takes: Takes::Place,
                help: "A combinational circuit, as an AIGER file",
            },
            ArgumentRow {
                name: "reduced",
                value_name: "OUT",
                takes: Takes::Place,
                help: "The file of the reduced circuit, which is written as binary AIGER",
            },
            ArgumentRow {
                name: "out",
                value_name: "PREFIX",
                takes: Takes::Text,
                help: "Leave a proof that both compute the same in files whose names begin with PREFIX",
            },
            ArgumentRow {
                name: "workers",
                value_name: "N",
                takes: Takes::Number {
                    least: 1,
                    most: WORKERS_LIMIT,
                },
                help: "Settle pairs of nodes by N workers, from 1 to 64 [default: 4]",
            },
            ArgumentRow {
                name: "seed",
                value_name: "N",
                takes: Takes::Number {
                    least: 0,
                    most: u64::MAX,
                },
                help: "Draw the first patterns from N, from 0 to 18446744073709551615 [default: 1]",
            },
            ArgumentRow {
                name: "words",
                value_name: "N",
                takes: Takes::Number {
                    least: 1,
                    most: WORDS_LIMIT,
                },
                help: "Draw 64 times N first patterns, N from 1 to 64 [default: 4]",
            },
            ArgumentRow {
                name: "sweep-budget",
                value_name: "N",
                takes: Takes::Number {
                    least: 1,
                    most: BUDGET_LIMIT,
                },
                help: "Give up on a pair of nodes after N learned clauses, \
                       from 1 to 1000000000 [default: 100]",
            },
        ],
    },
    CommandRow {
        name: "lrat",
        help: "Check a proof that a formula has no model",
        notes: LRAT_NOTES,
        arguments: &[
            ArgumentRow {
                name: "cnf",
                value_name: "CNF",
                takes: Takes::Place,
                help: "The formula, as a DIMACS file",
            },
            ArgumentRow {
                name: "proof",
                value_name: "PROOF",
                takes: Takes::Place,
                help: "The proof, as an LRAT file",
            },
        ],
    },
    CommandRow {
        name: "self",
        help: "Decide whether two circuits agree that the program makes, in two architectures",
        notes: SELF_NOTES,
        arguments: &[
            ArgumentRow {
                name: "kind",
                value_name: "KIND",
                takes: Takes::Place,
                help: "What they compute: adder, parity or comparator",
            },
            ArgumentRow {
                name: "n",
                value_name: "N",
                takes: Takes::Count {
                    least: 1,
                    most: MOST_BITS as u64,
                },
                help: "Of how many bits, from 1 to 4096",
            },
        ],
    },
];

/// The statuses that are the same for each command, at the end of the program's help.
pub(crate) const PROGRAM_NOTES: &str = "\
Status:
  0  EQUIVALENT or VERIFIED was said, or help or the version
  1  DIFFERENT or REFUSED was said
  2  UNDECIDED was said
  3  the words are not as above
  4  a file is not of its format, or the circuits are not alike, or a script's line is refused
  5  a file cannot be read
  6  a file cannot be written, or an answer cannot be said
  7  out of memory";

const CHECK_NOTES: &str = "\
Says of each check, and ends with the status before what it says of the last one:
  0  EQUIVALENT
  1  DIFFERENT, with an output and inputs on which it differs
  2  UNDECIDED, with the outputs that are left open
Other statuses tell of a fault: see cec --help.

Files of check K, with --out:
  PREFIX.K.cnf   the miter of the circuits, which has a model exactly if they differ (DIMACS)
  PREFIX.K.lrat  the proof that it has none, or as much of it as was found (LRAT)

Check 0 is of the circuits as they are read. With --edits, each line of the script is one of these,
where S is a or b, J an output from 0, and LHS, R0, R1 and LIT are AIGER literals of that circuit:
  set S LHS R0 R1              the gate LHS gets the fanins R0 and R1
  new S LHS R0 R1 before LHS2  a new gate stands right before the gate LHS2
  new S LHS R0 R1 end          a new gate stands behind all others
  drop S LHS                   the gate LHS goes, which no gate and no output reads
  out S J LIT                  the output J gets the literal LIT
  check                        the next check is made, of the circuits as they are then
A line that is refused ends the program, and what was said and left before it stays.

With --load, says before check 0 how many of the lemmas in FILE hold, of how many:
  lemmas N of M
With --save, leaves FILE behind the last check, unless a line of the script is refused.

With --witness, leaves FILE before DIFFERENT is said, as aigsim takes it:
  1
  b0
                 an empty line, for the latches that there aren't
  INPUT          a digit for each input of A, in A's order
  .
  c NAME DIGIT   a line for each input to which A gives a name
At another verdict FILE stays as it was.

No FILE that is left can be PREFIX.K.cnf or PREFIX.K.lrat of --out, nor another one.

With --stats, warns behind each verdict of what was done, a line 'cec: NAME VALUE' each: gates, levels,
clauses, patterns, rounds, merges, pairs and outputs left open, conflicts, steps and lines of proof,
seconds. What is said and left stays the same.

With --progress, warns while a check goes on, at most twice a second:
  cec: progress PART round N, S of T settled, O open, X s
PART is structure, sweep or outputs, T the pairs or outputs that are asked for in round N of it, and O
those that were left open so far. What is said and left stays the same.";

const FRAIG_NOTES: &str = "\
Says how many gates either circuit has, and ends with the status before what it says of both:
  gates GA GR
  0  EQUIVALENT
Other statuses tell of a fault: see cec --help.

OUT has the inputs and names of A, and of each output and constraint the value that it has in A.
With --out, leaves PREFIX.0.cnf and PREFIX.0.lrat of the two circuits, as check does. OUT can't be
one of these.";

const LRAT_NOTES: &str = "\
Says, and ends with the status before it:
  0  VERIFIED
  1  REFUSED, with the first line that does not follow, or for want of an empty clause
Other statuses tell of a fault: see cec --help.";

const SELF_NOTES: &str = "\
Says three lines, and then what check says of the circuits without an option, with its status:
  kind KIND n N
  gates A B      how many gates either circuit has
  outputs N      how many outputs both have
Reads no file and leaves none.";
