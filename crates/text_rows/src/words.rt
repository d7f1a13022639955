use crate::checks::{check, is_text};
use crate::tables::{Table, check_rows};
use command_line::{Asked, CheckWords, FraigWords, LratWords, Refusal, SelfWords, read};
use std::alloc::{AllocError, Global};
use std::test::*;
use workload_gen::Kind;

const PROGRAM_HELP: &str = "help: \
Decide whether circuits compute the same, and leave a proof that others can check

Usage: cec <COMMAND>

Commands:
  check  Decide whether two circuits compute the same outputs
  fraig  Merge the nodes of a circuit that are equal, and leave what is left of it with a proof
  lrat   Check a proof that a formula has no model
  self   Decide whether two circuits agree that the program makes, in two architectures

Options:
  -h, --help     Print help
  -V, --version  Print version

Status:
  0  EQUIVALENT or VERIFIED was said, or help or the version
  1  DIFFERENT or REFUSED was said
  2  UNDECIDED was said
  3  the words are not as above
  4  a file is not of its format, or the circuits are not alike, or a script's line is refused
  5  a file cannot be read
  6  a file cannot be written, or an answer cannot be said
  7  out of memory
";

const CHECK_HELP: &str = "help: \
Decide whether two circuits compute the same outputs

Usage: cec check [OPTIONS] <A> <B>

Arguments:
  <A>  A combinational circuit, as an AIGER file
  <B>  Another one, with as many inputs and outputs

Options:
      --edits <F>         Edit the circuits and check them again, as the script in file F says
      --out <PREFIX>      Leave the question and its proof in files whose names begin with PREFIX
      --load <FILE>       Begin with those lemmas in FILE that hold, as --save leaves them
      --save <FILE>       Leave the lemmas of the last check in FILE, for --load
      --witness <FILE>    Leave an input that tells the circuits apart in FILE, for aigsim
      --workers <N>       Settle pairs of nodes and outputs by N workers, from 1 to 64 [default: 4]
      --seed <N>          Draw the first patterns from N, from 0 to 18446744073709551615 [default: 1]
      --words <N>         Draw 64 times N first patterns, N from 1 to 64 [default: 4]
      --sweep-budget <N>  Give up on a pair of nodes after N learned clauses, \
      from 1 to 1000000000 [default: 100]
      --budget <N>        Give up on an output after N learned clauses, from 1 to 1000000000 [default: 100000]
      --match <BY>        Pair inputs and outputs by their position, \
      or by the names that the files give them: position or names [default: position]
      --stats             Warn what was done behind each verdict, in lines of a name and a number
      --progress          Warn how far a check is while it goes on, at most twice a second
  -h, --help              Print help

Says of each check, and ends with the status before what it says of the last one:
  0  EQUIVALENT
  1  DIFFERENT, with an output and inputs on which it differs
  2  UNDECIDED, with the outputs that are left open
Other statuses tell of a fault: see cec --help.

Files of check K, with --out:
  PREFIX.K.cnf   the miter of the circuits, which has a model exactly if they differ (DIMACS)
  PREFIX.K.lrat  the proof that it has none, or as much of it as was found (LRAT)

Check 0 is of the circuits as they are read. With --edits, each line of the script is one of these,
where S is a or b, J an output from 0, and LHS, R0, R1 and LIT are AIGER literals of that circuit:
  set S LHS R0 R1              the gate LHS gets the fanins R0 and R1
  new S LHS R0 R1 before LHS2  a new gate stands right before the gate LHS2
  new S LHS R0 R1 end          a new gate stands behind all others
  drop S LHS                   the gate LHS goes, which no gate and no output reads
  out S J LIT                  the output J gets the literal LIT
  check                        the next check is made, of the circuits as they are then
A line that is refused ends the program, and what was said and left before it stays.

With --load, says before check 0 how many of the lemmas in FILE hold, of how many:
  lemmas N of M
With --save, leaves FILE behind the last check, unless a line of the script is refused.

With --witness, leaves FILE before DIFFERENT is said, as aigsim takes it:
  1
  b0
                 an empty line, for the latches that there aren't
  INPUT          a digit for each input of A, in A's order
  .
  c NAME DIGIT   a line for each input to which A gives a name
At another verdict FILE stays as it was.

No FILE that is left can be PREFIX.K.cnf or PREFIX.K.lrat of --out, nor another one.

With --stats, warns behind each verdict of what was done, a line 'cec: NAME VALUE' each: gates, levels,
clauses, patterns, rounds, merges, pairs and outputs left open, conflicts, steps and lines of proof,
seconds. What is said and left stays the same.

With --progress, warns while a check goes on, at most twice a second:
  cec: progress PART round N, S of T settled, O open, X s
PART is structure, sweep or outputs, T the pairs or outputs that are asked for in round N of it, and O
those that were left open so far. What is said and left stays the same.
";

const FRAIG_HELP: &str = "help: \
Merge the nodes of a circuit that are equal, and leave what is left of it with a proof

Usage: cec fraig [OPTIONS] <A> <OUT>

Arguments:
  <A>    A combinational circuit, as an AIGER file
  <OUT>  The file of the reduced circuit, which is written as binary AIGER

Options:
      --out <PREFIX>      Leave a proof that both compute the same in files whose names begin with PREFIX
      --workers <N>       Settle pairs of nodes by N workers, from 1 to 64 [default: 4]
      --seed <N>          Draw the first patterns from N, from 0 to 18446744073709551615 [default: 1]
      --words <N>         Draw 64 times N first patterns, N from 1 to 64 [default: 4]
      --sweep-budget <N>  Give up on a pair of nodes after N learned clauses, \
      from 1 to 1000000000 [default: 100]
  -h, --help              Print help

Says how many gates either circuit has, and ends with the status before what it says of both:
  gates GA GR
  0  EQUIVALENT
Other statuses tell of a fault: see cec --help.

OUT has the inputs and names of A, and of each output and constraint the value that it has in A.
With --out, leaves PREFIX.0.cnf and PREFIX.0.lrat of the two circuits, as check does. OUT can't be
one of these.
";

const LRAT_HELP: &str = "help: \
Check a proof that a formula has no model

Usage: cec lrat <CNF> <PROOF>

Arguments:
  <CNF>    The formula, as a DIMACS file
  <PROOF>  The proof, as an LRAT file

Options:
  -h, --help  Print help

Says, and ends with the status before it:
  0  VERIFIED
  1  REFUSED, with the first line that does not follow, or for want of an empty clause
Other statuses tell of a fault: see cec --help.
";

const SELF_HELP: &str = "help: \
Decide whether two circuits agree that the program makes, in two architectures

Usage: cec self <KIND> <N>

Arguments:
  <KIND>  What they compute: adder, parity or comparator
  <N>     Of how many bits, from 1 to 4096

Options:
  -h, --help  Print help

Says three lines, and then what check says of the circuits without an option, with its status:
  kind KIND n N
  gates A B      how many gates either circuit has
  outputs N      how many outputs both have
Reads no file and leaves none.
";

const NO_COMMAND: &str = "usage: \
error: 'cec' requires a subcommand but one was not provided
  [subcommands: check, fraig, lrat, self]

Usage: cec <COMMAND>

For more information, try '--help'.
";

const NO_KIND: &str = "usage: \
error: invalid value 'help' for '<KIND>'
  [possible values: adder, parity, comparator]

For more information, try '--help'.
";

const NO_PAIRING: &str = "usage: \
error: invalid value 'by' for '--match <BY>'
  [possible values: position, names]

For more information, try '--help'.
";

const VERSION: &str = "help: cec 0.2.0\n";

const NO_VERSION: &str = "usage: \
error: unexpected argument '--version' found

  tip: to pass '--version' as a value, use '-- --version'

Usage: cec check [OPTIONS] <A> <B>

For more information, try '--help'.
";

const SAVED_OVER: &str = "usage: cec: --save names a file of --out\n";

const WITNESS_OVER: &str = "usage: cec: --witness names a file of --out\n";

const WITNESS_SAVED: &str = "usage: cec: --witness and --save name one file\n";

const NO_HELP: &str = "usage: cec: no command help\n";

const WRITTEN_OVER: &str = "usage: cec: OUT is a file of --out\n";

/// Words, and what they are told.
static TOLD: [(&str, &str); 21] = [
    ("cec --help", PROGRAM_HELP),
    ("cec -h", PROGRAM_HELP),
    ("cec check --help", CHECK_HELP),
    ("cec check x y -h", CHECK_HELP),
    ("cec fraig --help", FRAIG_HELP),
    ("cec lrat --help", LRAT_HELP),
    ("cec self --help", SELF_HELP),
    ("cec --version", VERSION),
    ("cec -V", VERSION),
    ("cec --version check", VERSION),
    ("cec check --version", NO_VERSION),
    ("cec", NO_COMMAND),
    ("cec self help 1", NO_KIND),
    ("cec check x y --match by", NO_PAIRING),
    ("cec check x y --out p --save p.0.cnf", SAVED_OVER),
    ("cec check x y --out p --witness p.0.cnf", WITNESS_OVER),
    (
        "cec check x y --witness p.01.lrat --save f --out p",
        WITNESS_OVER,
    ),
    ("cec check x y --save f --witness f", WITNESS_SAVED),
    ("cec fraig x p.0.lrat --out p", WRITTEN_OVER),
    ("cec help", NO_HELP),
    ("cec help check", NO_HELP),
];

/// Words, and what they are taken for.
const TAKEN: &str = concat!(
    "cec check x y => x and y, to nowhere, by 4 from 1, 4, 100 and 100000;",
    "cec check x y --out p => x and y, to p, by 4 from 1, 4, 100 and 100000;",
    "cec check x y --budget 7 => x and y, to nowhere, by 4 from 1, 4, 100 and 7;",
    "cec check x y --budget 7 --out p => x and y, to p, by 4 from 1, 4, 100 and 7;",
    "cec check --out p --budget 7 x y => x and y, to p, by 4 from 1, 4, 100 and 7;",
    "cec check x --budget=7 y --out=p => x and y, to p, by 4 from 1, 4, 100 and 7;",
    "cec check x y --budget 1 => x and y, to nowhere, by 4 from 1, 4, 100 and 1;",
    "cec check x y --budget 1000000000 => x and y, to nowhere, by 4 from 1, 4, 100 and 1000000000;",
    "cec check x y --budget +007 => x and y, to nowhere, by 4 from 1, 4, 100 and 7;",
    "cec check help check => help and check, to nowhere, by 4 from 1, 4, 100 and 100000;",
    "cec check -- -x --out => -x and --out, to nowhere, by 4 from 1, 4, 100 and 100000;",
    "cec check x y --seed 0 --words 1 --sweep-budget 1 => x and y, to nowhere, by 4 from 0, 1, 1 and 100000;",
    "cec check x y --words 64 --seed 18446744073709551615 => \
        x and y, to nowhere, by 4 from 18446744073709551615, 64, 100 and 100000;",
    "cec check x y --sweep-budget 1000000000 => x and y, to nowhere, by 4 from 1, 4, 1000000000 and 100000;",
    "cec check x y --seed=7 --budget 8 => x and y, to nowhere, by 4 from 7, 4, 100 and 8;",
    "cec check --sweep-budget 5 x --words 6 y --out p => x and y, to p, by 4 from 1, 6, 5 and 100000;",
    "cec check x y --match names => x and y by name, to nowhere, by 4 from 1, 4, 100 and 100000;",
    "cec check x y --match position => x and y, to nowhere, by 4 from 1, 4, 100 and 100000;",
    "cec check --match=names x y --out p => x and y by name, to p, by 4 from 1, 4, 100 and 100000;",
    "cec check x y --edits s => x and y edited by s, to nowhere, by 4 from 1, 4, 100 and 100000;",
    "cec check --out p --edits=s x y => x and y edited by s, to p, by 4 from 1, 4, 100 and 100000;",
    "cec check x --match names y --edits check => \
        x and y by name edited by check, to nowhere, by 4 from 1, 4, 100 and 100000;",
    "cec check x y --load l => x and y with lemmas from l, to nowhere, by 4 from 1, 4, 100 and 100000;",
    "cec check --save=l x y --out p => x and y with lemmas to l, to p, by 4 from 1, 4, 100 and 100000;",
    "cec check x y --out p --save p.x.cnf --load p.0.cnf => \
        x and y with lemmas from p.0.cnf with lemmas to p.x.cnf, to p, by 4 from 1, 4, 100 and 100000;",
    "cec check x y --witness w => x and y with a witness to w, to nowhere, by 4 from 1, 4, 100 and 100000;",
    "cec check x --witness=p.cnf y --out p --save l => \
        x and y with lemmas to l with a witness to p.cnf, to p, by 4 from 1, 4, 100 and 100000;",
    "cec check x y --stats => x and y with statistics, to nowhere, by 4 from 1, 4, 100 and 100000;",
    "cec check x --progress y => x and y with progress, to nowhere, by 4 from 1, 4, 100 and 100000;",
    "cec check --progress x y --stats => \
        x and y with statistics with progress, to nowhere, by 4 from 1, 4, 100 and 100000;",
    "cec check --stats x y --budget 7 => x and y with statistics, to nowhere, by 4 from 1, 4, 100 and 7;",
    "cec check x y --workers 1 => x and y, to nowhere, by 1 from 1, 4, 100 and 100000;",
    "cec check --workers=64 x y --seed 2 => x and y, to nowhere, by 64 from 2, 4, 100 and 100000;",
    "cec fraig x y => what is left of x in y, to nowhere, by 4 from 1, 4 and 100;",
    "cec fraig x p.1.cnf --out p => what is left of x in p.1.cnf, to p, by 4 from 1, 4 and 100;",
    "cec fraig x --out p.0 p.0.cnf => what is left of x in p.0.cnf, to p.0, by 4 from 1, 4 and 100;",
    "cec fraig --workers=64 x y --seed 0 --words 1 --sweep-budget 5 => \
        what is left of x in y, to nowhere, by 64 from 0, 1 and 5;",
    "cec lrat f p => p of f;",
    "cec self adder 1 => an adder of 1;",
    "cec self parity 4096 => a parity of 4096;",
    "cec self comparator +08 => a comparator of 8",
);

/// Words, and how the text of their refusal begins.
const REFUSED: &str = concat!(
    "cec check x y --budget 0 => \
        invalid value '0' for '--budget <N>': 0 is not in 1..=1000000000\n;",
    "cec check x y --budget 1000000001 => \
        invalid value '1000000001' for '--budget <N>': 1000000001 is not in 1..=1000000000\n;",
    "cec check x y --budget x => \
        invalid value 'x' for '--budget <N>': invalid digit found in string\n;",
    "cec check x y --budget -1 => unexpected argument '-1' found\n;",
    "cec check x y --budget 7 --budget 7 => \
        the argument '--budget <N>' cannot be used multiple times\n;",
    "cec check x y --out => a value is required for '--out <PREFIX>' but none was supplied\n;",
    "cec check x y --edits => a value is required for '--edits <F>' but none was supplied\n;",
    "cec check x y --edits s --edits s => \
        the argument '--edits <F>' cannot be used multiple times\n;",
    "cec check x y --save => a value is required for '--save <FILE>' but none was supplied\n;",
    "cec check x y --witness => a value is required for '--witness <FILE>' but none was supplied\n;",
    "cec check x y --stats --stats => the argument '--stats' cannot be used multiple times\n;",
    "cec check x y --stats=7 => unexpected value '7' for '--stats' found; no more were expected\n;",
    "cec check x y --progress --progress => the argument '--progress' cannot be used multiple times\n;",
    "cec self adder 1 --progress => unexpected argument '--progress' found\n;",
    "cec fraig x y --stats => unexpected argument '--stats' found\n;",
    "cec self adder 1 --witness w => unexpected argument '--witness' found\n;",
    "cec check x y --load l --load l => \
        the argument '--load <FILE>' cannot be used multiple times\n;",
    "cec self adder 1 --edits s => unexpected argument '--edits' found\n;",
    "cec check x y --match => a value is required for '--match <BY>' but none was supplied\n;",
    "cec check x y --match name => \
        invalid value 'name' for '--match <BY>'\n  [possible values: position, names]\n;",
    "cec check x y --match names --match names => \
        the argument '--match <BY>' cannot be used multiple times\n;",
    "cec check x --match by => the following required arguments were not provided:\n  <B>\n;",
    "cec check x y --match by --words 0 => invalid value '0' for '--words <N>': 0 is not in 1..=64\n;",
    "cec fraig x => the following required arguments were not provided:\n  <OUT>\n;",
    "cec fraig x y --budget 7 => unexpected argument '--budget' found\n;",
    "cec fraig x y --workers 0 => invalid value '0' for '--workers <N>': 0 is not in 1..=64\n;",
    "cec check x => the following required arguments were not provided:\n  <B>\n;",
    "cec lrat => the following required arguments were not provided:\n  <CNF>\n  <PROOF>\n;",
    "cec check x y z => unexpected argument 'z' found\n;",
    "cec check x y --words 0 => invalid value '0' for '--words <N>': 0 is not in 1..=64\n;",
    "cec check x y --words 65 => invalid value '65' for '--words <N>': 65 is not in 1..=64\n;",
    "cec check x y --sweep-budget 0 => \
        invalid value '0' for '--sweep-budget <N>': 0 is not in 1..=1000000000\n;",
    "cec check x y --sweep-budget 1000000001 => \
        invalid value '1000000001' for '--sweep-budget <N>': 1000000001 is not in 1..=1000000000\n;",
    "cec check x y --seed 18446744073709551616 => \
        invalid value '18446744073709551616' for '--seed <N>': number too large to fit in target type\n;",
    "cec check x y --seed -1 => unexpected argument '-1' found\n;",
    "cec check x y --workers 0 => invalid value '0' for '--workers <N>': 0 is not in 1..=64\n;",
    "cec check x y --workers 65 => invalid value '65' for '--workers <N>': 65 is not in 1..=64\n;",
    "cec self adder 1 --workers 4 => unexpected argument '--workers' found\n;",
    "cec self adders 4 => \
        invalid value 'adders' for '<KIND>'\n  [possible values: adder, parity, comparator]\n;",
    "cec self adder 0 => invalid value '0' for '<N>': 0 is not in 1..=4096\n;",
    "cec self adder 4097 => invalid value '4097' for '<N>': 4097 is not in 1..=4096\n;",
    "cec self parity => the following required arguments were not provided:\n  <N>\n",
);

fn push_word(words: &mut Vec<String>, alloc: Global, word: &str) -> Result<(), AllocError> {
    words.push(String::from_str(alloc, word)?)?;
    Ok(())
}

fn words_of(alloc: Global, line: &str) -> Result<Vec<String>, AllocError> {
    let mut words = Vec::new(alloc);
    for word in line.split(' ') {
        push_word(&mut words, alloc, word)?;
    }
    Ok(words)
}

/// These words and the name behind them, or nothing where there is no name.
fn named(alloc: Global, words: &str, name: Option<&str>) -> Result<String, AllocError> {
    match name {
        Some(name) => format!(in alloc; " {words} {name}"),
        None => Ok(String::new(alloc)),
    }
}

/// The files that a check was given, how they are paired and edited, what it loads, saves and leaves, whether it
/// tells what was done and how far it is, and where its proof goes.
fn files_of(alloc: Global, check: &CheckWords<'_>) -> Result<String, AllocError> {
    let out = check.out.unwrap_or("nowhere");
    let pairing = if check.by_name { " by name" } else { "" };
    let edits = named(alloc, "edited by", check.edits)?;
    let load = named(alloc, "with lemmas from", check.load)?;
    let save = named(alloc, "with lemmas to", check.save)?;
    let witness = named(alloc, "with a witness to", check.witness)?;
    let stats = if check.stats { " with statistics" } else { "" };
    let progress = if check.progress { " with progress" } else { "" };
    format!(in alloc;
        "{} and {}{pairing}{edits}{load}{save}{witness}{stats}{progress}, to {out}",
        check.a, check.b
    )
}

/// The numbers that a check was given.
fn numbers_of(alloc: Global, check: &CheckWords<'_>) -> Result<String, AllocError> {
    format!(in alloc;
        "{} from {}, {}, {} and {}",
        check.workers, check.seed, check.words, check.sweep_budget, check.budget
    )
}

fn is_check(alloc: Global, check: &CheckWords<'_>, meaning: &str) -> bool {
    match meaning.split_once(", by ") {
        Some((files, numbers)) => {
            is_text(files_of(alloc, check), files) && is_text(numbers_of(alloc, check), numbers)
        }
        None => false,
    }
}

fn told_fraig(alloc: Global, fraig: &FraigWords<'_>) -> Result<String, AllocError> {
    let out = fraig.out.unwrap_or("nowhere");
    format!(in alloc;
        "what is left of {} in {}, to {out}, by {} from {}, {} and {}",
        fraig.a, fraig.reduced, fraig.workers, fraig.seed, fraig.words, fraig.sweep_budget
    )
}

fn name_of(kind: Kind) -> &'static str {
    match kind {
        Kind::Adder => "an adder",
        Kind::Parity => "a parity",
        Kind::Comparator => "a comparator",
    }
}

fn is_lrat(lrat: &LratWords<'_>, meaning: &str) -> bool {
    match meaning.split_once(" of ") {
        Some((proof, cnf)) => proof == lrat.proof && cnf == lrat.cnf,
        None => false,
    }
}

fn told_self(alloc: Global, own: &SelfWords) -> Result<String, AllocError> {
    format!(in alloc; "{} of {}", name_of(own.kind), own.n)
}

/// Whether this is what was asked for.
fn is_asked(alloc: Global, asked: &Asked<'_>, meaning: &str) -> bool {
    match asked {
        Asked::Check(check) => is_check(alloc, check, meaning),
        Asked::Fraig(fraig) => is_text(told_fraig(alloc, fraig), meaning),
        Asked::Lrat(lrat) => is_lrat(lrat, meaning),
        Asked::SelfCheck(own) => is_text(told_self(alloc, own), meaning),
    }
}

/// Whether this is the text of the refusal, with its kind before it.
fn is_refusal(refusal: &Refusal, expected: &str) -> bool {
    match refusal {
        Refusal::Help(text) => expected.strip_prefix("help: ") == Some(text.as_str()),
        Refusal::Usage(text) => expected.strip_prefix("usage: ") == Some(text.as_str()),
        Refusal::NoMemory => false,
    }
}

/// What words are told.
struct Answered;

impl Table for Answered {
    fn is_met(alloc: Global, line: &str, expected: &str) -> bool {
        let Ok(words) = words_of(alloc, line) else {
            return false;
        };
        match read(alloc, words.as_slice()) {
            Ok(asked) => is_asked(alloc, &asked, expected),
            Err(refusal) => is_refusal(&refusal, expected),
        }
    }
}

/// Whether an error is told that begins so.
fn begins(text: &str, expected: &str) -> bool {
    match text.strip_prefix("error: ") {
        Some(rest) => rest.starts_with(expected),
        None => false,
    }
}

/// How the error begins that words are told.
struct Refused;

impl Table for Refused {
    fn is_met(alloc: Global, line: &str, expected: &str) -> bool {
        let Ok(words) = words_of(alloc, line) else {
            return false;
        };
        match read(alloc, words.as_slice()) {
            Err(Refusal::Usage(text)) => begins(text.as_str(), expected),
            _ => false,
        }
    }
}

#[test]
fn words_of_commands(rt: HostRuntime) {
    check_rows::<Answered>(&rt, rt.alloc(), TAKEN);
}

#[test]
fn words_without_a_command(rt: HostRuntime) {
    for (line, expected) in &TOLD {
        check(&rt, line, Answered::is_met(rt.alloc(), line, expected));
    }
}

#[test]
fn words_that_are_refused(rt: HostRuntime) {
    check_rows::<Refused>(&rt, rt.alloc(), REFUSED);
}
