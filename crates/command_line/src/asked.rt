ghost use Rattle.std.specs.Prelude.{◌≤◌};
ghost use Rattle.command_line.specs.declared.asked.TheConstants.{BUDGET_LIMIT, WORDS_LIMIT, WORKERS_LIMIT};
ghost use Rattle.workload_gen.specs.declared.workload.TheConstants.{MOST_BITS};

use workload_gen::{Kind, MOST_BITS};

/// No budget is greater: so many clauses a solver may learn for a pair of nodes or an output.
pub const BUDGET_LIMIT: u64 = 1_000_000_000;

/// No more workers settle a check's pairs and outputs.
pub const WORKERS_LIMIT: u64 = 64;

/// No more words of 64 patterns are drawn for each input.
pub const WORDS_LIMIT: u64 = 64;

/// What `check` was given.
#[derive(Clone, Copy)]
pub struct CheckWords<'a> {
    /// The name of the first circuit's file.
    pub a: &'a str,
    /// The name of the second circuit's file.
    pub b: &'a str,
    /// The name of the file of an edit script, if there is one.
    pub edits: Option<&'a str>,
    /// What the names of the written files begin with, if any are to be written.
    pub out: Option<&'a str>,
    /// The name of the file from which lemmas are loaded, if there is one.
    pub load: Option<&'a str>,
    /// The name of the file to which the lemmas of the last check are saved, if they are to be.
    pub save: Option<&'a str>,
    /// The name of the file to which an input is written that tells the circuits apart, if there is to be one.
    pub witness: Option<&'a str>,
    /// How many workers settle pairs of nodes and outputs.
    pub workers: u64,
    /// What the patterns are drawn from.
    pub seed: u64,
    /// How many words of 64 patterns are drawn for each input.
    pub words: u64,
    /// How many clauses a solver may learn for a pair of nodes.
    pub sweep_budget: u64,
    /// How many clauses a solver may learn for an output.
    pub budget: u64,
    /// Whether inputs and outputs are paired by their names, and not by their positions.
    pub by_name: bool,
    /// Whether it is told what was done.
    pub stats: bool,
    /// Whether it is told how far a check is, while it goes on.
    pub progress: bool,
    pub ghost least_workers: { 1 ≤ workers },
    pub ghost most_workers: { workers ≤ WORKERS_LIMIT },
    pub ghost least_words: { 1 ≤ words },
    pub ghost most_words: { words ≤ WORDS_LIMIT },
    pub ghost least_sweep_budget: { 1 ≤ sweep_budget },
    pub ghost most_sweep_budget: { sweep_budget ≤ BUDGET_LIMIT },
    pub ghost least: { 1 ≤ budget },
    pub ghost most: { budget ≤ BUDGET_LIMIT },
}

/// What `fraig` was given.
#[derive(Clone, Copy)]
pub struct FraigWords<'a> {
    /// The name of the circuit's file.
    pub a: &'a str,
    /// The name of the file to which the reduced circuit is written.
    pub reduced: &'a str,
    /// What the names of the other written files begin with, if any are to be written.
    pub out: Option<&'a str>,
    /// How many workers settle pairs of nodes.
    pub workers: u64,
    /// What the patterns are drawn from.
    pub seed: u64,
    /// How many words of 64 patterns are drawn for each input.
    pub words: u64,
    /// How many clauses a solver may learn for a pair of nodes.
    pub sweep_budget: u64,
    pub ghost least_workers: { 1 ≤ workers },
    pub ghost most_workers: { workers ≤ WORKERS_LIMIT },
    pub ghost least_words: { 1 ≤ words },
    pub ghost most_words: { words ≤ WORDS_LIMIT },
    pub ghost least_sweep_budget: { 1 ≤ sweep_budget },
    pub ghost most_sweep_budget: { sweep_budget ≤ BUDGET_LIMIT },
}

/// What `lrat` was given.
#[derive(Clone, Copy)]
pub struct LratWords<'a> {
    /// The name of the formula's file.
    pub cnf: &'a str,
    /// The name of the proof's file.
    pub proof: &'a str,
}

/// What `self` was given.
#[derive(Clone, Copy)]
pub struct SelfWords {
    /// Which function the circuits compute that the program makes.
    pub kind: Kind,
    /// Of so many bits.
    pub n: u32,
    pub ghost least: { 1 ≤ n },
    pub ghost most: { n ≤ MOST_BITS },
}

/// A value that is none of the names that its argument takes.
#[derive(Clone, Copy)]
pub(crate) struct MisnamedWord<'a> {
    /// The argument, as help writes it.
    pub(crate) argument: &'static str,
    /// The names that it takes.
    pub(crate) names: &'static str,
    /// The value.
    pub(crate) word: &'a str,
}

/// Why the values of arguments ask for nothing, each of which may be given.
#[derive(Clone, Copy)]
pub(crate) enum Unfit<'a> {
    /// One is none of the names that its argument takes.
    Misnamed(MisnamedWord<'a>),
    /// The file of `--save` is one of those of `--out`.
    SavesOver,
    /// That of the reduced circuit is.
    WritesOver,
    /// That of `--witness` is.
    WitnessOver,
    /// That of `--witness` is the file of `--save`.
    WitnessSaved,
}

/// What the words ask for.
#[derive(Clone, Copy)]
pub enum Asked<'a> {
    /// To decide whether two circuits agree.
    Check(CheckWords<'a>),
    /// To reduce a circuit.
    Fraig(FraigWords<'a>),
    /// To check a proof.
    Lrat(LratWords<'a>),
    /// To decide whether two circuits agree that the program makes.
    SelfCheck(SelfWords),
}
