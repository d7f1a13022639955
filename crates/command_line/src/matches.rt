ghost use Rattle.std.specs.Prelude.{◌≡◌, ◌≤◌, IfSome, Some, true, is_some, unwrap_or};
ghost use Rattle.clap.specs.Words.{first_of, found_of, rows_of};
ghost use Rattle.command_line.specs.Words.{LratIt, Requested, check_given, check_in, fraig_given, fraig_in, is_set, kind_named, lrat_in, misnamed_kind, misnamed_pairing, number_in, number_of, outcome_in, matched, pairing_named, plain_check, plain_fraig, saved, self_in, witnessed};
ghost use Rattle.command_line.specs.Answers.{check_texts, fraig_texts, lrat_texts};
ghost use Rattle.command_line.specs.Parsing.{found, misnamed_texts, outcome};

use crate::asked::{
    Asked, BUDGET_LIMIT, CheckWords, FraigWords, LratWords, MisnamedWord, SelfWords, Unfit,
    WORDS_LIMIT, WORKERS_LIMIT,
};
use crate::saved::{names_left, names_one, writes_over};
use clap::ArgMatches;
use workload_gen::{Kind, MOST_BITS};

/// What the matches of the program's command ask for, or why their values ask for nothing.
pub(crate) fn asked_in<'a>(matches: &ArgMatches<'a>) -> Result<Asked<'a>, Unfit<'a>>
    requires { is_some (found matches.now) ≡ true }
    ensures { found matches.now ≡ Some (outcome result) }
{
    match matches.subcommand() {
        Some((name, inner)) => asked_by(name, inner),
        None => unreachable!(),
    }
}

/// What the matches of the command of this name ask for.
fn asked_by<'a>(name: &str, matches: &ArgMatches<'a>) -> Result<Asked<'a>, Unfit<'a>>
    requires { is_some (outcome_in name.now (rows_of (found_of matches.now))) ≡ true }
    ensures { outcome_in name.now (rows_of (found_of matches.now)) ≡ Some (outcome result) }
{
    if name == "check" {
        return check_in(matches);
    }
    if name == "fraig" {
        return fraig_in(matches);
    }
    if name == "lrat" {
        return Ok(Asked::Lrat(lrat_words(matches)));
    }
    if name == "self" {
        return self_in(matches);
    }
    unreachable!()
}

impl<'a> CheckWords<'a> {
    /// The check of the two files without an option: the default of each.
    pub fn plain(a: &'a str, b: &'a str) -> CheckWords<'a>
        ensures { check_texts result ≡ plain_check a.now b.now }
    {
        CheckWords {
            a,
            b,
            edits: None,
            out: None,
            load: None,
            save: None,
            witness: None,
            workers: 4,
            seed: 1,
            words: 4,
            sweep_budget: 100,
            budget: 100_000,
            by_name: false,
            stats: false,
            progress: false,
        }
    }
}

/// The check, or why its values ask for none: first, that the word that should name its pairing doesn't.
fn check_in<'a>(matches: &ArgMatches<'a>) -> Result<Asked<'a>, Unfit<'a>>
    requires { is_some (check_in (rows_of (found_of matches.now))) ≡ true }
    ensures { check_in (rows_of (found_of matches.now)) ≡ Some (outcome result) }
{
    let check = check_words(matches);
    match matches.get_str("match") {
        Some(word) => matched(check, word),
        None => saved(check),
    }
}

/// The check by the pairing that the word names.
fn matched<'a>(check: CheckWords<'a>, word: &'a str) -> Result<Asked<'a>, Unfit<'a>>
    ensures { outcome result ≡ matched (Some word.now) (check_texts check.entry) }
{
    match pairing_named(word) {
        Some(by_name) => saved(CheckWords {
            a: check.a,
            b: check.b,
            edits: check.edits,
            out: check.out,
            load: check.load,
            save: check.save,
            witness: check.witness,
            workers: check.workers,
            seed: check.seed,
            words: check.words,
            sweep_budget: check.sweep_budget,
            budget: check.budget,
            by_name,
            stats: check.stats,
            progress: check.progress,
        }),
        None => Err(Unfit::Misnamed(misnamed_pairing(word))),
    }
}

/// The check, unless it would save over a file that it leaves.
fn saved<'a>(check: CheckWords<'a>) -> Result<Asked<'a>, Unfit<'a>>
    ensures { outcome result ≡ saved (check_texts check.entry) }
{
    if names_left(check.out, check.save) {
        Err(Unfit::SavesOver)
    } else {
        witnessed(check)
    }
}

/// The same, unless its witness would stand in the place of such a file, or of its lemmas.
fn witnessed<'a>(check: CheckWords<'a>) -> Result<Asked<'a>, Unfit<'a>>
    ensures { outcome result ≡ witnessed (check_texts check.entry) }
{
    if names_left(check.out, check.witness) {
        Err(Unfit::WitnessOver)
    } else if names_one(check.save, check.witness) {
        Err(Unfit::WitnessSaved)
    } else {
        Ok(Asked::Check(check))
    }
}

/// Whether the pairing of this name is that by names.
fn pairing_named(name: &str) -> Option<bool>
    ensures { result ≡ pairing_named name.now }
{
    match name {
        "position" => Some(false),
        "names" => Some(true),
        _ => None,
    }
}

fn misnamed_pairing<'a>(word: &'a str) -> MisnamedWord<'a>
    ensures { misnamed_texts result ≡ misnamed_pairing word.now }
{
    MisnamedWord {
        argument: "--match <BY>",
        names: "position, names",
        word,
    }
}

/// The words of a check but that for its pairing, by the names that the table has for them. An option that is
/// left out has its default.
fn check_words<'a>(matches: &ArgMatches<'a>) -> CheckWords<'a>
    requires { is_some (check_given (rows_of (found_of matches.now))) ≡ true }
    ensures { check_given (rows_of (found_of matches.now)) ≡ Some (check_texts result) }
{
    let plain = CheckWords::plain(text(matches, "a"), text(matches, "b"));
    CheckWords {
        a: plain.a,
        b: plain.b,
        edits: matches.get_str("edits"),
        out: matches.get_str("out"),
        load: matches.get_str("load"),
        save: matches.get_str("save"),
        witness: matches.get_str("witness"),
        workers: number_or(matches, "workers", 1, WORKERS_LIMIT, plain.workers),
        seed: number_or(matches, "seed", 0, u64::MAX, plain.seed),
        words: number_or(matches, "words", 1, WORDS_LIMIT, plain.words),
        sweep_budget: number_or(matches, "sweep-budget", 1, BUDGET_LIMIT, plain.sweep_budget),
        budget: number_or(matches, "budget", 1, BUDGET_LIMIT, plain.budget),
        by_name: plain.by_name,
        stats: is_set(matches, "stats"),
        progress: is_set(matches, "progress"),
    }
}

impl<'a> FraigWords<'a> {
    /// The reduced circuit without an option: the default of each.
    pub fn plain(a: &'a str, reduced: &'a str) -> FraigWords<'a>
        ensures { fraig_texts result ≡ plain_fraig a.now reduced.now }
    {
        FraigWords {
            a,
            reduced,
            out: None,
            workers: 4,
            seed: 1,
            words: 4,
            sweep_budget: 100,
        }
    }
}

/// The reduced circuit, unless it would be written over a file that is left beside it.
fn fraig_in<'a>(matches: &ArgMatches<'a>) -> Result<Asked<'a>, Unfit<'a>>
    requires { is_some (fraig_in (rows_of (found_of matches.now))) ≡ true }
    ensures { fraig_in (rows_of (found_of matches.now)) ≡ Some (outcome result) }
{
    let fraig = fraig_words(matches);
    if writes_over(fraig.out, fraig.reduced) {
        Err(Unfit::WritesOver)
    } else {
        Ok(Asked::Fraig(fraig))
    }
}

/// The words of a reduced circuit, by the names that the table has for them. An option that is left out has its
/// default.
fn fraig_words<'a>(matches: &ArgMatches<'a>) -> FraigWords<'a>
    requires { is_some (fraig_given (rows_of (found_of matches.now))) ≡ true }
    ensures { fraig_given (rows_of (found_of matches.now)) ≡ Some (fraig_texts result) }
{
    let plain = FraigWords::plain(text(matches, "a"), text(matches, "reduced"));
    FraigWords {
        a: plain.a,
        reduced: plain.reduced,
        out: matches.get_str("out"),
        workers: number_or(matches, "workers", 1, WORKERS_LIMIT, plain.workers),
        seed: number_or(matches, "seed", 0, u64::MAX, plain.seed),
        words: number_or(matches, "words", 1, WORDS_LIMIT, plain.words),
        sweep_budget: number_or(matches, "sweep-budget", 1, BUDGET_LIMIT, plain.sweep_budget),
    }
}

/// The words of a proof's check.
fn lrat_words<'a>(matches: &ArgMatches<'a>) -> LratWords<'a>
    requires { is_some (lrat_in (rows_of (found_of matches.now))) ≡ true }
    ensures { lrat_in (rows_of (found_of matches.now)) ≡ Some (Requested (LratIt (lrat_texts result))) }
{
    LratWords {
        cnf: text(matches, "cnf"),
        proof: text(matches, "proof"),
    }
}

/// The workload, or the word that should name its kind and doesn't.
fn self_in<'a>(matches: &ArgMatches<'a>) -> Result<Asked<'a>, Unfit<'a>>
    requires { is_some (self_in (rows_of (found_of matches.now))) ≡ true }
    ensures { self_in (rows_of (found_of matches.now)) ≡ Some (outcome result) }
{
    let word = text(matches, "kind");
    let n = number(matches, "n", 1, MOST_BITS as u64);
    match kind_named(word) {
        Some(kind) => Ok(Asked::SelfCheck(SelfWords { kind, n: n as u32 })),
        None => Err(Unfit::Misnamed(misnamed_kind(word))),
    }
}

fn misnamed_kind<'a>(word: &'a str) -> MisnamedWord<'a>
    ensures { misnamed_texts result ≡ misnamed_kind word.now }
{
    MisnamedWord {
        argument: "<KIND>",
        names: "adder, parity, comparator",
        word,
    }
}

/// The kind of workload of this name.
fn kind_named(name: &str) -> Option<Kind>
    ensures { result ≡ kind_named name.now }
{
    match name {
        "adder" => Some(Kind::Adder),
        "parity" => Some(Kind::Parity),
        "comparator" => Some(Kind::Comparator),
        _ => None,
    }
}

/// The number of an option that is given, or else the default. What is no number in the range, `clap` has
/// refused before.
fn number_or(matches: &ArgMatches<'_>, id: &str, least: u64, most: u64, default: u64) -> u64
    requires { (least ≤ default) × (default ≤ most) }
    ensures value { result
        ≡ unwrap_or (number_of id.now least most (rows_of (found_of matches.now))) default }
    ensures range { (least ≤ result) × (result ≤ most) }
{
    match matches.get_str(id) {
        Some(text) => number_in(text, least, most).unwrap_or(default),
        None => default,
    }
}

/// The number of an argument, which is in its range.
fn number(matches: &ArgMatches<'_>, id: &str, least: u64, most: u64) -> u64
    requires { is_some (number_of id.now least most (rows_of (found_of matches.now))) ≡ true }
    ensures value { number_of id.now least most (rows_of (found_of matches.now)) ≡ Some result }
    ensures range { (least ≤ result) × (result ≤ most) }
{
    number_in(text(matches, id), least, most).unwrap()
}

/// The number that the text spells, if it is in the range.
fn number_in(text: &str, least: u64, most: u64) -> Option<u64>
    ensures value { result ≡ number_in least most text.now }
    ensures range { IfSome result (λ n. (least ≤ n) × (n ≤ most)) }
{
    match text.parse::<u64>() {
        Ok(n) if least <= n && n <= most => Some(n),
        _ => None,
    }
}

/// Whether a flag is given. `clap` has a value for each: `true` where it is, and `false` where it isn't.
fn is_set(matches: &ArgMatches<'_>, id: &str) -> bool
    ensures { result ≡ is_set id.now (rows_of (found_of matches.now)) }
{
    match matches.get_str(id) {
        Some(text) => text == "true",
        None => false,
    }
}

/// The value of an argument that has one.
fn text<'a>(matches: &ArgMatches<'a>, id: &str) -> &'a str
    requires { is_some (first_of id.now (rows_of (found_of matches.now))) ≡ true }
    ensures { first_of id.now (rows_of (found_of matches.now)) ≡ Some result.now }
{
    matches.get_str(id).unwrap()
}
