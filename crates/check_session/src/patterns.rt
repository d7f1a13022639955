ghost use Rattle.std.specs.Prelude.{◌≡◌, ◌≤◌, ◌<◌, ◌*◌, ◌&&◌, Some, [], length, take, Bool, List, IfOk, IfSome, OnOk, MatchOption, bit_and, bit_xor};
ghost use Rattle.std.specs.List.{slice_index_or};
ghost use Rattle.lits.specs.declared.literal.Lit.{Lit};
ghost use Rattle.lemma_book.specs.Book.{IsLegal};
ghost use Rattle.netlist.specs.Net.{differs, nodes_of, output_of};
ghost use Rattle.word_sim.specs.Patterns.{is_set, part_from, words_of};
ghost use Rattle.word_sim.specs.Rows.{AreSignatures, IsRow, mask_of};
ghost use Rattle.sweep_workers.specs.Swept.{IsPoolFor};
ghost use Rattle.check_session.specs.Blocks.{IsFirstIn, JoinsTelling, lesser};
ghost use Rattle.check_session.specs.Pool.{HasBitsFor, HasBitsOf, IsFirstApart, IsFirstOf, MayJoin, NoneApart, admits, bit_of, tells_apart};

use crate::admitted::admitted_row;
use crate::rare::rare_difference;
use lemma_book::Book;
use lits::{Listed, Side};
use netlist::Net;
use pattern_filter::PatternFilter;
use std::alloc::{AllocError, Global};
use word_sim::{Pool, Sigs, signatures};

/// How many words of the pool's patterns are simulated at once.
const BLOCK: u32 = 4;

/// An output that differs, and an admitted input on which it does.
#[derive(Drop)]
pub(crate) struct Difference {
    pub(crate) output: u32,
    pub(crate) input: Listed<bool>,
}

/// The least output that a pattern tells apart which isn't in the pool, and then joins it, with that pattern: one
/// of the sieve's own, else one that gives a rare gate its other value. None of the pool's tells one apart.
pub(crate) fn own_difference(
    alloc: Global,
    net: &Net,
    book: &Book,
    sieve: &mut PatternFilter,
    pool: &mut Pool,
) -> Result<Option<Difference>, AllocError>
    requires legal { IsLegal net.now book.now }
    requires fits { IsPoolFor net.now pool.old }
    requires none { NoneApart net.now pool.old.patterns }
    ensures fits { OnOk result (IsPoolFor net.now pool.new) }
    ensures joins { IfOk result (JoinsTelling pool.old pool.new) }
    ensures first { IfOk result (IsFirstIn net.now pool.new.patterns) }
{
    match own_input(alloc, net, book, sieve, pool)? {
        Some(input) if input.len() == pool.inputs() as usize => {
            join_telling(alloc, net, pool, input.as_slice())
        }
        _ => Ok(None),
    }
}

/// Lets an input join the pool if it tells an output apart, where no pattern of the pool does; and tells the least
/// such output.
///
/// It is evaluated behind a first word of the pool's patterns, which a pool always has: so a pattern that seemed
/// to tell an output apart, and doesn't, leaves no trace.
fn join_telling(
    alloc: Global,
    net: &Net,
    pool: &mut Pool,
    input: &[bool],
) -> Result<Option<Difference>, AllocError>
    requires fits { IsPoolFor net.now pool.old }
    requires none { NoneApart net.now pool.old.patterns }
    requires whole { length input.now ≡ pool.old.inputs }
    ensures fits { OnOk result (IsPoolFor net.now pool.new) }
    ensures joins { IfOk result (JoinsTelling pool.old pool.new) }
    ensures first { IfOk result (IsFirstIn net.now pool.new.patterns) }
{
    let mut few = pool.part(alloc, 0, 1)?;
    few.add(input)?;
    match difference_in(alloc, net, &few)? {
        Some(difference) => {
            pool.add(input)?;
            Ok(Some(difference))
        }
        None => Ok(None),
    }
}

/// An input that isn't in the pool and on which an output seems to differ.
fn own_input(
    alloc: Global,
    net: &Net,
    book: &Book,
    sieve: &mut PatternFilter,
    pool: &Pool,
) -> Result<Option<Vec<bool>>, AllocError>
    requires legal { IsLegal net.now book.now }
    requires fits { IsPoolFor net.now pool.now }
{
    match sieve.difference(alloc, net, book)? {
        Some(input) => Ok(Some(input)),
        None => rare_difference(alloc, net, book, pool),
    }
}

/// Lets a pattern join the pool, if it has a truth value for each input.
pub(crate) fn join(pool: &mut Pool, input: &[bool]) -> Result<(), AllocError>
    ensures { OnOk result (MayJoin input.now pool.old pool.new) }
{
    if input.len() == pool.inputs() as usize {
        pool.add(input)
    } else {
        Ok(())
    }
}

/// The least output that a pattern of the pool tells apart, with the first such pattern. A pattern tells only
/// where it is admitted.
pub(crate) fn difference_in(
    alloc: Global,
    net: &Net,
    pool: &Pool,
) -> Result<Option<Difference>, AllocError>
    requires { IsPoolFor net.now pool.now }
    ensures { IfOk result (IsFirstIn net.now pool.now.patterns) }
{
    difference_behind(alloc, net, pool, 0)
}

/// The same where so many first patterns tell none apart, which aren't looked at again.
///
/// A few words of patterns are simulated at once, so that memory doesn't grow with what joined the pool.
pub(crate) fn difference_behind(
    alloc: Global,
    net: &Net,
    pool: &Pool,
    seen: u64,
) -> Result<Option<Difference>, AllocError>
    requires fits { IsPoolFor net.now pool.now }
    requires none { NoneApart net.now (take seen pool.now.patterns) }
    ensures { IfOk result (IsFirstIn net.now pool.now.patterns) }
{
    if pool.patterns() <= seen {
        return Ok(None);
    }
    let words = pool.words();
    let mut first = None;
    for block in (seen / 256) as u32..words.div_ceil(BLOCK) {
        let part = part_at(alloc, pool, block)?;
        let other = difference_of(alloc, net, &part)?;
        first = lesser(first, other);
    }
    Ok(first)
}

/// A block of the pool's patterns, behind those of its first word.
fn part_at(alloc: Global, pool: &Pool, block: u32) -> Result<Pool, AllocError>
    requires { 256 * block ≤ length pool.now.patterns }
    ensures { IfOk result (λ p. p ≡ record {
      inputs = pool.now.inputs;
      patterns = part_from (256 * block) 4 pool.now.patterns;
    }) }
{
    pool.part(alloc, 256 * u64::from(block), BLOCK)
}

/// The difference of the lesser output, the first one where both are of one.
fn lesser(first: Option<Difference>, second: Option<Difference>) -> Option<Difference>
    ensures { result ≡ lesser first second }
{
    match (first, second) {
        (Some(first), Some(second)) => {
            if second.output < first.output {
                Some(second)
            } else {
                Some(first)
            }
        }
        (Some(first), None) => Some(first),
        (None, second) => second,
    }
}

/// The least output that one of these patterns tells apart, with the first such pattern.
///
/// The rows of signatures are searched word by word.
fn difference_of(alloc: Global, net: &Net, pool: &Pool) -> Result<Option<Difference>, AllocError>
    requires { IsPoolFor net.now pool.now }
    ensures { IfOk result (IsFirstIn net.now pool.now.patterns) }
{
    netlist::laws::is_net(net);
    let sigs = signatures(alloc, net, pool)?;
    let admitted = admitted_row(alloc, net, &sigs)?;
    for output in 0..net.outputs() {
        if let Some(place) = first_apart(net, &sigs, admitted.as_slice(), output) {
            let input = Listed::of(pattern_at(alloc, &sigs, place, pool.inputs())?);
            return Ok(Some(Difference { output, input }));
        }
    }
    Ok(None)
}

/// The number of the first pattern that tells an output apart, where the bits of a row are those of the admitted
/// patterns.
fn first_apart(net: &Net, sigs: &Sigs, admitted: &[u64], output: u32) -> Option<u64>
    requires rows { length sigs.now.rows ≡ length (nodes_of net.now) }
    requires admitted { length admitted.now ≡ words_of sigs.now.patterns }
    requires output { output < length net.now.a.outputs }
    ensures { (patterns : List (List Bool)) → AreSignatures net.now patterns sigs.now
        → HasBitsFor patterns (admits net.now) admitted.now → IsFirstOf (length patterns)
        (λ p. tells_apart net.now output (slice_index_or patterns p [])) result }
{
    netlist::laws::is_net(net);
    let (first, first_neg) = output_row(net, sigs, Side::A, output);
    let (second, second_neg) = output_row(net, sigs, Side::B, output);
    first_bit_apart(
        first,
        second,
        are_opposite(first_neg, second_neg),
        admitted,
        sigs.patterns(),
    )
}

/// The row of an output's node on one side, and whether the output is its negation.
fn output_row<'a>(net: &Net, sigs: &'a Sigs, side: Side, output: u32) -> (&'a [u64], bool)
    requires rows { length sigs.now.rows ≡ length (nodes_of net.now) }
    requires output { output < length net.now.a.outputs }
    ensures size { length result.0.now ≡ words_of sigs.now.patterns }
    ensures row { (patterns : List (List Bool)) (lit : Lit) → AreSignatures net.now patterns sigs.now
        → output_of net.now side output ≡ Some lit → IsRow net.now patterns lit.node result.0.now }
    ensures sign { (lit : Lit) → output_of net.now side output ≡ Some lit → result.1 ≡ lit.neg }
{
    netlist::laws::is_net(net);
    let lit = net.output(side, output).unwrap();
    let position = net.position(lit.node).unwrap();
    (sigs.row(position), lit.neg)
}

/// The number of the first of so many bits that count in which two rows differ, one of which is turned first
/// where they are those of opposite signs.
fn first_bit_apart(
    first: &[u64],
    second: &[u64],
    are_opposite: bool,
    counting: &[u64],
    count: u64,
) -> Option<u64>
    requires first { length first.now ≡ words_of count }
    requires second { length second.now ≡ words_of count }
    requires counting { length counting.now ≡ words_of count }
    ensures { IsFirstOf count (λ p. bit_of counting.now p
        && differs are_opposite (differs (bit_of first.now p) (bit_of second.now p))) result }
{
    for word in 0..first.len() {
        if let Some(bit) = first_set(word_apart(first, second, are_opposite, counting, word)) {
            let before = 64 * word as u64;
            return if u64::from(bit) < count - before {
                Some(before + u64::from(bit))
            } else {
                None
            };
        }
    }
    None
}

/// Whether one of two signs is set alone.
fn are_opposite(first: bool, second: bool) -> bool
    ensures { result ≡ differs first second }
{
    first != second
}

/// The bits of a word that count and in which two rows differ, one of which is turned first where they are
/// those of opposite signs.
fn word_apart(
    first: &[u64],
    second: &[u64],
    are_opposite: bool,
    counting: &[u64],
    word: usize,
) -> u64
    requires first { word < length first.now }
    requires second { word < length second.now }
    requires counting { word < length counting.now }
    ensures { result ≡ bit_and (slice_index_or counting.now word 0)
        (bit_xor (bit_xor (slice_index_or first.now word 0) (slice_index_or second.now word 0))
        (mask_of are_opposite)) }
{
    counting[word] & (first[word] ^ second[word] ^ mask_of(are_opposite))
}

/// The mask that turns all bits of a word, or none.
pub(crate) fn mask_of(neg: bool) -> u64
    ensures { result ≡ mask_of neg }
{
    if neg { u64::MAX } else { 0 }
}

/// The lowest bit of a word that is set.
fn first_set(word: u64) -> Option<u32>
    ensures { IsFirstOf 64 (λ b. is_set word b) result }
{
    if word == 0 {
        None
    } else {
        Some(word.trailing_zeros())
    }
}

/// The truth values of so many inputs in a pattern. Input i stands at position i + 1.
fn pattern_at(alloc: Global, sigs: &Sigs, place: u64, inputs: u32) -> Result<Vec<bool>, AllocError>
    requires rows { inputs < length sigs.now.rows }
    requires place { place < sigs.now.patterns }
    ensures { IfOk result (λ v. HasBitsOf sigs.now place inputs v.items) }
{
    let mut values = Vec::new(alloc);
    for input in 0..inputs {
        values.push(is_true(sigs, input + 1, place))?;
    }
    Ok(values)
}

/// The value of the node at a position on a pattern.
fn is_true(sigs: &Sigs, position: u32, place: u64) -> bool
    requires position { position < length sigs.now.rows }
    requires place { place < sigs.now.patterns }
    ensures { result ≡ bit_of (slice_index_or sigs.now.rows position []) place }
{
    let row = sigs.row(position);
    (row[(place / 64) as usize] >> (place % 64)) & 1 == 1
}
