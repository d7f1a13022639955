ghost use Rattle.std.specs.Prelude.{◌≡◌, [], ◌∷◌, Some, None, MatchResult};
ghost use Rattle.byte_scan.specs.HeaderLine.{words_of};
ghost use Rattle.netlist_edits.specs.Line.{spelled_in, command_in, check_in, set_in, new_in, place_in, drop_in, out_in, side_in, number_in, gate_literal_in};

use crate::edit::{Command, Edit, LITERAL_LIMIT, is_gate_literal};
use crate::error::BadLine;
use crate::words::Words;
use lits::Side;
use tokens::size_in;

/// What a line of a script, without its end, asks for; an empty one for nothing.
pub fn read_line(line: &[u8]) -> Result<Option<Command>, BadLine>
    ensures { MatchResult result (λ spelled. spelled_in line.now ≡ Some spelled)
        (λ _. spelled_in line.now ≡ None) }
{
    if line.is_empty() {
        return Ok(None);
    }
    match command_in(&mut Words::of(line)) {
        Some(command) => Ok(Some(command)),
        None => Err(BadLine),
    }
}

/// The command that the words are.
fn command_in(words: &mut Words) -> Option<Command>
    ensures { result ≡ command_in words.old }
{
    let name = words.next()?;
    if name == b"set".as_slice() {
        set_in(words)
    } else if name == b"new".as_slice() {
        new_in(words)
    } else if name == b"drop".as_slice() {
        drop_in(words)
    } else if name == b"out".as_slice() {
        out_in(words)
    } else if name == b"check".as_slice() {
        check_in(words)
    } else {
        None
    }
}

/// `check` has no words behind it.
fn check_in(words: &mut Words) -> Option<Command>
    ensures { result ≡ check_in words.old }
{
    if words.next().is_some() {
        return None;
    }
    Some(Command::Check)
}

/// The words behind `set`: `S LHS R0 R1`.
fn set_in(words: &mut Words) -> Option<Command>
    ensures { result ≡ set_in words.old }
{
    let side = words.next()?;
    let lhs = words.next()?;
    let r0 = words.next()?;
    let r1 = words.next()?;
    if words.next().is_some() {
        return None;
    }
    Some(Command::Edit(Edit::Set {
        side: side_in(side)?,
        lhs: gate_literal_in(lhs)?,
        r0: number_in(r0)?,
        r1: number_in(r1)?,
    }))
}

/// The words behind `new`: `S LHS R0 R1`, then the new gate's place.
fn new_in(words: &mut Words) -> Option<Command>
    ensures { result ≡ new_in words.old }
{
    let side = words.next()?;
    let lhs = words.next()?;
    let r0 = words.next()?;
    let r1 = words.next()?;
    Some(Command::Edit(Edit::New {
        side: side_in(side)?,
        lhs: gate_literal_in(lhs)?,
        r0: number_in(r0)?,
        r1: number_in(r1)?,
        before: place_in(words)?,
    }))
}

/// A new gate's place: `end`, or `before LHS2`.
fn place_in(words: &mut Words) -> Option<Option<u32>>
    ensures { result ≡ place_in words.old }
{
    let name = words.next()?;
    let Some(lhs) = words.next() else {
        return end_in(name);
    };
    if words.next().is_some() || name != b"before".as_slice() {
        return None;
    }
    Some(Some(gate_literal_in(lhs)?))
}

/// The place that a single word names.
fn end_in(name: &[u8]) -> Option<Option<u32>>
    ensures { result ≡ place_in (name.now ∷ []) }
{
    if name == b"end".as_slice() {
        Some(None)
    } else {
        None
    }
}

/// The words behind `drop`: `S LHS`.
fn drop_in(words: &mut Words) -> Option<Command>
    ensures { result ≡ drop_in words.old }
{
    let side = words.next()?;
    let lhs = words.next()?;
    if words.next().is_some() {
        return None;
    }
    Some(Command::Edit(Edit::Remove {
        side: side_in(side)?,
        lhs: gate_literal_in(lhs)?,
    }))
}

/// The words behind `out`: `S J LIT`.
fn out_in(words: &mut Words) -> Option<Command>
    ensures { result ≡ out_in words.old }
{
    let side = words.next()?;
    let j = words.next()?;
    let lit = words.next()?;
    if words.next().is_some() {
        return None;
    }
    Some(Command::Edit(Edit::Out {
        side: side_in(side)?,
        j: number_in(j)?,
        lit: number_in(lit)?,
    }))
}

/// The circuit that a word names.
fn side_in(word: &[u8]) -> Option<Side>
    ensures { result ≡ side_in word.now }
{
    match word {
        [b'a'] => Some(Side::A),
        [b'b'] => Some(Side::B),
        _ => None,
    }
}

/// The number that a word writes.
fn number_in(word: &[u8]) -> Option<u32>
    ensures { result ≡ number_in word.now }
{
    let size = size_in(word)?;
    if size <= u64::from(LITERAL_LIMIT) {
        Some(size as u32)
    } else {
        None
    }
}

/// The gate's literal that a word writes.
fn gate_literal_in(word: &[u8]) -> Option<u32>
    ensures { result ≡ gate_literal_in word.now }
{
    let n = number_in(word)?;
    if is_gate_literal(n) { Some(n) } else { None }
}
