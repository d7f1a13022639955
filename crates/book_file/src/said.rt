//! What a line says.
ghost use Rattle.std.specs.Prelude.{◌≡◌, Some, None, IfOk, IfSome, IfNone};
ghost use Rattle.std.specs.Option.{option_map};
ghost use Rattle.book_file.specs.Lines.{said_in, said_by, is_header, literals_in, names_in, step_in, step_of, ends_in, merge_in, out_in, header_in};

use crate::clause::clause_of;
use crate::parts::Words;
use crate::words::{index_in, literal_in, name_in, node_in};
use lits::{Hints, Lit, Node, Ref, Step};
use std::alloc::{AllocError, Global};

/// What a line of a lemma file says.
#[derive(Drop)]
pub(crate) enum Said {
    /// The file begins.
    Header,
    /// An entry begins that merges a node to a literal.
    Merge(Node, Lit),
    /// An entry begins that shows an output equal.
    Out(u32),
    /// A step of the entry.
    Shows(Step),
    /// The entry ends.
    Ends,
}

/// What the line says; none where it is no line of a lemma file.
pub(crate) fn said_in(alloc: Global, line: &[u8]) -> Result<Option<Said>, AllocError>
    ensures { IfOk result (λ said. said ≡ said_in line.now) }
{
    let mut words = Words::new(line);
    match words.next() {
        Some(kind) => said_by(alloc, kind, words),
        None => Ok(None),
    }
}

/// What a line of words says, the first of which tells what kind of line it is.
fn said_by(alloc: Global, kind: &[u8], words: Words) -> Result<Option<Said>, AllocError>
    ensures { IfOk result (λ said. said ≡ said_by kind.now words.entry) }
{
    if kind == b"s".as_slice() {
        Ok(step_in(alloc, words)?.map(Said::Shows))
    } else if kind == b".".as_slice() {
        Ok(ends_in(words))
    } else if kind == b"m".as_slice() {
        Ok(merge_in(words))
    } else if kind == b"o".as_slice() {
        Ok(out_in(words))
    } else if kind == b"lemmas".as_slice() {
        Ok(header_in(words))
    } else {
        Ok(None)
    }
}

/// Whether the line is the first one of a file.
pub(crate) fn is_header(alloc: Global, line: &[u8]) -> Result<bool, AllocError>
    ensures { IfOk result (λ b. b ≡ is_header (said_in line.now)) }
{
    match said_in(alloc, line)? {
        Some(Said::Header) => Ok(true),
        _ => Ok(false),
    }
}

/// The end of an entry, where nothing more stands in its line.
fn ends_in(mut words: Words) -> Option<Said>
    ensures { result ≡ ends_in words.entry }
{
    match words.next() {
        Some(_) => None,
        None => Some(Said::Ends),
    }
}

/// The first line of an entry that merges a node to a literal.
fn merge_in(mut words: Words) -> Option<Said>
    ensures { result ≡ merge_in words.entry }
{
    let node = words.next()?;
    let lit = words.next()?;
    if words.next().is_some() {
        return None;
    }
    Some(Said::Merge(node_in(node)?, literal_in(lit)?))
}

/// The first line of an entry that shows an output equal.
fn out_in(mut words: Words) -> Option<Said>
    ensures { result ≡ out_in words.entry }
{
    let output = words.next()?;
    if words.next().is_some() {
        return None;
    }
    Some(Said::Out(index_in(output)?))
}

/// The first line of a file, of which there is one version.
fn header_in(mut words: Words) -> Option<Said>
    ensures { result ≡ header_in words.entry }
{
    let version = words.next()?;
    if words.next().is_some() || version != b"1".as_slice() {
        return None;
    }
    Some(Said::Header)
}

/// The step of the words behind the first one.
fn step_in(alloc: Global, mut words: Words) -> Result<Option<Step>, AllocError>
    ensures { IfOk result (λ step. step ≡ step_in words.entry) }
{
    let Some(lits) = literals_in(alloc, &mut words)? else {
        return Ok(None);
    };
    let Some(names) = names_in(alloc, words)? else {
        return Ok(None);
    };
    step_of(alloc, lits.as_slice(), names)
}

/// The literals in front of the semicolon, behind which the words then stand.
fn literals_in(alloc: Global, words: &mut Words) -> Result<Option<Vec<Lit>>, AllocError>
    ensures some { IfOk result (λ o. IfSome o (λ lits. literals_in words.old ≡ Some (lits.items, words.new))) }
    ensures none { IfOk result (λ o. IfNone o (literals_in words.old ≡ None)) }
{
    let mut lits = Vec::new(alloc);
    while let Some(word) = words.next() {
        if word == b";".as_slice() {
            return Ok(Some(lits));
        }
        match literal_in(word) {
            Some(lit) => lits.push(lit)?,
            None => return Ok(None),
        }
    }
    Ok(None)
}

/// The names of clauses that the words are.
fn names_in(alloc: Global, words: Words) -> Result<Option<Vec<Ref>>, AllocError>
    ensures { IfOk result (λ o. option_map (λ names. names.items) o ≡ names_in words.entry) }
{
    let mut names = Vec::new(alloc);
    for word in words {
        match name_in(word) {
            Some(name) => names.push(name)?,
            None => return Ok(None),
        }
    }
    Ok(Some(names))
}

/// The step of a clause's literals, if they make one without a repeated literal, and the names of clauses.
fn step_of(alloc: Global, lits: &[Lit], names: Vec<Ref>) -> Result<Option<Step>, AllocError>
    ensures { IfOk result (λ step. step ≡ step_of lits.now names.items) }
{
    match clause_of(alloc, lits)? {
        Some(clause) => {
            let hints = Hints::of(names);
            Ok(Some(Step { clause, hints }))
        }
        None => Ok(None),
    }
}
