ghost use Rattle.std.specs.Prelude.{◌≡◌, ◌<◌, ◌∷◌, [], List, None, Err, length, IfOk, IfErr, OnOk};
ghost use Rattle.lemma_book.specs.declared.entry.Entry.{Entry};
ghost use Rattle.book_file.specs.Reading.{entries_in, listed, Gives};
ghost use Rattle.book_file.specs.Drafts.{entry_of, said_about, entries_from, Reads, ReadsLine, Refuses, RefusesLine, IsBegun};

use crate::error::BookErr;
use crate::parts::cut;
use crate::said::{Said, is_header, said_in};
use lemma_book::Entry;
use lits::{Listed, Lit, Node, Step};
use std::alloc::Global;

/// Reads the entries of a lemma file, all of them merges and equal outputs. What they say isn't judged.
pub fn read(alloc: Global, bytes: &[u8]) -> Result<Vec<Entry>, BookErr>
    ensures { Gives (listed result) (entries_in bytes.now) }
{
    let mut rest = behind_header(alloc, bytes)?;
    let mut draft = Draft::new(alloc);
    let mut at = 2;
    while let Some((line, behind)) = cut(b'\n', rest) {
        draft.read_line(alloc, at, line)?;
        rest = behind;
        at += 1;
    }
    draft.finish(at, rest)
}

/// What stands behind the first line of a file.
#[tactic(auto, using(crate::proofs::LineLemmas::first_line, crate::proofs::LineLemmas::first_bad, crate::proofs::LineLemmas::first_early))]
fn behind_header(alloc: Global, bytes: &[u8]) -> Result<&[u8], BookErr>
    ensures ok { IfOk result (λ rest. IsBegun bytes.now rest.now) }
    ensures shorter { IfOk result (λ rest. length rest.now < length bytes.now) }
    ensures err { IfErr result (λ e. Gives {A = List Entry} (Err e) (entries_in bytes.now)) }
{
    let Some((line, behind)) = cut(b'\n', bytes) else {
        return Err(BookErr::Truncated(1));
    };
    if !is_header(alloc, line)? {
        return Err(BookErr::BadLine(1));
    }
    Ok(behind)
}

/// What an entry is about, as its first line says.
#[derive(Clone, Copy)]
pub(crate) enum About {
    Merge(Node, Lit),
    Out(u32),
}

/// An entry whose last line isn't read yet.
#[derive(Drop)]
pub(crate) struct Open {
    about: About,
    steps: Vec<Step>,
}

/// The entries of a file, as far as it is read.
#[derive(Drop)]
pub(crate) struct Draft {
    ended: Vec<Entry>,
    current: Option<Open>,
}

impl Draft {
    /// No entry is read yet.
    fn new(alloc: Global) -> Draft
        ensures ended { result.ended.items ≡ [] }
        ensures current { result.current ≡ None }
    {
        Draft {
            ended: Vec::new(alloc),
            current: None,
        }
    }

    /// Reads line `at`.
    fn read_line(&mut self, alloc: Global, at: u64, line: &[u8]) -> Result<(), BookErr>
        ensures ok { OnOk result (ReadsLine self.old line.now self.new) }
        ensures err { IfErr result (RefusesLine self.old at line.now) }
    {
        match said_in(alloc, line)? {
            Some(said) => self.read(alloc, at, said),
            None => Err(BookErr::BadLine(at)),
        }
    }

    /// Reads what line `at` says.
    fn read(&mut self, alloc: Global, at: u64, said: Said) -> Result<(), BookErr>
        ensures ok { OnOk result (Reads self.old said self.new) }
        ensures err { IfErr result (Refuses self.old at said) }
    {
        match said {
            Said::Header => Err(BookErr::BadLine(at)),
            Said::Merge(node, lit) => self.begin(alloc, at, About::Merge(node, lit)),
            Said::Out(output) => self.begin(alloc, at, About::Out(output)),
            Said::Shows(step) => self.show(at, step),
            Said::Ends => self.end(at),
        }
    }

    /// The first line of an entry. Most entries are merges without a log, which have two steps.
    fn begin(&mut self, alloc: Global, at: u64, about: About) -> Result<(), BookErr>
        ensures ok { OnOk result (Reads self.old (said_about about) self.new) }
        ensures err { IfErr result (Refuses self.old at (said_about about)) }
    {
        if self.current.is_some() {
            return Err(BookErr::BadLine(at));
        }
        let steps = Vec::with_capacity(alloc, 2)?;
        self.current = Some(Open { about, steps });
        Ok(())
    }

    /// A step of the entry.
    fn show(&mut self, at: u64, step: Step) -> Result<(), BookErr>
        ensures ok { OnOk result (Reads self.old (Said.Shows step) self.new) }
        ensures err { IfErr result (Refuses self.old at (Said.Shows step)) }
    {
        match &mut self.current {
            Some(current) => Ok(current.steps.push(step)?),
            None => Err(BookErr::BadLine(at)),
        }
    }

    /// The last line of the entry, which has a step at least.
    fn end(&mut self, at: u64) -> Result<(), BookErr>
        ensures ok { OnOk result (Reads self.old Said.Ends self.new) }
        ensures err { IfErr result (Refuses self.old at Said.Ends) }
    {
        match self.current.take() {
            Some(current) if !current.steps.is_empty() => {
                self.ended.push(entry_of(current))?;
                Ok(())
            }
            _ => Err(BookErr::BadLine(at)),
        }
    }

    /// The entries, where the bytes end with `rest` as what there is of line `at`.
    fn finish(self, at: u64, rest: &[u8]) -> Result<Vec<Entry>, BookErr>
        ensures { listed result ≡ entries_from self at (rest.now ∷ []) }
    {
        if !rest.is_empty() || self.current.is_some() {
            return Err(BookErr::Truncated(at));
        }
        Ok(self.ended)
    }
}

/// The entry with the steps that are read.
fn entry_of(current: Open) -> Entry
    ensures { result ≡ entry_of current.about current.steps.items }
{
    let steps = Listed::of(current.steps);
    match current.about {
        About::Merge(node, lit) => Entry::Merge { node, lit, steps },
        About::Out(output) => Entry::Out { output, steps },
    }
}
