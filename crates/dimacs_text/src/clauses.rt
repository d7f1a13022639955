ghost use Rattle.std.specs.Prelude.{◌≡◌, ◌<◌, ◌^◌, List, [], ◌∷◌, ◌++◌, Option, Err, OnOk, IfOk, IfErr, IsOkAnd};
ghost use Rattle.lits.specs.Dimacs.{DimacsLiteral};
ghost use Rattle.dimacs_text.specs.Words.{words_left};
ghost use Rattle.dimacs_text.specs.Reading.{entry_in, entries_in, clauses_in, formula_of, Gives};

use crate::cnf::Cnf;
use crate::distinct::distinct;
use crate::error::CnfErr;
use crate::header::Header;
use crate::words::{Word, Words};
use lits::{Dim, Listed};
use std::alloc::Global;
use tokens::number_in;

/// The clauses of a text, as far as they are read.
#[derive(Drop)]
pub(crate) struct Clauses {
    /// Those whose 0 is read, each with the first of its repeated literals.
    ended: Vec<Listed<Dim>>,
    /// The literals behind the last 0.
    open: Vec<Dim>,
}

impl Clauses {
    ghost use Rattle.dimacs_text.specs.Clauses.{AreRead};

    fn new(alloc: Global) -> Clauses
        ensures { AreRead [] result }
    {
        Clauses {
            ended: Vec::new(alloc),
            open: Vec::new(alloc),
        }
    }

    /// The clauses that the words spell.
    pub(crate) fn read(alloc: Global, variables: u32, words: Words) -> Result<Clauses, CnfErr>
        requires { variables < 2 ^ 31 }
        ensures ok { IfOk result
            (λ clauses. IsOkAnd (entries_in variables (words_left words.entry))
            (λ entries. AreRead entries clauses)) }
        ensures err { IfErr result (λ e. Gives (Err e) (entries_in variables (words_left words.entry))) }
    {
        let mut clauses = Clauses::new(alloc);
        for word in words {
            let entry = entry_in(variables, &word)?;
            clauses.add(alloc, entry)?;
        }
        Ok(clauses)
    }

    /// Reads a literal, or the 0 that ends a clause.
    fn add(&mut self, alloc: Global, entry: Option<Dim>) -> Result<(), CnfErr>
        ensures ok { OnOk result ((entries : List (Option DimacsLiteral)) →
            AreRead entries self.old → AreRead (entries ++ entry ∷ []) self.new) }
        ensures err { IfErr result (λ e. e ≡ CnfErr.NoMemory) }
    {
        match entry {
            Some(literal) => self.open.push(literal)?,
            None => {
                let literals = distinct(alloc, self.open.as_slice())?;
                self.ended.push(Listed::of(literals))?;
                self.open.clear();
            }
        }
        Ok(())
    }

    /// The formula of the clauses, at the end of a text of this length.
    pub(crate) fn formula(self, header: Header, size: u64) -> Result<Cnf, CnfErr>
        ensures { (entries : List (Option DimacsLiteral)) →
            AreRead entries self → result ≡ formula_of header size (clauses_in entries) }
    {
        if !self.open.is_empty() {
            return Err(CnfErr::Truncated(size));
        }
        let count = self.ended.len() as u64;
        if count != u64::from(header.clauses) {
            return Err(CnfErr::Count(u64::from(header.clauses), count));
        }
        Ok(Cnf {
            variables: header.variables,
            clauses: Listed::of(self.ended),
        })
    }
}

/// What a word behind the header says: a literal, or nothing where it is the 0 that ends a clause.
fn entry_in(variables: u32, word: &Word) -> Result<Option<Dim>, CnfErr>
    requires { variables < 2 ^ 31 }
    ensures { result ≡ entry_in variables word.now }
{
    let number = number_in(word.bytes()).ok_or(CnfErr::BadNumber(word.at()))?;
    if number.size > u64::from(variables) {
        return Err(CnfErr::Var(number.size));
    }
    if number.size == 0 {
        return Ok(None);
    }
    Ok(Some(Dim::new(number.size as u32, number.minus)))
}
