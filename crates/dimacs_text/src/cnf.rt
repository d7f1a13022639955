ghost use Rattle.dimacs_text.specs.Reading.{formula_in, Gives};

use crate::clauses::Clauses;
use crate::error::CnfErr;
use crate::header::header_in;
use crate::words::Words;
use lits::{Dim, Listed};
use std::alloc::Global;

/// A formula in conjunctive normal form: clauses over the variables from 1 to `variables`.
///
/// A clause is the list of its literals, each once. A literal may stand beside its negation.
#[derive(Drop)]
pub struct Cnf {
    pub variables: u32,
    pub clauses: Listed<Listed<Dim>>,
}

/// Reads the text of a CNF.
pub fn read(alloc: Global, bytes: &[u8]) -> Result<Cnf, CnfErr>
    ensures { Gives result (formula_in bytes.now) }
{
    let mut words = Words::new(bytes);
    let header = header_in(&mut words).ok_or(CnfErr::BadHeader)?;
    let clauses = Clauses::read(alloc, header.variables, words)?;
    clauses.formula(header, bytes.len() as u64)
}
