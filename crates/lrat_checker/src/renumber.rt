ghost use Rattle.std.specs.Prelude.{◌≡◌, ◌+◌, ◌≤◌, ◌<◌, ◌^◌, ℕ, Option, map, IfOk, OnOk};
ghost use Rattle.lrat_checker.specs.Renamed.{AreRenamed};

use lits::{Dim, Listed, Literal};
use lrat_text::{Line, LratStep};
use std::alloc::{AllocError, Global};
use std::collections::BTreeMap;
use std::marker::Model;

/// Numbers of variables, from 1 in the order in which these are met.
///
/// An ordered map holds them, so that no choice of variables makes it slow, as it could a table of hashes.
#[derive(Drop)]
struct Numbers {
    numbers: BTreeMap<u32, u32>,
}

impl Model for Numbers {
    ghost use Rattle.std.specs.Prelude.{ℕ, List, length};
    ghost use Rattle.lrat_checker.specs.Renamed.{IsNumbering, number_in};

    ghost Value = { List (ℕ × ℕ) };

    ghost view = { λ n. n.numbers.entries };

    ghost invariant = { λ n. IsNumbering (number_in n.numbers.entries) (length n.numbers.entries) };
}

impl Numbers {
    ghost use Rattle.lits.specs.Dimacs.{DimacsLiteral};
    ghost use Rattle.lrat_checker.specs.Renamed.{number_in, Extends, ByNumbers};
    ghost use Rattle.lrat_checker.specs.Renamed.{renumbered, renamed_step, renamed_line};

    /// No variable has a number.
    fn new(alloc: Global) -> Numbers {
        Numbers {
            numbers: BTreeMap::new(alloc),
        }
    }

    /// The number of a variable, which is the next one where it is new.
    fn number(&mut self, variable: u32) -> Result<u32, AllocError>
        ensures number { IfOk result (λ n. number_in self.new variable ≡ Some n) }
        ensures range { IfOk result (λ n. (1 ≤ n) × (n < 2 ^ 31)) }
        ensures others { OnOk result (Extends (number_in self.old) (number_in self.new)) }
    {
        if let Some(number) = self.numbers.get(&variable) {
            return Ok(*number);
        }
        let next = number_behind(self.numbers.len())?;
        self.numbers.insert(variable, next)?;
        Ok(next)
    }

    /// The literal with its variable's number for the variable.
    fn literal(&mut self, literal: Dim) -> Result<Dim, AllocError>
        ensures literal { IfOk result (λ d. (later : ℕ → Option ℕ) (count : ℕ) →
            Extends (number_in self.new) later → d ≡ renumbered later count literal) }
        ensures others { OnOk result (Extends (number_in self.old) (number_in self.new)) }
    {
        let number = self.number(literal.var())?;
        Ok(Dim::new(number, literal.is_negated()))
    }

    /// The literals by numbers.
    fn clause(&mut self, alloc: Global, clause: &[Dim]) -> Result<Listed<Dim>, AllocError>
        ensures clause { IfOk result
            (λ copy. ByNumbers (λ f x. f x) (number_in self.new) clause.now copy) }
        ensures others { OnOk result (Extends (number_in self.old) (number_in self.new)) }
    {
        let mut copy = Vec::with_capacity(alloc, clause.len())?;
        for literal in clause {
            copy.push(self.literal(*literal)?)?;
        }
        Ok(Listed::of(copy))
    }

    /// The clauses of a formula by numbers.
    fn clauses(
        &mut self,
        alloc: Global,
        clauses: &[Listed<Dim>],
    ) -> Result<Vec<Listed<Dim>>, AllocError>
        ensures clauses { IfOk result
            (λ copy. ByNumbers map (number_in self.new) clauses.now copy.items) }
        ensures others { OnOk result (Extends (number_in self.old) (number_in self.new)) }
    {
        let mut copy = Vec::with_capacity(alloc, clauses.len())?;
        for clause in clauses {
            copy.push(self.clause(alloc, clause.as_slice())?)?;
        }
        Ok(copy)
    }

    /// A step by numbers.
    fn step(&mut self, alloc: Global, step: &LratStep) -> Result<LratStep, AllocError>
        ensures step { IfOk result (λ copy. (later : ℕ → Option ℕ) (count : ℕ) →
            Extends (number_in self.new) later → copy ≡ renamed_step (renumbered later count) step.now) }
        ensures others { OnOk result (Extends (number_in self.old) (number_in self.new)) }
    {
        match step {
            LratStep::Add { id, clause, hints } => {
                let clause = self.clause(alloc, clause.as_slice())?;
                let hints = copy_of(alloc, hints)?;
                let id = *id;
                Ok(LratStep::Add { id, clause, hints })
            }
            LratStep::Del { ids } => {
                let ids = copy_of(alloc, ids)?;
                Ok(LratStep::Del { ids })
            }
        }
    }

    /// A line by numbers.
    fn line(&mut self, alloc: Global, line: &Line) -> Result<Line, AllocError>
        ensures line { IfOk result (λ copy. (later : ℕ → Option ℕ) (count : ℕ) →
            Extends (number_in self.new) later → copy ≡ renamed_line (renumbered later count) line.now) }
        ensures others { OnOk result (Extends (number_in self.old) (number_in self.new)) }
    {
        let at = line.at;
        let step = self.step(alloc, &line.step)?;
        Ok(Line { at, step })
    }

    /// The lines by numbers.
    fn lines(&mut self, alloc: Global, lines: &[Line]) -> Result<Vec<Line>, AllocError>
        ensures lines { IfOk result
            (λ copy. ByNumbers renamed_line (number_in self.new) lines.now copy.items) }
        ensures others { OnOk result (Extends (number_in self.old) (number_in self.new)) }
    {
        let mut copy = Vec::with_capacity(alloc, lines.len())?;
        for line in lines {
            copy.push(self.line(alloc, line)?)?;
        }
        Ok(copy)
    }
}

/// The number behind so many. More variables than DIMACS has can't have one.
fn number_behind(count: usize) -> Result<u32, AllocError>
    ensures { IfOk result (λ n. (n ≡ count + 1) × (n < 2 ^ 31)) }
{
    match u32::try_from(count) {
        Ok(count) if count < (1 << 31) - 1 => Ok(count + 1),
        _ => Err(AllocError),
    }
}

fn copy_of(alloc: Global, ids: &Listed<u64>) -> Result<Listed<u64>, AllocError>
    ensures { IfOk result (λ copy. copy ≡ ids.now) }
{
    Ok(Listed::of(Vec::from_slice(alloc, ids.as_slice())?))
}

/// Formula and lines with their variables by numbers from 1 on, as many as there are variables.
pub(crate) fn renumbered(
    alloc: Global,
    formula: &[Listed<Dim>],
    lines: &[Line],
) -> Result<(Vec<Listed<Dim>>, Vec<Line>), AllocError>
    ensures { IfOk result (λ copy. AreRenamed formula.now lines.now copy.0.items copy.1.items) }
{
    let mut numbers = Numbers::new(alloc);
    let formula = numbers.clauses(alloc, formula)?;
    let lines = numbers.lines(alloc, lines)?;
    Ok((formula, lines))
}
