ghost use Rattle.std.specs.Prelude.{◌≡◌, List, [], IfSome, IfNone, IfOk, IfErr, OnErr};
ghost use Rattle.lrat_text.specs.declared.step.Line.{Line};
ghost use Rattle.lrat_text.specs.Reading.{step_of, steps_in, words_in, listed, Gives};
ghost use Rattle.lrat_text.specs.Lines.{steps_left, whole_text, GivesNext, GivesForm, IsNextLine, StopsAt, behind_said};

use crate::error::LratErr;
use crate::reading::{id_after, step_of};
use crate::step::{Line, LratStep};
use byte_scan::Scan;
use std::alloc::Global;
use std::marker::Model;

/// A proof text that is read line by line, so that a reader needs no list of its lines.
#[derive(Drop)]
pub struct Lines<'a> {
    scan: Scan<'a>,
    /// How many lines lie behind.
    behind: u64,
    /// The id of the last addition in them, at first the number of the formula's clauses.
    last: u64,
}

impl<'a> Model for Lines<'a> {
    ghost use Rattle.byte_scan.specs.Scanning.{ahead};
    ghost use Rattle.lrat_text.specs.Lines.{Rest, AreBehind};

    ghost Value = { Rest };

    ghost view = { λ l. record { behind = l.behind; last = l.last; bytes = ahead l.scan } };

    ghost invariant = { λ l. AreBehind l.behind l.scan };
}

impl<'a> Lines<'a> {
    /// All lines of a proof text, for a formula of `m` clauses.
    pub fn new(bytes: &'a [u8], m: u64) -> Lines<'a>
        ensures { result ≡ whole_text m bytes.now }
    {
        Lines {
            scan: Scan::new(bytes),
            behind: 0,
            last: m,
        }
    }

    /// The next line that says a step, if there is one, whatever the lines behind it are. Lines are ended by
    /// LF or by the end of the bytes. A line that has a fault, or for which memory is refused, then lies behind,
    /// and the next call goes on with the line behind it.
    pub fn next(&mut self, alloc: Global) -> Result<Option<Line>, LratErr>
        ensures { GivesNext result self.old self.new }
    {
        while let Some(line) = self.next_line() {
            if let Some(step) = self.step_in(alloc, line)? {
                let at = self.behind;
                return Ok(Some(Line { at, step }));
            }
        }
        Ok(None)
    }

    /// Reads the lines that are left for their form alone. Where one has a fault, or memory is refused for it,
    /// the lines behind it are left.
    pub fn skip_rest(&mut self, alloc: Global) -> Result<(), LratErr>
        ensures form { GivesForm result (steps_left self.old) }
        ensures end { IfOk result (λ u. self.new.bytes ≡ []) }
        ensures stops { IfErr result (λ e. (steps : List Line) × StopsAt e steps self.old self.new) }
    {
        while let Some(_) = self.next(alloc)? {}
        Ok(())
    }

    /// The bytes of the next line, which then lies behind, if there is one.
    fn next_line(&mut self) -> Option<&'a [u8]>
        ensures line { IfSome result (λ line. IsNextLine line.now self.old self.new) }
        ensures none { IfNone result ((self.old.bytes ≡ []) × (self.new.bytes ≡ [])) }
    {
        let line = self.scan.line()?;
        self.behind += 1;
        Some(line)
    }

    /// The step that the line before says, if it says one.
    fn step_in(&mut self, alloc: Global, line: &[u8]) -> Result<Option<LratStep>, LratErr>
        ensures said { Gives result (step_of self.old.behind self.old.last (words_in line.now)) }
        ensures rest { IfOk result (λ said. self.new ≡ behind_said self.old said) }
        ensures fault { OnErr result (self.new ≡ self.old) }
    {
        let said = step_of(alloc, self.behind, self.last, line)?;
        if let Some(step) = &said {
            self.last = id_after(self.last, step);
        }
        Ok(said)
    }
}

/// Reads a proof text, for a formula of `m` clauses.
pub fn read(alloc: Global, bytes: &[u8], m: u64) -> Result<Vec<Line>, LratErr>
    ensures { Gives (listed result) (steps_in m bytes.now) }
{
    let mut lines = Vec::new(alloc);
    let mut text = Lines::new(bytes, m);
    while let Some(line) = text.next(alloc)? {
        lines.push(line)?;
    }
    Ok(lines)
}
