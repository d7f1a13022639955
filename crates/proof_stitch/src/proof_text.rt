ghost use Rattle.std.specs.Prelude.{◌≡◌, ◌+◌, ◌<◌, [], length, IfOk, IsSome, OnOk};
ghost use Rattle.desk_port.specs.Pieces.{Ends, Takes, piece};
ghost use Rattle.lrat_text.specs.Steps.{id_after};
ghost use Rattle.lrat_text.specs.Writing.{line_text};
ghost use Rattle.proof_stitch.specs.Progress.{counted};

use desk_port::{Desk, Pieces, PutErr};
use lrat_text::{LratStep, push_line};
use std::alloc::{AllocError, Global};

/// The text of a proof on its way into the started file, the id of its last addition, and how many lines it has.
///
/// The lines go out in pieces, so that no more than a piece and one line is in memory: the whole text was a seventh
/// of what a check of two multipliers of 6 bits held at its peak. All lines and `finish` go to one desk. After an
/// error nothing is said of what it holds.
#[derive(Drop)]
pub struct ProofText {
    pub pieces: Pieces,
    pub line: Vec<u8>,
    pub last: u64,
    pub lines: u64,
}

impl ProofText {
    /// No line yet, behind a formula of `last` clauses.
    pub fn new(alloc: Global, last: u64) -> Result<ProofText, AllocError>
        ensures pieces { IfOk result (λ p. p.pieces ≡ []) }
        ensures last { IfOk result (λ p. p.last ≡ last) }
        ensures lines { IfOk result (λ p. p.lines ≡ 0) }
    {
        let pieces = Pieces::new(alloc)?;
        Ok(ProofText {
            pieces,
            line: Vec::new(alloc),
            last,
            lines: 0,
        })
    }

    /// Puts a line.
    pub fn push<D: Desk>(&mut self, desk: &mut D, line: &LratStep) -> Result<(), PutErr>
        requires { IsSome (D.state desk.old).started }
        ensures takes { Takes (line_text self.old.last line.now) self.old.pieces self.new.pieces
            (D.state desk.old) (D.state desk.new) (D.sizes desk.old) (D.sizes desk.new) result }
        ensures started { (D.state desk.new).started ≡ (D.state desk.old).started }
        ensures last { OnOk result (self.new.last ≡ id_after self.old.last line.now) }
        ensures lines { OnOk result (counted self.new.lines ≡ counted (self.old.lines + 1)) }
    {
        self.line.clear();
        push_line(&mut self.line, self.last, line)?;
        self.pieces.put(desk, self.line.as_slice())?;
        self.lines = self.lines.saturating_add(1);
        if let LratStep::Add { id, .. } = line {
            self.last = *id;
        }
        Ok(())
    }

    /// Hands out what is left of the text.
    pub fn finish<D: Desk>(self, desk: &mut D) -> Result<(), PutErr>
        requires { IsSome (D.state desk.old).started }
        ensures ends { Ends self.pieces (D.state desk.old) (D.state desk.new) (D.sizes desk.old)
            (D.sizes desk.new) result }
        ensures less { length self.pieces < piece }
    {
        let ProofText { pieces, .. } = self;
        pieces.finish(desk)
    }
}
