ghost use Rattle.std.specs.Prelude.{◌≡◌, ◌<◌, [], codes, length, IfOk, IsSome, OnOk};
ghost use Rattle.std.specs.List.{flat_map};
ghost use Rattle.desk_port.specs.Desk.{NoCountFalls};
ghost use Rattle.desk_port.specs.Pieces.{Ends, Takes, WritesInPieces, piece};
ghost use Rattle.dimacs_text.specs.CnfText.{clause_text, header_text, cnf_text, literal_word};

use desk_port::{Desk, Pieces, PutErr};
use lits::{Clause, Dim};
use std::alloc::{AllocError, Global};
use std::marker::Model;
use tokens::{push_literal, push_number};

/// The text of a CNF on its way into the started file, in pieces.
///
/// `header` comes first, then the literals of each clause and `end_clause`, and last `finish`; all of them go to
/// one desk. So nobody has to have the clauses in a list, and no more than a piece of the text is in memory.
/// After an error nothing is said of what it holds.
#[derive(Drop)]
pub struct CnfText {
    pieces: Pieces,
    word: Vec<u8>,
}

impl Model for CnfText {
    ghost use Rattle.std.specs.Prelude.{ℕ, List};

    ghost Value = { List ℕ };

    ghost view = { λ t. t.pieces };
}

impl CnfText {
    /// No text yet.
    pub fn new(alloc: Global) -> Result<CnfText, AllocError>
        ensures { IfOk result (λ t. t ≡ []) }
    {
        let pieces = Pieces::new(alloc)?;
        Ok(CnfText {
            pieces,
            word: Vec::new(alloc),
        })
    }

    /// Puts the header line. It has the number of variables, not the greatest that occurs, so that each
    /// variable of a miter stands for a node also where no clause has it.
    pub fn header<D: Desk>(
        &mut self,
        desk: &mut D,
        variables: u32,
        count: u64,
    ) -> Result<(), PutErr>
        requires { IsSome (D.state desk.old).started }
        ensures takes { Takes (header_text variables count) self.old self.new (D.state desk.old)
            (D.state desk.new) (D.sizes desk.old) (D.sizes desk.new) result }
        ensures started { (D.state desk.new).started ≡ (D.state desk.old).started }
    {
        set_header(&mut self.word, variables, count)?;
        self.pieces.put(desk, self.word.as_slice())
    }

    /// Puts a literal of the clause that is open.
    pub fn literal<D: Desk>(&mut self, desk: &mut D, literal: Dim) -> Result<(), PutErr>
        requires { IsSome (D.state desk.old).started }
        ensures takes { Takes (literal_word literal) self.old self.new (D.state desk.old)
            (D.state desk.new) (D.sizes desk.old) (D.sizes desk.new) result }
        ensures started { (D.state desk.new).started ≡ (D.state desk.old).started }
    {
        set_literal(&mut self.word, literal)?;
        self.pieces.put(desk, self.word.as_slice())
    }

    /// Ends the clause that is open.
    pub fn end_clause<D: Desk>(&mut self, desk: &mut D) -> Result<(), PutErr>
        requires { IsSome (D.state desk.old).started }
        ensures takes { Takes (codes "0\n") self.old self.new (D.state desk.old)
            (D.state desk.new) (D.sizes desk.old) (D.sizes desk.new) result }
        ensures started { (D.state desk.new).started ≡ (D.state desk.old).started }
    {
        self.pieces.put(desk, b"0\n")
    }

    /// Puts a clause: its literals, and its end.
    pub fn clause<D: Desk>(&mut self, desk: &mut D, literals: &[Dim]) -> Result<(), PutErr>
        requires { IsSome (D.state desk.old).started }
        ensures takes { Takes (clause_text literals.now) self.old self.new (D.state desk.old)
            (D.state desk.new) (D.sizes desk.old) (D.sizes desk.new) result }
        ensures started { (D.state desk.new).started ≡ (D.state desk.old).started }
    {
        self.literals(desk, literals)?;
        self.end_clause(desk)
    }

    fn literals<D: Desk>(&mut self, desk: &mut D, literals: &[Dim]) -> Result<(), PutErr>
        requires { IsSome (D.state desk.old).started }
        ensures takes { Takes (flat_map literal_word literals.now) self.old self.new (D.state desk.old)
            (D.state desk.new) (D.sizes desk.old) (D.sizes desk.new) result }
        ensures started { (D.state desk.new).started ≡ (D.state desk.old).started }
    {
        for literal in literals {
            self.literal(desk, *literal)?;
        }
        Ok(())
    }

    /// Hands out what is left of the text.
    pub fn finish<D: Desk>(self, desk: &mut D) -> Result<(), PutErr>
        requires { IsSome (D.state desk.old).started }
        ensures ends { Ends self (D.state desk.old) (D.state desk.new) (D.sizes desk.old)
            (D.sizes desk.new) result }
        ensures started { (D.state desk.new).started ≡ (D.state desk.old).started }
        ensures less { length self < piece }
    {
        let CnfText { pieces, word: _ } = self;
        pieces.finish(desk)
    }
}

/// Writes the CNF of the clauses, over variables from 1 to `variables`, to the started file in pieces.
pub fn print<D: Desk>(
    alloc: Global,
    desk: &mut D,
    variables: u32,
    clauses: &[Clause<Dim>],
) -> Result<(), PutErr>
    requires { IsSome (D.state desk.old).started }
    ensures answer { WritesInPieces (cnf_text variables clauses.now) (D.state desk.old) (D.state desk.new)
        (D.sizes desk.old) (D.sizes desk.new) result }
    ensures counts { NoCountFalls (D.state desk.old) (D.state desk.new) }
{
    let mut text = CnfText::new(alloc)?;
    put_all(desk, &mut text, variables, clauses)?;
    text.finish(desk)
}

fn put_all<D: Desk>(
    desk: &mut D,
    text: &mut CnfText,
    variables: u32,
    clauses: &[Clause<Dim>],
) -> Result<(), PutErr>
    requires { IsSome (D.state desk.old).started }
    ensures takes { Takes (cnf_text variables clauses.now) text.old text.new (D.state desk.old)
        (D.state desk.new) (D.sizes desk.old) (D.sizes desk.new) result }
    ensures started { (D.state desk.new).started ≡ (D.state desk.old).started }
{
    text.header(desk, variables, clauses.len() as u64)?;
    put_clauses(desk, text, clauses)
}

fn put_clauses<D: Desk>(
    desk: &mut D,
    text: &mut CnfText,
    clauses: &[Clause<Dim>],
) -> Result<(), PutErr>
    requires { IsSome (D.state desk.old).started }
    ensures takes { Takes (flat_map clause_text clauses.now) text.old text.new (D.state desk.old)
        (D.state desk.new) (D.sizes desk.old) (D.sizes desk.new) result }
    ensures started { (D.state desk.new).started ≡ (D.state desk.old).started }
{
    for clause in clauses {
        text.clause(desk, clause.lits())?;
    }
    Ok(())
}

/// Makes the word the header line.
#[tactic(auto, unfolding(crate::specs::CnfText::header_text))]
fn set_header(word: &mut Vec<u8>, variables: u32, count: u64) -> Result<(), AllocError>
    ensures { OnOk result (word.new.items ≡ header_text variables count) }
{
    word.clear();
    word.extend_from_slice(b"p cnf ")?;
    push_number(word, u64::from(variables))?;
    word.extend_from_slice(b" ")?;
    push_number(word, count)?;
    word.extend_from_slice(b"\n")
}

/// Makes the word a literal of a clause, with the space behind it.
fn set_literal(word: &mut Vec<u8>, literal: Dim) -> Result<(), AllocError>
    ensures { OnOk result (word.new.items ≡ literal_word literal) }
{
    word.clear();
    push_literal(word, literal)?;
    word.extend_from_slice(b" ")
}
