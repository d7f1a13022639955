ghost use Rattle.std.specs.Prelude.{◌≡◌, ◌+◌, ◌<◌, ◌≤◌, [], ◌++◌, length, vec_len, vec_capacity, IfOk, IsSome, OnOk};
ghost use Rattle.desk_port.specs.Desk.{NoCountFalls};
ghost use Rattle.desk_port.specs.Pieces.{Ends, Takes, WritesInPieces, piece};

use crate::desk::Desk;
use crate::errors::PutErr;
use std::alloc::{AllocError, Global};
use std::marker::Model;

/// How many bytes a whole piece has.
pub const PIECE: usize = 65_536;

/// Bytes on their way into the started file, which gets them in writes of exactly `PIECE` bytes each but the
/// last.
///
/// It holds less than a piece between calls, in room that is taken once. `put` gives it bytes, as many calls
/// as needed, and `finish` hands out what is left. Both go to the desk that the earlier calls went to. After
/// an error nothing is said of what it holds: the file has whole pieces and a first part of the next.
#[derive(Drop)]
pub struct Pieces {
    held: Vec<u8>,
}

impl Model for Pieces {
    ghost use Rattle.std.specs.Prelude.{ℕ, ◌<◌, ◌≤◌, List, vec_len, vec_capacity};
    ghost use Rattle.desk_port.specs.Pieces.{piece};

    ghost Value = { List ℕ };

    ghost view = { λ p. p.held.items };

    ghost invariant = { λ p. (vec_len p.held < piece) × (piece ≤ vec_capacity p.held) };
}

impl Pieces {
    /// No bytes yet, and room for a piece.
    pub fn new(alloc: Global) -> Result<Pieces, AllocError>
        ensures { IfOk result (λ p. p ≡ []) }
    {
        let held = Vec::with_capacity(alloc, PIECE)?;
        Ok(Pieces { held })
    }

    /// Puts the bytes behind those that were put before. Each piece goes out as soon as it is whole.
    pub fn put<D: Desk>(&mut self, desk: &mut D, bytes: &[u8]) -> Result<(), PutErr>
        requires { IsSome (D.state desk.old).started }
        ensures takes { Takes bytes.now self.old self.new (D.state desk.old) (D.state desk.new)
            (D.sizes desk.old) (D.sizes desk.new) result }
        ensures started { (D.state desk.new).started ≡ (D.state desk.old).started }
    {
        let mut rest = bytes;
        while PIECE - self.held.len() <= rest.len() {
            let (first, others) = rest.split_at(PIECE - self.held.len());
            self.fill(desk, first)?;
            rest = others;
        }
        hold(&mut self.held, rest);
        Ok(())
    }

    /// Hands out the piece that these bytes make whole.
    fn fill<D: Desk>(&mut self, desk: &mut D, bytes: &[u8]) -> Result<(), PutErr>
        requires started { IsSome (D.state desk.old).started }
        requires whole { length self.old + length bytes.now ≡ piece }
        ensures takes { Takes bytes.now self.old self.new (D.state desk.old) (D.state desk.new)
            (D.sizes desk.old) (D.sizes desk.new) result }
        ensures empty { OnOk result (self.new ≡ []) }
        ensures started { (D.state desk.new).started ≡ (D.state desk.old).started }
    {
        let kept = self.held.len();
        hold(&mut self.held, bytes);
        let answer = desk.write(self.held.as_slice());
        match answer {
            Ok(()) => self.held.clear(),
            Err(_) => self.held.truncate(kept),
        }
        answer
    }

    /// Hands out what is left, if anything is.
    pub fn finish<D: Desk>(self, desk: &mut D) -> Result<(), PutErr>
        requires { IsSome (D.state desk.old).started }
        ensures ends { Ends self (D.state desk.old) (D.state desk.new) (D.sizes desk.old)
            (D.sizes desk.new) result }
        ensures started { (D.state desk.new).started ≡ (D.state desk.old).started }
        ensures less { length self < piece }
    {
        if self.held.is_empty() {
            return Ok(());
        }
        desk.write(self.held.as_slice())
    }
}

/// Puts a text that is whole in memory into the started file, in pieces.
pub fn put_in_pieces<D: Desk>(alloc: Global, desk: &mut D, text: &[u8]) -> Result<(), PutErr>
    requires { IsSome (D.state desk.old).started }
    ensures answer { WritesInPieces text.now (D.state desk.old) (D.state desk.new) (D.sizes desk.old)
        (D.sizes desk.new) result }
    ensures counts { NoCountFalls (D.state desk.old) (D.state desk.new) }
{
    let mut pieces = Pieces::new(alloc)?;
    pieces.put(desk, text)?;
    pieces.finish(desk)
}

/// Appends the bytes, for which there is room.
fn hold(held: &mut Vec<u8>, bytes: &[u8])
    requires { vec_len held.old + length bytes.now ≤ vec_capacity held.old }
    ensures items { held.new.items ≡ held.old.items ++ bytes.now }
    ensures len { vec_len held.new ≡ vec_len held.old + length bytes.now }
    ensures room { vec_capacity held.old ≤ vec_capacity held.new }
{
    match held.extend_from_slice(bytes) {
        Ok(()) => {}
        Err(_) => unreachable!(),
    }
}
