ghost use Rattle.std.specs.Prelude.{◌≡◌, true, IfOk, IfSome};
ghost use Rattle.strash_pass.specs.Shapes.{words_in, AreStraight, IsFor};

use crate::coded::Coded;
use crate::hints::places_from;
use crate::marks::Marks;
use std::alloc::{AllocError, Global};
use std::marker::Model;

/// The clauses of a way by their words, with the marks where each of a merge's two clauses is false, and the
/// places of the clauses that scanning from there gives as hints.
///
/// Nodes have their bits by their order on the way, so two ways of one form have the same words, and the hints
/// of one are at the places of the other's.
#[derive(Drop)]
pub struct Shape {
    words: Vec<u64>,
    below: Marks,
    above: Marks,
    first: Vec<usize>,
    second: Vec<usize>,
}

impl Model for Shape {
    ghost use Rattle.strash_pass.specs.Shapes.{Found, IsFound};

    ghost Value = { Found };

    ghost view = { λ s. record {
      words = s.words.items;
      below = s.below;
      above = s.above;
      first = s.first.items;
      second = s.second.items;
    } };

    ghost invariant = { λ s. IsFound s.words.items s.below s.above s.first.items s.second.items };
}

impl Shape {
    /// What scanning these clauses finds; none where it comes to no end.
    pub fn of(
        alloc: Global,
        coded: &[Coded],
        below: Marks,
        above: Marks,
    ) -> Result<Option<Shape>, AllocError>
        ensures { IfOk result (λ r. IfSome r (IsFor coded.now below above)) }
    {
        let words = words_in(alloc, coded)?;
        let mut first = Vec::new(alloc);
        if !places_from(&words, below, &mut first)? {
            return Ok(None);
        }
        let mut second = Vec::new(alloc);
        if !places_from(&words, above, &mut second)? {
            return Ok(None);
        }
        Ok(Some(Shape {
            words,
            below,
            above,
            first,
            second,
        }))
    }

    /// Whether it is that of these clauses and marks.
    pub fn is_for(&self, coded: &[Coded], below: Marks, above: Marks) -> bool
        ensures { result ≡ true → IsFor coded.now below above self.now }
    {
        self.below.yes == below.yes
            && self.below.no == below.no
            && self.above.yes == above.yes
            && self.above.no == above.no
            && are_words(coded, &self.words)
    }

    /// The places of the hints of the first clause.
    pub fn first(&self) -> &[usize]
        ensures { AreStraight self.now.words self.now.below result.now }
    {
        self.first.as_slice()
    }

    /// The places of the hints of the second clause.
    pub fn second(&self) -> &[usize]
        ensures { AreStraight self.now.words self.now.above result.now }
    {
        self.second.as_slice()
    }
}

/// The clauses' words.
fn words_in(alloc: Global, coded: &[Coded]) -> Result<Vec<u64>, AllocError>
    ensures { IfOk result (λ v. v.items ≡ words_in coded.now) }
{
    let mut words = Vec::with_capacity(alloc, coded.len())?;
    for clause in coded {
        words.push(clause.word)?;
    }
    Ok(words)
}

/// Whether these are the clauses' words.
fn are_words(coded: &[Coded], words: &[u64]) -> bool
    ensures { result ≡ true → words_in coded.now ≡ words.now }
{
    if coded.len() != words.len() {
        return false;
    }
    for (k, clause) in coded.iter().enumerate() {
        if clause.word != words[k] {
            return false;
        }
    }
    true
}
