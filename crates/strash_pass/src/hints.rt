ghost use Rattle.std.specs.Prelude.{◌≡◌, ◌<◌, [], ◌∷◌, map, true, length, IfOk};
ghost use Rattle.std.specs.List.{position, AllByRecursion};
ghost use Rattle.lits.specs.Clause.{IsClause};
ghost use Rattle.lits.specs.Same.{same_lit, opposite};
ghost use Rattle.strash_pass.specs.Coded.{asks_word};
ghost use Rattle.strash_pass.specs.Shapes.{name_at, AreStraight};

use crate::coded::Coded;
use crate::marks::Marks;
use lits::{Clause, Hints, Lit, Ref, Step};
use std::alloc::{AllocError, Global};

/// The step of two literals, with the names of the clauses at these places as hints.
pub fn step_at(
    alloc: Global,
    coded: &[Coded],
    one: Lit,
    other: Lit,
    places: &[usize],
) -> Result<Step, AllocError>
    requires clause { IsClause same_lit opposite (one ∷ other ∷ []) }
    requires inside { AllByRecursion (λ p. p < length coded.now) places.now }
    ensures { IfOk result (λ s. (s.clause ≡ one ∷ other ∷ [])
        × (s.hints ≡ map (name_at coded.now) places.now)) }
{
    let clause = Clause::from_slice(alloc, &[one, other])?;
    let hints = Hints::of(names_at(alloc, coded, places)?);
    Ok(Step { clause, hints })
}

/// The names of the clauses at these places.
fn names_at(alloc: Global, coded: &[Coded], places: &[usize]) -> Result<Vec<Ref>, AllocError>
    requires { AllByRecursion (λ p. p < length coded.now) places.now }
    ensures { IfOk result (λ v. v.items ≡ map (name_at coded.now) places.now) }
{
    let mut names = Vec::with_capacity(alloc, places.len())?;
    for place in places {
        names.push(coded[*place].by)?;
    }
    Ok(names)
}

/// Puts the places of the clauses that scanning from the marks on gives as hints last in a list of none, and
/// tells whether it came to an end.
///
/// Scanning asks a dozen clauses of three literals a dozen times for each merge. As words of bits a clause
/// is judged in a few instructions; with sets of literals that was half of the pass.
pub fn places_from(words: &[u64], marks: Marks, places: &mut Vec<usize>) -> Result<bool, AllocError>
    requires { places.old.items ≡ [] }
    ensures { IfOk result (λ b. b ≡ true → AreStraight words.now marks places.new.items) }
{
    let mut marks = marks;
    for _ in 0..64 {
        match first_asking(words, marks) {
            None => return Ok(false),
            Some(place) => {
                places.push(place)?;
                let open = marks.open(words[place]);
                if open == 0 {
                    return Ok(true);
                }
                marks = marks.with(open.trailing_zeros());
            }
        }
    }
    Ok(false)
}

/// The place of the first clause that asks for a hint.
fn first_asking(words: &[u64], marks: Marks) -> Option<usize>
    ensures { result ≡ position (asks_word marks) words.now }
{
    words.iter().position(|word| marks.asks(*word))
}
