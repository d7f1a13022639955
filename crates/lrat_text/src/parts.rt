ghost use Rattle.std.specs.Prelude.{◌≡◌, ◌≤◌, ◌^◌, ◌<◌, false, List, [], ◌∷◌, ◌++◌, OnOk, IfOk, IfErr, IfSome, IsSomeAnd};
ghost use Rattle.tokens.specs.Numbers.{numbers_in};
ghost use Rattle.lrat_text.specs.Numbers.{in_place, literal_of};
ghost use Rattle.lrat_text.specs.Reading.{words_in};

use crate::error::LratErr;
use byte_scan::NUMBER_LIMIT;
use lits::Dim;
use std::alloc::Global;
use tokens::{Number, Space, Words, number_in};

/// Which numbers of a line come next.
#[derive(Clone, Copy)]
pub(crate) enum Place {
    Literals,
    Hints,
    End,
}

/// What a line says, as far as it is read.
#[derive(Drop)]
pub(crate) struct Parts {
    pub(crate) literals: Vec<Dim>,
    pub(crate) hints: Vec<u64>,
    /// Whether some hint is negative.
    pub(crate) has_minus: bool,
    pub(crate) place: Place,
}

impl Parts {
    ghost use Rattle.tokens.specs.declared.number.Number.{Number};
    ghost use Rattle.lrat_text.specs.Parts.{zeros_before, is_past_hints, IsParts, IsBadNumber};

    /// Nothing but that the line is read from this place on.
    fn new(alloc: Global, place: Place) -> Parts
        ensures { IsParts (zeros_before place) result }
    {
        Parts {
            literals: Vec::new(alloc),
            hints: Vec::new(alloc),
            has_minus: false,
            place,
        }
    }

    /// What line `at` says from the place on, up to its end.
    pub(crate) fn read(alloc: Global, at: u64, place: Place, line: &[u8]) -> Result<Parts, LratErr>
        ensures ok { IfOk result (λ parts. IsSomeAnd (numbers_in (words_in line.now))
            (λ ns. IsParts (zeros_before place ++ ns) parts)) }
        ensures err { IfErr result (λ e. IsBadNumber at e (IfSome (numbers_in (words_in line.now))
            (λ ns. in_place (zeros_before place ++ ns) ≡ false))) }
    {
        let mut parts = Parts::new(alloc, place);
        for word in Words::<Space>::new(line) {
            let number = number_in(word).ok_or(LratErr::BadNumber(at))?;
            parts.add(at, number)?;
        }
        Ok(parts)
    }

    /// Whether the 0 behind the hints is read.
    pub(crate) fn is_ended(&self) -> bool
        ensures { result ≡ is_past_hints self.now.place }
    {
        matches!(self.place, Place::End)
    }

    /// Puts the next number of line `at` into its part.
    fn add(&mut self, at: u64, number: Number) -> Result<(), LratErr>
        ensures ok { OnOk result ((ns : List Number) →
            IsParts ns self.old → IsParts (ns ++ number ∷ []) self.new) }
        ensures err { IfErr result (λ e. IsBadNumber at e ((ns more : List Number) →
            IsParts ns self.old → in_place (ns ++ number ∷ more) ≡ false)) }
    {
        match self.place {
            Place::Literals if number.size == 0 => self.place = Place::Hints,
            Place::Literals => self.literals.push(literal(at, number)?)?,
            Place::Hints if number.size == 0 => self.place = Place::End,
            Place::Hints => {
                if number.size >= NUMBER_LIMIT {
                    return Err(LratErr::BadNumber(at));
                }
                self.hints.push(number.size)?;
                self.has_minus |= number.minus;
            }
            Place::End => return Err(LratErr::BadNumber(at)),
        }
        Ok(())
    }
}

/// The literal that the number stands for.
fn literal(at: u64, number: Number) -> Result<Dim, LratErr>
    requires { 1 ≤ number.size }
    ensures ok { IfOk result (λ d. (d ≡ literal_of number) × (number.size < 2 ^ 31)) }
    ensures err { IfErr result (λ e. (e ≡ LratErr.BadNumber at) × (2 ^ 31 ≤ number.size)) }
{
    match u32::try_from(number.size) {
        Ok(var) if var < 1 << 31 => Ok(Dim::new(var, number.minus)),
        _ => Err(LratErr::BadNumber(at)),
    }
}
