ghost use Rattle.std.specs.Prelude.{◌≡◌, true, false, IfOk, IfErr, OnOk};
ghost use Rattle.std.specs.List.{list_any};
ghost use Rattle.lits.specs.Clause.{has, firsts, has_pair, IsClause, Adds};

use crate::literal::Literal;
use crate::literal_set::LiteralSet;
use std::alloc::{AllocError, AllocFailed, Global};
use std::marker::Model;

/// Why there is no clause of the literals.
#[derive(Clone, Copy, Debug, PartialEq, Eq)]
pub enum ClauseErr {
    /// A literal stands beside its negation.
    Tautology,
    NoMemory,
}

impl From<AllocError> for ClauseErr {
    ghost use Rattle.std.specs.Prelude.{◌≡◌};
    ghost use Rattle.lits.specs.declared.clause.ClauseErr.TheVariants.{NoMemory};

    ghost from_gives = { λ _ e. e ≡ NoMemory };

    fn from(_error: AllocError) -> ClauseErr {
        ClauseErr::NoMemory
    }
}

impl<T: Drop> From<AllocFailed<T>> for ClauseErr {
    ghost use Rattle.std.specs.Prelude.{◌≡◌};
    ghost use Rattle.lits.specs.declared.clause.ClauseErr.TheVariants.{NoMemory};

    ghost from_gives = { λ _ e. e ≡ NoMemory };

    fn from(_failed: AllocFailed<T>) -> ClauseErr {
        ClauseErr::NoMemory
    }
}

/// A clause: a disjunction of literals without repeats and without a complementary pair.
pub struct Clause<L: Literal> {
    lits: Vec<L>,
}

// Written out, so that a drop is one call and not one for each field at each exit of a function.
impl<L: Literal> Drop for Clause<L> {
    fn drop(self) {
        let Clause { lits: _ } = self;
    }
}

impl<L: Literal> Model for Clause<L> {
    ghost use Rattle.std.specs.Prelude.{List};
    ghost use Rattle.lits.specs.Clause.{IsClause};

    ghost Value = { List L };

    ghost view = { λ c. c.lits.items };

    ghost invariant = { λ c. IsClause L.PartialEq.eq L.Literal.opposite c.lits.items };
}

impl<L: Literal> Clause<L> {
    /// The clause of the literals, with the first of each repeated one.
    pub fn of(alloc: Global, lits: &[L]) -> Result<Clause<L>, ClauseErr>
        ensures kept { IfOk result (λ c. c ≡ firsts L.PartialEq.eq lits.now) }
        ensures clause { OnOk result (has_pair L.PartialEq.eq L.Literal.opposite lits.now ≡ false) }
        ensures tautology { IfErr result
            (λ e. e ≡ ClauseErr.Tautology → has_pair L.PartialEq.eq L.Literal.opposite lits.now ≡ true) }
    {
        // A list that grows by pushes has room for four literals, and most clauses of a book have two.
        let mut kept = LiteralSet::with_capacity(alloc, lits.len())?;
        for lit in lits {
            add(&mut kept, *lit)?;
        }
        Ok(Clause {
            lits: kept.into_vec(),
        })
    }

    /// The clause of literals that make one.
    pub fn from_slice(alloc: Global, lits: &[L]) -> Result<Clause<L>, AllocError>
        requires { IsClause L.PartialEq.eq L.Literal.opposite lits.now }
        ensures { IfOk result (λ c. c ≡ lits.now) }
    {
        Ok(Clause {
            lits: Vec::from_slice(alloc, lits)?,
        })
    }

    /// The literals, in order.
    pub fn lits(&self) -> &[L]
        ensures lits { result.now ≡ self.now }
        ensures clause { IsClause L.PartialEq.eq L.Literal.opposite self.now }
    {
        self.lits.as_slice()
    }

    /// Whether the literal is in the clause.
    pub fn has(&self, lit: L) -> bool
        ensures { result ≡ has L.PartialEq.eq self.now lit }
    {
        self.lits.as_slice().contains(&lit)
    }

    /// Whether some literal of the clause is in the list, as it is where the list's literals are true.
    pub fn holds(&self, list: &[L]) -> bool
        ensures { result ≡ list_any (λ l. has L.PartialEq.eq list.now l) self.now }
    {
        self.lits.as_slice().iter().any(|l| list.contains(l))
    }

    /// The same clause once more.
    pub fn copy(&self) -> Result<Clause<L>, AllocError>
        ensures { IfOk result (λ c. c ≡ self.now) }
    {
        Clause::from_slice(*self.lits.allocator(), self.lits())
    }
}

/// Puts a literal last, unless it is there already.
fn add<L: Literal>(kept: &mut LiteralSet<L>, lit: L) -> Result<(), ClauseErr>
    ensures ok { OnOk result (Adds L.PartialEq.eq L.Literal.opposite kept.old lit kept.new) }
    ensures pair { IfErr result
        (λ e. e ≡ ClauseErr.Tautology → has L.PartialEq.eq kept.old (L.Literal.opposite lit) ≡ true) }
{
    if kept.has(lit.not()) {
        return Err(ClauseErr::Tautology);
    }
    Ok(kept.add(lit)?)
}
