ghost use Rattle.std.specs.Prelude.{◌≡◌, ◌<◌, ◌≤◌, ◌^◌, ◌↔◌, not, IsSome, IfSome};

use crate::literal::Literal;
use std::marker::Model;

/// A literal of a DIMACS file: a variable from 1 to 2,147,483,647, or its negation where `neg` is set.
#[derive(Clone, Copy, PartialEq, Eq)]
pub struct Dim {
    var: u32,
    neg: bool,
}

impl Model for Dim {
    ghost use Rattle.std.specs.Prelude.{◌<◌, ◌≤◌, ◌^◌};
    ghost use Rattle.lits.specs.Dimacs.{DimacsLiteral};

    ghost Value = { DimacsLiteral };

    ghost view = { λ d. record { var = d.var; neg = d.neg } };

    ghost invariant = { λ d. (1 ≤ d.var) × (d.var < 2 ^ 31) };

    ghost inverse = { λ d. record { var = d.var; neg = d.neg } };
}

impl Dim {
    ghost use Rattle.lits.specs.Dimacs.{number_of, HasNumber};

    /// The literal of a variable from 1 to 2,147,483,647, negated where `neg` is set.
    pub fn new(var: u32, neg: bool) -> Dim
        requires { (1 ≤ var) × (var < 2 ^ 31) }
        ensures { result ≡ record { var = var; neg = neg } }
    {
        Dim { var, neg }
    }

    /// The variable, from 1 to 2,147,483,647.
    pub fn var(self) -> u32
        ensures var { result ≡ self.var }
        ensures range { (1 ≤ result) × (result < 2 ^ 31) }
    {
        self.var
    }

    /// Whether the literal is a negated variable.
    pub fn is_negated(self) -> bool
        ensures { result ≡ self.neg }
    {
        self.neg
    }

    /// The literal that a DIMACS file writes as `number`; none exactly for 0 and for -2,147,483,648.
    pub fn of(number: i32) -> Option<Dim>
        ensures some { IsSome result ↔ HasNumber number }
        ensures value { IfSome result (λ d. number_of d ≡ number) }
    {
        match number {
            0 | i32::MIN => None,
            _ => Some(Dim {
                var: number.unsigned_abs(),
                neg: number < 0,
            }),
        }
    }
}

impl Default for Dim {
    fn default() -> Dim {
        Dim { var: 1, neg: false }
    }
}

impl Literal for Dim {
    ghost use Rattle.std.proofs.Common.{rules};
    ghost use Rattle.lits.specs.Code.{code_of_dim};

    ghost opposite = { λ d. record d { neg = not d.neg } };

    ghost code = { code_of_dim };

    ghost twice = { Prim.search rules };

    ghost exact = { Prim.search rules };

    ghost differs = { Prim.search rules };

    fn not(self) -> Dim {
        Dim {
            var: self.var,
            neg: !self.neg,
        }
    }

    fn code(self) -> u64 {
        2 * u64::from(self.var) + if self.neg { 1 } else { 0 }
    }
}
