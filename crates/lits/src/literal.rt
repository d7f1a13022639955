ghost use Rattle.std.specs.Prelude.{◌≡◌, ◌<◌, ◌^◌, ℕ, true, false, not};
ghost use Rattle.lits.specs.Code.{code_of_node};

use crate::node::{Node, Side};

/// A variable or its negation.
///
/// `Default` gives the literal that fills the unused room of a short clause; its value is never read.
pub trait Literal: Copy + Eq + Default {
    ghost opposite: { Self → Self };

    /// The literal of the same variable with the other sign.
    fn not(self) -> Self
        ensures { result ≡ opposite self };

    ghost code: { Self → ℕ };

    /// A number of the literal, by which tables spread or mark literals.
    fn code(self) -> u64
        ensures { result ≡ code self };

    ghost twice: { (x : Self) → opposite (opposite x) ≡ x };

    ghost exact: { (x y : Self) → Self.PartialEq.eq x y ≡ true → x ≡ y };

    ghost differs: { (x : Self) → Self.PartialEq.eq x (opposite x) ≡ false };
}

/// A node, or its negation where `neg` is set. `Const` without `neg` is true.
#[derive(Clone, Copy, PartialEq, Eq, Hash)]
pub struct Lit {
    pub node: Node,
    pub neg: bool,
}

impl Default for Lit {
    fn default() -> Lit {
        Lit {
            node: Node::Const,
            neg: false,
        }
    }
}

impl Literal for Lit {
    ghost use Rattle.std.proofs.Common.{rules};
    ghost use Rattle.lits.specs.Code.{code_of_lit};

    ghost opposite = { λ l. record l { neg = not l.neg } };

    ghost code = { code_of_lit };

    ghost twice = { Prim.search rules };

    ghost exact = { Prim.search rules };

    ghost differs = { Prim.search rules };

    fn not(self) -> Lit {
        Lit {
            node: self.node,
            neg: !self.neg,
        }
    }

    fn code(self) -> u64 {
        2 * code_of_node(self.node) + if self.neg { 1 } else { 0 }
    }
}

/// A number of the node's own, for hashing: what is left modulo 5 tells the kinds of nodes apart.
fn code_of_node(node: Node) -> u64
    ensures value { result ≡ code_of_node node }
    ensures small { result < 2 ^ 35 }
{
    match node {
        Node::Const => 0,
        Node::Input(index) => 5 * u64::from(index) + 1,
        Node::Gate(Side::A, variable) => 5 * u64::from(variable) + 2,
        Node::Gate(Side::B, variable) => 5 * u64::from(variable) + 3,
        Node::Xor(index) => 5 * u64::from(index) + 4,
    }
}
