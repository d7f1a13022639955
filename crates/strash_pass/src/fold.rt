ghost use Rattle.std.specs.Prelude.{◌≡◌};
ghost use Rattle.strash_pass.specs.Strash.{folded};

use lits::{Lit, Literal, Node};

/// The literal that the AND of two literals comes to by itself, if it does (constant propagation and
/// the rules of idempotence and contradiction).
pub fn folded(a: Lit, b: Lit) -> Option<Lit>
    ensures { result ≡ folded a b }
{
    let yes = Lit {
        node: Node::Const,
        neg: false,
    };
    let no = Lit {
        node: Node::Const,
        neg: true,
    };
    if a == no || b == no || a == b.not() {
        return Some(no);
    }
    if a == yes {
        return Some(b);
    }
    if b == yes || a == b {
        return Some(a);
    }
    None
}
