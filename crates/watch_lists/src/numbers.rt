ghost use Rattle.std.specs.Prelude.{◌≡◌, ◌<◌, ◌++◌, ◌∷◌, [], false, length, slice_index_or, OnOk, OnErr, IfSome, IfNone};
ghost use Rattle.lits.specs.Clause.{has};
ghost use Rattle.lits.specs.Same.{same_node};
ghost use Rattle.lits.specs.declared.node.Node.TheVariants.{Const};

use lits::{Lit, LiteralSet, Node};
use std::alloc::{AllocError, Global};
use std::marker::Model;

/// The variables in the order in which they came, each found by one hashed probe.
#[derive(Drop)]
pub(crate) struct Numbers {
    /// Their literals without a sign.
    set: LiteralSet<Lit>,
}

impl Model for Numbers {
    ghost use Rattle.std.specs.Prelude.{List, map};
    ghost use Rattle.lits.specs.declared.node.Node.{Node};
    ghost use Rattle.watch_lists.specs.Numbers.{AreVariables};

    ghost Value = { List Node };

    ghost view = { λ n. map (λ l. l.node) n.set };

    ghost invariant = { λ n. AreVariables n.set };
}

impl Numbers {
    pub(crate) fn new(alloc: Global) -> Numbers
        ensures { result ≡ [] }
    {
        Numbers {
            set: LiteralSet::new(alloc),
        }
    }

    pub(crate) fn len(&self) -> usize
        ensures { result ≡ length self.now }
    {
        self.set.lits().len()
    }

    /// The variable of a number.
    pub(crate) fn get(&self, number: usize) -> Node
        requires { number < length self.now }
        ensures { result ≡ slice_index_or self.now number Const }
    {
        self.set.lits()[number].node
    }

    /// The number of a variable.
    pub(crate) fn find(&self, node: Node) -> Option<usize>
        ensures some { IfSome result (λ n. (n < length self.now) × (slice_index_or self.now n Const ≡ node)) }
        ensures none { IfNone result (has same_node self.now node ≡ false) }
    {
        self.set.place(Lit { node, neg: false })
    }

    /// Numbers a variable that has no number.
    pub(crate) fn push(&mut self, node: Node) -> Result<(), AllocError>
        requires { has same_node self.old node ≡ false }
        ensures ok { OnOk result (self.new ≡ self.old ++ node ∷ []) }
        ensures err { OnErr result (self.new ≡ self.old) }
    {
        self.set.push(Lit { node, neg: false })
    }

    /// Takes every number back.
    pub(crate) fn clear(&mut self)
        ensures { self.new ≡ [] }
    {
        self.set.clear();
    }
}
