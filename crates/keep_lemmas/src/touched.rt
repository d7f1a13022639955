ghost use Rattle.std.specs.Prelude.{◌≡◌, ◌||◌, IfOk, OnOk};
ghost use Rattle.std.specs.HashSet.{contains};
ghost use Rattle.lits.specs.Same.{same_node};
ghost use Rattle.lits.specs.declared.node.Node.{Node};
ghost use Rattle.netlist_edits.specs.Edited.{touched_by};
ghost use Rattle.keep_lemmas.specs.Keeping.{touched_node, is_node};

use lemma_book::NodeHasher;
use lits::Node;
use netlist_edits::Edit;
use std::alloc::{AllocError, Global};
use std::collections::HashSet;
use std::marker::Model;

type Nodes = HashSet<Node, NodeHasher>;

/// The edits, and the nodes that they touch, each found in constant time: a book asks for the node of each
/// literal of its steps.
#[derive(Drop)]
pub(crate) struct Touched<'a> {
    edits: &'a [Edit],
    nodes: Nodes,
}

impl<'a> Model for Touched<'a> {
    ghost use Rattle.std.specs.Prelude.{List};
    ghost use Rattle.netlist_edits.specs.declared.edit.Edit.{Edit};
    ghost use Rattle.keep_lemmas.specs.Keeping.{HasTouched};

    ghost Value = { List Edit };

    ghost view = { λ t. t.edits.now };

    ghost invariant = { λ t. HasTouched t.nodes t.edits.now };
}

impl<'a> Touched<'a> {
    /// The nodes that the edits touch.
    pub(crate) fn by(alloc: Global, edits: &'a [Edit]) -> Result<Touched<'a>, AllocError>
        ensures { IfOk result (λ t. t ≡ edits.now) }
    {
        let mut nodes = HashSet::with_hasher(alloc, NodeHasher::new());
        for edit in edits {
            add(&mut nodes, touched_node(edit))?;
        }
        Ok(Touched { edits, nodes })
    }

    /// Whether an edit touches the node.
    pub(crate) fn has(&self, node: Node) -> bool
        ensures { result ≡ touched_by self.now node }
    {
        self.nodes.contains(&node)
    }
}

/// One more node, if there is one.
fn add(nodes: &mut Nodes, node: Option<Node>) -> Result<(), AllocError>
    ensures { OnOk result ((n : Node)
        → contains same_node nodes.new n ≡ (contains same_node nodes.old n || is_node node n)) }
{
    if let Some(node) = node {
        let _ = nodes.insert(node)?;
    }
    Ok(())
}

/// The node that an edit touches: the gate that it sets or takes out, or the XOR of the output that it
/// changes. The node of a new gate is in no step that stays: either the net never had it, or an earlier edit
/// took it out, and that one touches it.
fn touched_node(edit: &Edit) -> Option<Node>
    ensures { result ≡ touched_node edit.now }
{
    match *edit {
        Edit::Set { side, lhs, .. } | Edit::Remove { side, lhs } => Some(Node::Gate(side, lhs / 2)),
        Edit::New { .. } => None,
        Edit::Out { j, .. } => Some(Node::Xor(j)),
    }
}
