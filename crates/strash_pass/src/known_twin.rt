ghost use Rattle.std.specs.Prelude.{◌≡◌, ◌++◌, OnOk, OnErr};
ghost use Rattle.netlist.specs.Miter.{positive};
ghost use Rattle.lemma_book.specs.Book.{IsLegal};
ghost use Rattle.lemma_book.specs.Root.{IsRoot};
ghost use Rattle.strash_pass.specs.Strash.{way_of};
ghost use Rattle.strash_pass.specs.Pass.{IsTwin, Merges};

use crate::codes::{placed, position_of};
use crate::merged::Merged;
use crate::visit::roots_of;
use crate::ways::merge_twin;
use crate::words::Words;
use lemma_book::Book;
use netlist::{Definition, Fanins, Net, laws};
use std::alloc::{AllocError, Global};

/// Merges an unmerged gate to an earlier one over the same two roots, which isn't merged either, by the steps
/// that the pass takes for such a pair: the hints that scanning the clauses of both gates' ways gives.
///
/// The caller knows the twin, so there is no table and no other gate is looked at: who made a gate from another
/// one shows the two equal at the cost of their fanins' ways. Where memory is refused the book is as it was.
pub fn merge_to_twin(
    alloc: Global,
    net: &Net,
    book: &mut Book,
    words: &mut Words,
    gate: Definition,
    twin: Definition,
) -> Result<(), AllocError>
    requires legal { IsLegal net.now book.old }
    requires unmerged { IsRoot book.old.entries gate.node }
    requires twin { IsTwin net.now book.old.entries twin gate }
    ensures legal { IsLegal net.now book.new }
    ensures ok { OnOk result (Merges net.now book.old book.new
        (way_of book.old.entries gate ++ way_of book.old.entries twin) gate.node (positive twin.node)) }
    ensures err { OnErr result (book.new ≡ book.old) }
{
    laws::is_net(net);
    let mut merged = Merged::none(alloc);
    let mut way = Vec::new(alloc);
    let fanins = Fanins {
        left: placed(net, gate.left),
        right: placed(net, gate.right),
    };
    let own = position_of(net, gate.node);
    let roots = roots_of(net, book, &merged, gate, fanins, &mut way)?;
    merge_twin(
        alloc,
        net,
        book,
        &mut merged,
        words,
        gate,
        own,
        twin,
        roots,
        &mut way,
    )
}
