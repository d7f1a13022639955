ghost use Rattle.std.specs.Prelude.{◌≡◌, ◌<◌, None, [], ◌∷◌, ◌++◌, length, IfOk, IfSome, IfNone};
ghost use Rattle.lemma_book.specs.Book.{IsLegal};
ghost use Rattle.lemma_book.specs.Entry.{about};
ghost use Rattle.lemma_book.specs.Good.{IsGood};
ghost use Rattle.equal_outputs.specs.EqualRoots.{AreShown, HasFewSteps, HaveOneRoot, HaveOtherRoots, IsOutOf, IsUnsettled, IsWayTo};

use lemma_book::{Book, Entry};
use lits::{Clause, Hints, Listed, Lit, Literal, Named, Node, Ref, Step};
use netlist::{Net, laws};
use std::alloc::{AllocError, Global};
use unit_prop::{scan, scanned_step};

/// The entry of output j, which has none yet, where its two literals have one root; none exactly where their
/// roots differ.
///
/// Where the sweep has merged what is equal, most outputs are such. No query is made: the clauses of the XOR
/// and of the merges on the two paths show it, so the work is that of the paths, and not that of the cone.
pub fn equal_output(
    alloc: Global,
    net: &Net,
    seen: &Book,
    j: u32,
) -> Result<Option<Entry>, AllocError>
    requires legal { IsLegal net.now seen.now }
    requires output { j < length net.now.a.outputs }
    requires unsettled { about seen.now.entries j ≡ None }
    ensures equal { IfOk result (λ o. IfSome o (IsOutOf j)) }
    ensures good { IfOk result (λ o. IfSome o (IsGood net.now seen.now)) }
    ensures few { IfOk result (λ o. IfSome o HasFewSteps) }
    ensures apart { IfOk result (λ o. IfNone o (HaveOtherRoots net.now seen.now.entries j)) }
    ensures together { IfOk result (λ o. IfSome o (λ e. HaveOneRoot net.now seen.now.entries j)) }
{
    laws::is_net(net);
    entry_of_equal_roots(alloc, net, seen, j)
}

/// The same of an output that is known to be there, with no entry.
fn entry_of_equal_roots(
    alloc: Global,
    net: &Net,
    seen: &Book,
    j: u32,
) -> Result<Option<Entry>, AllocError>
    requires { IsUnsettled net.now seen.now j }
    ensures equal { IfOk result (λ o. IfSome o (IsOutOf j)) }
    ensures good { IfOk result (λ o. IfSome o (IsGood net.now seen.now)) }
    ensures few { IfOk result (λ o. IfSome o HasFewSteps) }
    ensures apart { IfOk result (λ o. IfNone o (HaveOtherRoots net.now seen.now.entries j)) }
    ensures together { IfOk result (λ o. IfSome o (λ e. HaveOneRoot net.now seen.now.entries j)) }
{
    let differs = Lit {
        node: Node::Xor(j),
        neg: false,
    };
    let xor = match net.definition(differs.node) {
        Some(definition) => definition,
        None => unreachable!(),
    };
    let mut way = Vec::new(alloc);
    way.push(differs)?;
    let left = seen.root_by(xor.left, &mut way)?;
    let right = seen.root_by(xor.right, &mut way)?;
    if left != right {
        return Ok(None);
    }
    let mut base = seen.clauses_on(alloc, net, seen.len(), &way)?;
    let steps = steps_to(alloc, &mut base, differs.not(), xor.left)?;
    Ok(Some(Entry::Out {
        output: j,
        steps: Listed::of(steps),
    }))
}

/// The steps that show the literal from the base: one where unit propagation does it at once, else two, of
/// which the first shows that `half` is true otherwise, and then has its clause in the base.
fn steps_to(
    alloc: Global,
    base: &mut Vec<Named>,
    lit: Lit,
    half: Lit,
) -> Result<Vec<Step>, AllocError>
    requires { IsWayTo base.old.items lit half }
    ensures { IfOk result (λ v. AreShown base.old.items lit half v.items) }
{
    let clause = Clause::from_slice(alloc, &[lit])?;
    match scan(alloc, base, &clause)? {
        Some(hints) => {
            let hints = Hints::of(hints);
            with_last(Vec::new(alloc), Step { clause, hints })
        }
        None => two_steps_to(alloc, base, lit, half),
    }
}

/// The two steps: either literal is true, and so the first one is.
fn two_steps_to(
    alloc: Global,
    base: &mut Vec<Named>,
    lit: Lit,
    half: Lit,
) -> Result<Vec<Step>, AllocError>
    requires { IsWayTo base.old.items lit half }
    ensures { IfOk result (λ v. AreShown base.old.items lit half v.items) }
{
    let first = scanned_step(alloc, base, &[lit, half])?;
    base.push(Named {
        clause: first.clause.copy()?,
        by: Ref::Own(0),
    })?;
    let second = scanned_step(alloc, base, &[lit])?;
    let steps = with_last(Vec::new(alloc), first)?;
    with_last(steps, second)
}

/// The steps with one more.
fn with_last(steps: Vec<Step>, last: Step) -> Result<Vec<Step>, AllocError>
    ensures { IfOk result (λ v. v.items ≡ steps.items ++ last ∷ []) }
{
    let mut steps = steps;
    steps.push(last)?;
    Ok(steps)
}
