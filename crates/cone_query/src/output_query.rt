ghost use Rattle.std.specs.Prelude.{◌≡◌, ◌<◌, None, Some, true, [], ◌∷◌, ◌++◌, length, take, IfOk};
ghost use Rattle.lemma_book.specs.Book.{IsLegal};
ghost use Rattle.lemma_book.specs.Cone.{AreThere, IsOutputCone};
ghost use Rattle.lemma_book.specs.Entry.{about, subject_of};
ghost use Rattle.lemma_book.specs.Good.{IsGood};
ghost use Rattle.lemma_book.specs.declared.entry.Subject.TheVariants.{Output};
ghost use Rattle.cone_query.specs.Answered.{IsOutput, SettlesOutput};
ghost use Rattle.cone_query.specs.Input.{input_from};
ghost use Rattle.cone_query.specs.Query.{SeesAll, IsFalseOutside, IsWithin, IsBuilt};

use crate::copies::{copied, one_more, unit};
use crate::input::input_of;
use crate::queries::Queries;
use flat_cones::Cones;
use lemma_book::{Book, Entry};
use lits::{Clause, Hints, Listed, Lit, Literal, Node, Step};
use netlist::Net;
use std::alloc::{AllocError, Global};
use unit_prop::laws::budget;
use unit_prop::{Refuted, Refuter};

/// Asks whether both circuits give output j, which has no entry yet, one value on each admitted input:
/// `Queries::output`, for one query.
pub fn output<R: Refuter + Send>(
    alloc: Global,
    net: &Net,
    seen: &Book,
    j: u32,
    refuter: &mut R,
) -> Result<Entry, AllocError>
    requires legal { IsLegal net.now seen.now }
    requires output { j < length net.now.a.outputs }
    requires unsettled { about seen.now.entries j ≡ None }
    ensures about { IfOk result (λ e. subject_of e ≡ Some (Output j)) }
    ensures good { IfOk result (λ e. IsGood net.now seen.now e) }
    ensures seen { IfOk result (SeesAll seen.now) }
    ensures outside { IfOk result (IsFalseOutside net.now seen.now.entries) }
    ensures within { IfOk result (IsWithin net.now seen.now) }
    ensures built { IfOk result (IsBuilt (R.Refuter.log_of refuter.new)) }
{
    let mut queries = Queries::new(alloc);
    queries.output(alloc, net, seen, j, refuter)
}

/// Asks whether the output's cone implies that its XOR is false.
pub(crate) fn query<R: Refuter>(
    alloc: Global,
    net: &Net,
    seen: &Book,
    j: u32,
    cones: &mut Cones,
    refuter: &mut R,
) -> Result<Entry, AllocError>
    requires { IsOutput net.now seen.now j }
    ensures settles { IfOk result (SettlesOutput net.now seen.now j) }
    ensures built { IfOk result (IsBuilt (R.Refuter.log_of refuter.new)) }
{
    cones.output_cone(net, seen, j)?;
    refuter.start_flat(alloc, cones.base())?;
    ask(alloc, net, seen, j, refuter)
}

/// Asks whether the XOR is false, over the cone that the refuter was started with.
fn ask<R: Refuter>(
    alloc: Global,
    net: &Net,
    seen: &Book,
    j: u32,
    refuter: &mut R,
) -> Result<Entry, AllocError>
    requires output { IsOutput net.now seen.now j }
    requires cone { IsOutputCone net.now (take (length seen.now.entries) seen.now.entries)
        j (R.Refuter.base_of refuter.old) }
    requires empty { R.Refuter.log_of refuter.old ≡ [] }
    requires ready { R.Refuter.is_ready refuter.old ≡ true }
    ensures settles { IfOk result (SettlesOutput net.now seen.now j) }
    ensures built { IfOk result (IsBuilt (R.Refuter.log_of refuter.new)) }
{
    budget::budget_log_length();
    let differs = Lit {
        node: Node::Xor(j),
        neg: false,
    };
    let equal = unit(alloc, differs.not())?;
    let mut left = seen.out_budget();
    match refuter.refute(alloc, &equal, &mut left)? {
        Refuted::Yes(hints) => shown(alloc, j, refuter.log(), equal, hints),
        Refuted::No(model) => apart(alloc, net, j, model.as_slice()),
        Refuted::Spent => spent(alloc, seen, j, refuter.log()),
    }
}

/// The entry of an output that is shown to be equal, by one step after these.
fn shown(
    alloc: Global,
    j: u32,
    log: &[Step],
    equal: Clause<Lit>,
    hints: Hints,
) -> Result<Entry, AllocError>
    ensures { IfOk result
        (λ e. e ≡ Entry.Out j (log.now ++ record { clause = equal; hints = hints } ∷ [])) }
{
    let steps = one_more(alloc, log, equal, hints)?;
    Ok(Entry::Out { output: j, steps })
}

/// The entry of an output that differs in a model.
fn apart(alloc: Global, net: &Net, j: u32, model: &[Lit]) -> Result<Entry, AllocError>
    requires { AreThere net.now model.now }
    ensures { IfOk result (λ e. e ≡ Entry.OutApart j (input_from net.now model.now)) }
{
    let input = input_of(alloc, net, model)?;
    Ok(Entry::OutApart { output: j, input })
}

/// The entry of a query that spent its budget for these steps, over the whole book.
fn spent(alloc: Global, seen: &Book, j: u32, log: &[Step]) -> Result<Entry, AllocError>
    ensures { IfOk result (λ e. e ≡ Entry.OutSpent j (length seen.now.entries) log.now) }
{
    let log = copied(alloc, log)?;
    Ok(Entry::OutSpent {
        output: j,
        seen: seen.len(),
        log: Listed::of(log),
    })
}
