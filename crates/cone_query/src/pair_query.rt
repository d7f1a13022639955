ghost use Rattle.std.specs.Prelude.{◌≡◌, ◌≤◌, Some, true, false, [], ◌∷◌, ◌++◌, length, IfOk, OnOk};
ghost use Rattle.std.specs.Option.{IsSome};
ghost use Rattle.netlist.specs.Net.{position_of, value_of};
ghost use Rattle.flat_base.specs.Flat.{named_of};
ghost use Rattle.lemma_book.specs.Book.{IsLegal};
ghost use Rattle.lemma_book.specs.Cone.{AreThere};
ghost use Rattle.lemma_book.specs.Good.{IsGood, IsEarlier};
ghost use Rattle.lemma_book.specs.Root.{IsRoot};
ghost use Rattle.cone_query.specs.Input.{input_from};
ghost use Rattle.cone_query.specs.Query.{task_of, SeesAll, IsFalseOutside, IsWithin, IsBuilt, IsUnnamed, IsSetAlone, IsGate};
ghost use Rattle.cone_query.specs.Asked.{IsPair, IsQuery, IsImplication, IsAsked, IsBaseOf, IsNamedInput, Settles, IsBuiltAsked};

use crate::copies::copied;
use crate::input::{input_of, other_value, set};
use crate::queries::Queries;
use flat_cones::Cones;
use lemma_book::{Book, Entry, Task};
use lits::{Clause, Listed, Lit, Literal, Node, Side, Step};
use netlist::{Net, laws};
use std::alloc::{AllocError, Global};
use unit_prop::laws::budget;
use unit_prop::{Refuted, Refuter};

/// Asks whether a gate, which isn't merged yet, has the value of a literal of an earlier node, for at
/// most the book's budget of learned clauses.
///
/// `Queries::pair`, for one query.
pub fn pair<R: Refuter + Send>(
    alloc: Global,
    net: &Net,
    seen: &Book,
    task: &Task,
    refuter: &mut R,
) -> Result<Entry, AllocError>
    requires legal { IsLegal net.now seen.now }
    requires gate { IsGate task.now.node }
    requires root { IsRoot seen.now.entries task.now.node }
    requires earlier { IsEarlier net.now task.now.node task.now.lit }
    ensures about { IfOk result (λ e. task_of e ≡ Some task.now) }
    ensures good { IfOk result (λ e. IsGood net.now seen.now e) }
    ensures seen { IfOk result (SeesAll seen.now) }
    ensures outside { IfOk result (IsFalseOutside net.now seen.now.entries) }
    ensures within { IfOk result (IsWithin net.now seen.now) }
    ensures built { IfOk result (IsBuilt (R.Refuter.log_of refuter.new)) }
    ensures alone { IfOk result (λ e. IsUnnamed net.now seen.now.entries task.now → IsSetAlone e) }
    ensures unasked { OnOk result (IsUnnamed net.now seen.now.entries task.now → refuter.new ≡ refuter.old) }
{
    let mut queries = Queries::new(alloc);
    queries.pair(alloc, net, seen, task, refuter)
}

/// Settles a pair by a query, or without one where no clause names its input.
pub(crate) fn settle<R: Refuter + Send>(
    alloc: Global,
    net: &Net,
    seen: &Book,
    task: &Task,
    cones: &mut Cones,
    refuter: &mut R,
) -> Result<Entry, AllocError>
    requires pair { IsPair net.now seen.now task.now }
    requires gate { IsGate task.now.node }
    ensures settles { IfOk result (Settles net.now seen.now task.now) }
    ensures built { IfOk result (IsBuilt (R.Refuter.log_of refuter.new)) }
    ensures alone { IfOk result (λ e. IsUnnamed net.now seen.now.entries task.now → IsSetAlone e) }
    ensures unasked { OnOk result (IsUnnamed net.now seen.now.entries task.now → refuter.new ≡ refuter.old) }
{
    if !make_cone(net, seen, task, cones)? {
        return set_apart(alloc, net, seen, task);
    }
    refuter.start_flat(alloc, cones.base())?;
    let mut left = seen.sweep_budget();
    both_ways(alloc, net, seen, task, refuter, &mut left)
}

/// Makes the cone of both nodes. Answers false where the literal is that of an input that no clause of the
/// gate's cone names.
///
/// The gate's cone that names the input is the cone of both, so one cone is made in either case.
fn make_cone(net: &Net, seen: &Book, task: &Task, cones: &mut Cones) -> Result<bool, AllocError>
    requires { IsPair net.now seen.now task.now }
    ensures cone { IfOk result (λ b. b ≡ true → IsBaseOf net.now seen.now task.now (named_of cones.new.base)) }
    ensures named { IfOk result (λ b. b ≡ true → IsNamedInput net.now seen.now.entries task.now) }
    ensures unnamed { IfOk result (λ b. b ≡ false → IsUnnamed net.now seen.now.entries task.now) }
{
    let node = Lit {
        node: task.node,
        neg: false,
    };
    let Node::Input(_) = task.lit.node else {
        cones.cone(net, seen, &[node, task.lit])?;
        return Ok(true);
    };
    cones.cone(net, seen, &[node])?;
    Ok(cones.names(net, task.lit.node))
}

/// Asks for both implications between the pair, over the cone that the refuter was started with.
fn both_ways<R: Refuter + Send>(
    alloc: Global,
    net: &Net,
    seen: &Book,
    task: &Task,
    refuter: &mut R,
    left: &mut u64,
) -> Result<Entry, AllocError>
    requires pair { IsPair net.now seen.now task.now }
    requires query { IsQuery net.now seen.now task.now
        (R.Refuter.base_of refuter.old) (R.Refuter.log_of refuter.old) left.old }
    requires ready { R.Refuter.is_ready refuter.old ≡ true }
    requires budget { 1 ≤ left.old }
    ensures settles { IfOk result (Settles net.now seen.now task.now) }
    ensures built { IfOk result (IsBuilt (R.Refuter.log_of refuter.new)) }
{
    let node = Lit {
        node: task.node,
        neg: false,
    };
    let there = match ask(
        alloc,
        net,
        seen,
        task,
        &[node.not(), task.lit],
        refuter,
        left,
    )? {
        Asked::Shown(step) => step,
        Asked::Settled(entry) => return Ok(entry),
    };
    match ask(
        alloc,
        net,
        seen,
        task,
        &[node, task.lit.not()],
        refuter,
        left,
    )? {
        Asked::Shown(back) => merged(alloc, task, refuter.log(), there, back),
        Asked::Settled(entry) => Ok(entry),
    }
}

/// The entry of a pair whose literal is that of an input that no clause of the gate's cone names. All other
/// inputs are false, and this one is set so that the literal hasn't the gate's value.
fn set_apart(alloc: Global, net: &Net, seen: &Book, task: &Task) -> Result<Entry, AllocError>
    requires pair { IsPair net.now seen.now task.now }
    requires gate { IsGate task.now.node }
    requires unnamed { IsUnnamed net.now seen.now.entries task.now }
    ensures settles { IfOk result (Settles net.now seen.now task.now) }
    ensures alone { IfOk result IsSetAlone }
{
    let mut input = vec![in alloc; false; net.circuit(Side::A).inputs().len()]?;
    let value = gate_value(alloc, net, task.node, input.as_slice())?;
    let other = other_value(value, task.lit.neg);
    set(&mut input, task.lit.node, other);
    Ok(Entry::Apart {
        node: task.node,
        lit: task.lit,
        input: Listed::of(input),
    })
}

/// The value of a gate for truth values of the inputs.
fn gate_value(alloc: Global, net: &Net, gate: Node, input: &[bool]) -> Result<bool, AllocError>
    requires gate { IsGate gate }
    requires placed { IsSome (position_of net.now gate) }
    requires whole { length input.now ≡ length net.now.a.inputs }
    ensures { IfOk result (λ b. b ≡ value_of net.now input.now gate) }
{
    laws::is_net(net);
    let Node::Gate(side, var) = gate else {
        return Ok(false);
    };
    let circuit = net.circuit(side);
    let mut room = vec![in alloc; false; circuit.gates().len()]?;
    Ok(circuit.value(input, 2 * var, room.as_mut_slice()))
}

/// What an answer shows of a pair.
enum Asked {
    /// The implication, by this step.
    Shown(Step),
    /// All that the query is to answer.
    Settled(Entry),
}

/// Asks for one implication between the pair, which is over the cone that the refuter was started with.
fn ask<R: Refuter + Send>(
    alloc: Global,
    net: &Net,
    seen: &Book,
    task: &Task,
    implication: &[Lit],
    refuter: &mut R,
    left: &mut u64,
) -> Result<Asked, AllocError>
    requires pair { IsPair net.now seen.now task.now }
    requires implication { IsImplication task.now implication.now }
    requires query { IsQuery net.now seen.now task.now
        (R.Refuter.base_of refuter.old) (R.Refuter.log_of refuter.old) left.old }
    requires ready { R.Refuter.is_ready refuter.old ≡ true }
    requires budget { 1 ≤ left.old }
    ensures asked { IfOk result (IsAsked net.now seen.now task.now (R.Refuter.base_of refuter.old)
        (R.Refuter.log_of refuter.old) implication.now (R.Refuter.log_of refuter.new) left.new) }
    ensures built { IfOk result (IsBuiltAsked (R.Refuter.log_of refuter.new)) }
    ensures query { OnOk result (IsQuery net.now seen.now task.now
        (R.Refuter.base_of refuter.new) (R.Refuter.log_of refuter.new) left.new) }
    ensures base { OnOk result (R.Refuter.base_of refuter.new ≡ R.Refuter.base_of refuter.old) }
    ensures ready { OnOk result (R.Refuter.is_ready refuter.new ≡ true) }
{
    budget::budget_log_length();
    let clause = Clause::from_slice(alloc, implication)?;
    match refuter.refute(alloc, &clause, left)? {
        Refuted::Yes(hints) => Ok(Asked::Shown(Step { clause, hints })),
        Refuted::No(model) => apart(alloc, net, task, model.as_slice()),
        Refuted::Spent => spent(alloc, seen, task, refuter.log()),
    }
}

/// That the pair differs in a model, as its entry.
fn apart(alloc: Global, net: &Net, task: &Task, model: &[Lit]) -> Result<Asked, AllocError>
    requires { AreThere net.now model.now }
    ensures { IfOk result (λ a.
        a ≡ Asked.Settled (Entry.Apart task.now.node task.now.lit (input_from net.now model.now))) }
{
    let input = input_of(alloc, net, model)?;
    Ok(Asked::Settled(Entry::Apart {
        node: task.node,
        lit: task.lit,
        input,
    }))
}

/// That the query spent its budget for these steps, over the whole book, as its entry.
fn spent(alloc: Global, seen: &Book, task: &Task, log: &[Step]) -> Result<Asked, AllocError>
    ensures { IfOk result (λ a. a
        ≡ Asked.Settled (Entry.Spent task.now.node task.now.lit (length seen.now.entries) log.now)) }
{
    let log = copied(alloc, log)?;
    Ok(Asked::Settled(Entry::Spent {
        node: task.node,
        lit: task.lit,
        seen: seen.len(),
        log: Listed::of(log),
    }))
}

/// The entry of a pair of which both implications are shown, after these steps.
fn merged(
    alloc: Global,
    task: &Task,
    log: &[Step],
    there: Step,
    back: Step,
) -> Result<Entry, AllocError>
    ensures { IfOk result
        (λ e. e ≡ Entry.Merge task.now.node task.now.lit ((log.now ++ there ∷ []) ++ back ∷ [])) }
{
    let mut steps = copied(alloc, log)?;
    steps.push(there)?;
    steps.push(back)?;
    Ok(Entry::Merge {
        node: task.node,
        lit: task.lit,
        steps: Listed::of(steps),
    })
}
