//! Which steps of a book's Merge and Out entries are reached, and which step is the last to cite each.
//!
//! One walk goes over the steps from the last to the first. A step that is asked for, or that a step behind
//! it marked, is reached, and marks what it cites: who comes first so is the last to cite it. That is what
//! programs that trim proofs do (Heule, Hunt and Wetzler 2013). A mark is eight bytes a step.
ghost use Rattle.std.specs.Prelude.{◌≡◌, ℕ, ◌+◌, ◌<◌, ◌≤◌, ◌^◌, Bool, List, [], ◌∷◌, ◌++◌, All, length, map};
ghost use Rattle.lrat_text.specs.declared.step.LratStep.{LratStep};
ghost use Rattle.lemma_book.specs.Book.{IsLegal};
ghost use Rattle.netlist.specs.Miter.{miter_of};
ghost use Rattle.proof_stitch.specs.Ids.{HasId};
ghost use Rattle.proof_stitch.specs.Steps.{id_of, additions_from};
ghost use Rattle.proof_stitch.specs.Ids.{HasIds};
ghost use Rattle.proof_stitch.specs.Steps.{addition};
ghost use Rattle.proof_stitch.specs.Table.{AreMarked, HasMarks, KeepsShape};
ghost use Rattle.proof_stitch.specs.Trimmed.{reached};
ghost use Rattle.proof_stitch.specs.Written.{shown_ids, book_additions};

use crate::addition::id_of;
use crate::by_step::ByStep;
use crate::shown::written_steps;
use lemma_book::Book;
use lits::{Hints, Step};
use netlist::Net;

/// The mark of a step that isn't reached.
pub const UNUSED: u64 = 0;

/// The mark of a step that is asked for, and so is never deleted.
pub const ALWAYS: u64 = u64::MAX;

/// Marks the step with that id, unless it has a mark.
pub fn mark(marks: &mut ByStep, id: u64, by: u64)
    ensures shape { KeepsShape marks.old marks.new }
    ensures marked { AreMarked (id ∷ []) by marks.old marks.new }
{
    if marks.get(id) == UNUSED {
        marks.set(id, by);
    }
}

/// Marks the steps with these ids as asked for.
pub fn ask(marks: &mut ByStep, ids: &[u64])
    ensures shape { KeepsShape marks.old marks.new }
    ensures marked { AreMarked ids.now ALWAYS marks.old marks.new }
{
    for id in ids {
        mark(marks, *id, ALWAYS);
    }
}

/// Marks what some hints name. `first` is the id of the first step of their list.
pub fn mark_hints(marks: &mut ByStep, net: &Net, shown: &[u64], first: u64, by: u64, hints: &Hints)
    requires ids { All (HasId net.now shown.now first) hints.now }
    requires some { 1 ≤ by }
    ensures shape { KeepsShape marks.old marks.new }
    ensures marked { AreMarked (map (id_of net.now shown.now first) hints.now) by marks.old marks.new }
{
    for place in 0..hints.len() {
        mark(marks, id_of(net, shown, first, hints.at(place)), by);
    }
}

/// Goes over the steps of one list, the first of which has that id, from the last to the first.
fn reach_steps(marks: &mut ByStep, net: &Net, shown: &[u64], first: u64, steps: &[Step])
    requires ids { All (HasIds net.now shown.now first) steps.now }
    requires above { marks.old.clauses < first }
    requires room { first + length steps.now ≤ marks.old.clauses + length marks.old.numbers.items + 1 }
    requires small { first + length steps.now < 2 ^ 63 }
    ensures shape { KeepsShape marks.old marks.new }
    ensures marks { (asked : ℕ → Bool) (behind : List LratStep) →
        HasMarks asked (reached asked behind) marks.old →
        HasMarks asked (reached asked
        (additions_from net.now shown.now first first steps.now ++ behind)) marks.new }
{
    let mut place = steps.len();
    while place > 0 {
        place -= 1;
        reach_step(
            marks,
            net,
            shown,
            first,
            first + place as u64,
            &steps[place],
        );
    }
}

/// Goes over one step.
fn reach_step(marks: &mut ByStep, net: &Net, shown: &[u64], first: u64, id: u64, step: &Step)
    requires ids { HasIds net.now shown.now first step.now }
    requires above { marks.old.clauses < id }
    requires room { id ≤ marks.old.clauses + length marks.old.numbers.items }
    requires small { id < 2 ^ 63 }
    ensures shape { KeepsShape marks.old marks.new }
    ensures marks { (asked : ℕ → Bool) (behind : List LratStep) →
        HasMarks asked (reached asked behind) marks.old →
        HasMarks asked (reached asked
        (addition net.now shown.now first id step.now ∷ behind)) marks.new }
{
    if marks.get(id) == UNUSED {
        return;
    }
    mark_hints(marks, net, shown, first, id, &step.hints);
}

/// Goes over the steps of a book's Merge and Out entries, from the last to the first.
pub fn reach(marks: &mut ByStep, net: &Net, book: &Book, shown: &[u64], last: u64)
    requires legal { IsLegal net.now book.now }
    requires shown { shown.now ≡ shown_ids net.now book.now.entries }
    requires clauses { marks.old.clauses ≡ length (miter_of net.now) }
    requires steps { length (book_additions net.now book.now.entries) ≤ length marks.old.numbers.items }
    requires last { last ≡ marks.old.clauses + length (book_additions net.now book.now.entries) }
    ensures shape { KeepsShape marks.old marks.new }
    ensures marks { (asked : ℕ → Bool) (behind : List LratStep) →
        HasMarks asked (reached asked behind) marks.old →
        HasMarks asked (reached asked
        (book_additions net.now book.now.entries ++ behind)) marks.new }
{
    net.clauses();
    book.sweep_budget();
    book.out_budget();
    let mut first = last + 1;
    let mut place = book.len();
    while place > 0 {
        place -= 1;
        let entry = book.entry(place).unwrap();
        let steps = written_steps(entry);
        first -= steps.len() as u64;
        reach_steps(marks, net, shown, first, steps);
    }
}
