ghost use Rattle.std.specs.Prelude.{◌≡◌, Some, []};
ghost use Rattle.lemma_book.specs.Entry.{Equal, answer_of, question_of, subject_of};
ghost use Rattle.sweep_workers.specs.Asked.{question_in, subject_in};

use lemma_book::{Entry, Subject, Task};
use lits::Listed;
use std::alloc::Global;

/// What a worker may be asked: whether a gate has the value of a literal, or whether both circuits give an
/// output one value.
#[derive(Clone, Copy)]
pub enum Asked {
    Pair(Task),
    Output(u32),
}

/// The subject of the entry that settles the task, if a book has it.
pub(crate) fn subject_in(asked: Asked) -> Subject
    ensures { result ≡ subject_in asked }
{
    match asked {
        Asked::Pair(task) => Subject::Merged(task.node),
        Asked::Output(output) => Subject::Output(output),
    }
}

/// An entry on the task's subject that shows nothing. It is put into no book: where a book settles the task, a
/// board is told so of this one.
pub(crate) fn claim_of(alloc: Global, asked: Asked) -> Entry
    ensures about { question_of result ≡ question_in asked }
    ensures on { subject_of result ≡ Some (subject_in asked) }
    ensures equal { answer_of result ≡ Equal [] }
{
    let steps = Listed::of(Vec::new(alloc));
    match asked {
        Asked::Pair(task) => Entry::Merge {
            node: task.node,
            lit: task.lit,
            steps,
        },
        Asked::Output(output) => Entry::Out { output, steps },
    }
}
