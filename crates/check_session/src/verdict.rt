ghost use Rattle.std.specs.Prelude.{◌≡◌, ◌<◌, None, IfOk};
ghost use Rattle.std.specs.List.{AllByRecursion};
ghost use Rattle.lemma_book.specs.Book.{IsLegal};
ghost use Rattle.check_session.specs.Finding.{Finds};
ghost use Rattle.sweep_workers.specs.Answered.{OpensTwoRoots};
ghost use Rattle.sweep_workers.specs.Swept.{AreSettled};
ghost use Rattle.check_session.specs.Outputs.{ListsOpen, Looks, SeeMerges, finding_of, verdict_of};

use lemma_book::{Book, Entry};
use lits::Listed;
use netlist::Net;
use std::alloc::{AllocError, Global};

/// What a check found.
#[derive(Drop)]
pub enum Verdict {
    /// The circuits agree on every admitted input.
    Equivalent,
    /// The output differs on these truth values of the inputs, on which each constraint is true, and no
    /// smaller one is known to differ.
    Different { output: u32, input: Listed<bool> },
    /// No output is known to differ. The queries of these spent their budgets; the others are equal on every
    /// admitted input.
    Undecided { outputs: Listed<u32> },
}

impl Verdict {
    /// What a book about all outputs shows.
    pub(crate) fn of(alloc: Global, net: &Net, book: &Book) -> Result<Verdict, AllocError>
        requires legal { IsLegal net.now book.now }
        requires settled { AreSettled net.now book.now.entries }
        requires seen { SeeMerges book.now.entries }
        requires roots { AllByRecursion (OpensTwoRoots net.now book.now.entries) book.now.entries }
        ensures finds { IfOk result (λ v. Finds net.now book.now.entries (finding_of v)) }
        ensures open { IfOk result (ListsOpen net.now book.now.entries) }
    {
        let mut open = Vec::new(alloc);
        for output in 0..net.outputs() {
            if let Some(verdict) = Verdict::at(alloc, book, output, &mut open)? {
                return Ok(verdict);
            }
        }
        Ok(Verdict::of_open(open))
    }

    /// A copy.
    pub(crate) fn copied(&self, alloc: Global) -> Result<Verdict, AllocError>
        ensures { IfOk result (λ v. v ≡ self.now) }
    {
        match self {
            Verdict::Equivalent => Ok(Verdict::Equivalent),
            Verdict::Different { output, input } => {
                let input = Listed::of(Vec::from_slice(alloc, input.as_slice())?);
                Ok(Verdict::Different {
                    output: *output,
                    input,
                })
            }
            Verdict::Undecided { outputs } => {
                let outputs = Listed::of(Vec::from_slice(alloc, outputs.as_slice())?);
                Ok(Verdict::Undecided { outputs })
            }
        }
    }

    /// What the entry of one output tells by itself; an output that it leaves open is put behind those
    /// before.
    fn at(
        alloc: Global,
        book: &Book,
        output: u32,
        opens: &mut Vec<u32>,
    ) -> Result<Option<Verdict>, AllocError>
        ensures { IfOk result (Looks book.now.entries output opens.old.items opens.new.items) }
    {
        match book.about(output) {
            Some(Entry::OutApart { input, .. }) => {
                let input = Listed::of(Vec::from_slice(alloc, input.as_slice())?);
                Ok(Some(Verdict::Different { output, input }))
            }
            Some(Entry::OutSpent { .. }) => {
                opens.push(output)?;
                Ok(None)
            }
            _ => Ok(None),
        }
    }

    /// The verdict where no output is known to differ.
    fn of_open(opens: Vec<u32>) -> Verdict
        ensures { result ≡ verdict_of opens.items }
    {
        if opens.is_empty() {
            Verdict::Equivalent
        } else {
            Verdict::Undecided {
                outputs: Listed::of(opens),
            }
        }
    }
}
