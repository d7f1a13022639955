//! What stands in the two files of a check, and how they are named.
ghost use Rattle.std.specs.Prelude.{◌≡◌, [], ◌++◌, IfOk, codes, decimal, string_bytes};

use crate::miter_text::put_miter;
use crate::verdict::Verdict;
use desk_port::{Desk, PutErr};
use dimacs_text::CnfText;
use endings::Content;
use itoa::Buffer;
use lemma_book::Book;
use netlist::Net;
use proof_stitch::{Span, StitchErr, derivation_counted, refutation_counted};
use std::alloc::{AllocError, Global};

/// The CNF of the circuits' miter.
#[derive(Clone, Copy)]
pub(crate) struct Miter<'a>(pub(crate) &'a Net);

impl Content for Miter<'_> {
    ghost use Rattle.check_session.specs.Files.{cnf_text_of};

    type Told = ();

    ghost is_ready = { λ _. Unit {0} };

    ghost bytes = { λ m. cnf_text_of m.0.now };

    ghost tells = { λ _ _. Unit {0} };

    fn put<D: Desk>(&self, alloc: Global, desk: &mut D) -> Result<(), PutErr> {
        let mut text = CnfText::new(alloc)?;
        put_miter(desk, self.0, &mut text)?;
        text.finish(desk)
    }
}

/// What whoever puts a proof tells: the ids of the logs, and how many lines there are.
#[derive(Drop)]
pub(crate) struct ProofTold {
    pub(crate) spans: Vec<Span>,
    pub(crate) lines: u64,
}

/// The proof of a check that has its verdict: a refutation, nothing, or what is derived; with it the ids of
/// the logs.
#[derive(Clone, Copy)]
pub(crate) struct Proof<'a> {
    pub(crate) net: &'a Net,
    pub(crate) book: &'a Book,
    pub(crate) verdict: &'a Verdict,
}

impl Content for Proof<'_> {
    ghost use Rattle.check_session.specs.Files.{AreToldOf, HasProof, proof_bytes};
    ghost use Rattle.check_session.specs.Outputs.{finding_of};

    type Told = ProofTold;

    ghost is_ready = { λ p. HasProof p.net.now p.book.now (finding_of p.verdict.now) };

    ghost bytes = { λ p. proof_bytes p.net.now p.book.now.entries (finding_of p.verdict.now) };

    ghost tells = { λ p told. AreToldOf p.net.now p.book.now.entries (finding_of p.verdict.now)
        told.spans.items told.lines };

    fn put<D: Desk>(&self, alloc: Global, desk: &mut D) -> Result<ProofTold, PutErr> {
        let Proof { net, book, verdict } = *self;
        let mut lines = 0;
        match verdict {
            Verdict::Equivalent => {
                match refutation_counted(alloc, net, book, desk, &mut lines) {
                    Ok(_) => Ok(told_without_logs(alloc, lines)),
                    Err(StitchErr::Write) => Err(PutErr::Failed),
                    Err(StitchErr::NoMemory) => Err(PutErr::NoMemory),
                }
            }
            Verdict::Different { .. } => Ok(told_without_logs(alloc, lines)),
            Verdict::Undecided { .. } => {
                match derivation_counted(alloc, net, book, desk, &mut lines) {
                    Ok(spans) => Ok(ProofTold { spans, lines }),
                    Err(StitchErr::Write) => Err(PutErr::Failed),
                    Err(StitchErr::NoMemory) => Err(PutErr::NoMemory),
                }
            }
        }
    }
}

/// What is told of a proof of so many lines that has no logs.
fn told_without_logs(alloc: Global, lines: u64) -> ProofTold
    ensures spans { result.spans.items ≡ [] }
    ensures lines { result.lines ≡ lines }
{
    ProofTold {
        spans: Vec::new(alloc),
        lines,
    }
}

/// The name of the file with this ending of the check with this number.
pub(crate) fn named(
    alloc: Global,
    prefix: &str,
    number: u64,
    ending: &str,
) -> Result<String, AllocError>
    ensures { IfOk result (λ s. string_bytes s ≡ prefix.now ++ codes "." ++ decimal number ++ ending.now) }
{
    let mut name = String::from_str(alloc, prefix)?;
    name.push_str(".")?;
    name.push_str(Buffer::new().format(number))?;
    name.push_str(ending)?;
    Ok(name)
}
