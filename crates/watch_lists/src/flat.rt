ghost use Rattle.std.specs.Prelude.{◌≡◌, ◌<◌, ◌++◌, ◌∷◌, [], length, OnOk, OnErr};
ghost use Rattle.watch_lists.specs.State.{codes_at};

use std::alloc::{AllocError, Global};
use std::marker::Model;

/// Where a clause stands.
#[derive(Clone, Copy)]
struct Span {
    start: usize,
    end: usize,
}

/// Clauses as codes, one after the other in one vector, since a solver goes through them all the time.
#[derive(Drop)]
pub(crate) struct Flat {
    lits: Vec<u32>,
    spans: Vec<Span>,
}

impl Model for Flat {
    ghost use Rattle.std.specs.Prelude.{List, ℕ, map};
    ghost use Rattle.watch_lists.specs.Flat.{piece, AreSpans};

    ghost Value = { List (List ℕ) };

    ghost view = { λ w. map (piece w.lits.items) w.spans.items };

    ghost invariant = { λ w. AreSpans w.spans.items w.lits.items };
}

impl Flat {
    pub(crate) fn new(alloc: Global) -> Flat
        ensures { result ≡ [] }
    {
        Flat {
            lits: Vec::new(alloc),
            spans: Vec::new(alloc),
        }
    }

    pub(crate) fn len(&self) -> usize
        ensures { result ≡ length self.now }
    {
        self.spans.len()
    }

    /// The codes of a clause. All clauses stand in one list, since a list of lists would follow a pointer at
    /// each clause that propagation visits.
    pub(crate) fn get(&self, at: u32) -> &[u32]
        requires { at < length self.now }
        ensures { result.now ≡ codes_at self.now at }
    {
        let span = self.spans[at as usize];
        &self.lits.as_slice()[span.start..span.end]
    }

    /// Puts a clause last.
    pub(crate) fn push(&mut self, clause: &[u32]) -> Result<(), AllocError>
        ensures ok { OnOk result (self.new ≡ self.old ++ clause.now ∷ []) }
        ensures err { OnErr result (self.new ≡ self.old) }
    {
        self.spans.reserve(1)?;
        let start = self.lits.len();
        self.lits.extend_from_slice(clause)?;
        let end = self.lits.len();
        self.spans.push_reserved(Span { start, end });
        Ok(())
    }

    /// Takes every clause away.
    pub(crate) fn clear(&mut self)
        ensures { self.new ≡ [] }
    {
        self.lits.clear();
        self.spans.clear();
    }
}
