ghost use Rattle.std.specs.Prelude.{IfOk, IfSome};
ghost use Rattle.circuit_search.specs.Answer.{SettlesOutput, SettlesPair};

use crate::shared::Shared;
use cone_search::ConeSolver;
use lazy_search::{Domain, Effort, Given, LazySolver};
use lemma_book::{Book, Entry, Task};
use merged_net::{Merges, has_constraints};
use netlist::Net;
use search_parts::{Backoff, Caps};
use shared_equalities::Equalities;
use std::alloc::{AllocError, Global};
use xor_sums::Sums;

mod equating;

/// How many clauses the search for a pair may learn above a fanin whose own pair is open.
const ABOVE_OPEN: u64 = 25;

/// How far the first search for an output goes.
const FEW: u64 = 100;

const CHOICES: u64 = 2000;

/// How far the search for one equality goes, and the second one for an output.
const CONFLICTS: u64 = 1000;

const DECISIONS: u64 = 20000;

/// How many steps it may take to add up the sums of an output before pairs in its cone are known to be equal.
const STEPS: u64 = 1000;

/// What proposes entries: the lazy solver and the cone solver, with what it lends them.
#[derive(Drop)]
pub(crate) struct Proposer {
    merges: Merges,
    equalities: Equalities,
    sums: Sums,
    lazy: LazySolver,
    cone: ConeSolver,
    /// When the lazy solver searches an output at length.
    backoff: Backoff,
    /// Whether the output that was asked for last wasn't searched at length.
    is_owed: bool,
}

impl Proposer {
    /// A proposer for queries about a net.
    pub(crate) fn of(alloc: Global, net: &Net) -> Result<Proposer, AllocError> {
        Ok(Proposer {
            merges: Merges::of(alloc, net)?,
            equalities: Equalities::new(alloc),
            sums: Sums::new(alloc),
            lazy: LazySolver::of(alloc, net)?,
            cone: ConeSolver::new(alloc),
            backoff: Backoff::new(),
            is_owed: false,
        })
    }

    /// How many clauses both solvers learned, each from a conflict.
    pub(crate) fn conflicts(&self) -> u64 {
        self.lazy.conflicts().saturating_add(self.cone.learned())
    }

    /// Reads what is new in the book. Of another book than before nothing stays.
    pub(crate) fn catch_up(&mut self, net: &Net, book: &Book) {
        if self.merges.catch_up(net, book) {
            self.equalities.forget();
            self.backoff = Backoff::new();
            self.cone.begin_anew();
        }
    }

    /// The entry that is proposed for a pair, which may have so many steps.
    pub(crate) fn pair(
        &mut self,
        alloc: Global,
        net: &Net,
        task: &Task,
        caps: Caps,
        steps: u64,
    ) -> Result<Option<Entry>, AllocError>
        ensures { IfOk result (λ o. IfSome o (SettlesPair task.now)) }
    {
        let caps = self.caps_for(net, task, caps);
        let given = Given {
            net,
            merges: &self.merges,
            equalities: &self.equalities,
        };
        let effort = Effort { caps, steps };
        self.lazy.pair(alloc, &given, &mut self.sums, task, effort)
    }

    /// How far the search for a pair goes. Above a fanin whose own pair is open most pairs stay open too, so
    /// there it goes less far: on 12 decimal digits in two styles, where 296 pairs are open, these searches
    /// took a sixth of a check.
    fn caps_for(&self, net: &Net, task: &Task, caps: Caps) -> Caps {
        match net.position(task.node) {
            Some(position) if self.merges.is_above_open(net, position) => Caps {
                conflicts: caps.conflicts.min(ABOVE_OPEN),
                ..caps
            },
            _ => caps,
        }
    }

    /// The entry that a short search proposes for an output.
    ///
    /// Most outputs agree on all inputs, and to show that takes no constraint: only where that fails are the
    /// constraints loaded, of which there may be many.
    pub(crate) fn output_shortly(
        &mut self,
        alloc: Global,
        net: &Net,
        output: u32,
        caps: Caps,
    ) -> Result<Option<Entry>, AllocError>
        ensures { IfOk result (λ o. IfSome o (SettlesOutput output)) }
    {
        let few = Caps {
            conflicts: caps.conflicts.min(FEW),
            decisions: caps.decisions.min(CHOICES),
        };
        let effort = Effort {
            caps: few,
            steps: caps.conflicts.min(STEPS),
        };
        if has_constraints(net) {
            let entry = self.output_on(alloc, net, output, effort, Domain::All)?;
            if let Some(Entry::Out { .. }) = &entry {
                return Ok(entry);
            }
        }
        self.output_on(alloc, net, output, effort, Domain::Admitted)
    }

    /// The entry that is proposed for an output: the lazy solver's, else the cone solver's.
    pub(crate) fn output(
        &mut self,
        alloc: Global,
        net: &Net,
        output: u32,
        caps: Caps,
    ) -> Result<Option<Entry>, AllocError>
        ensures { IfOk result (λ o. IfSome o (SettlesOutput output)) }
    {
        if let Some(entry) = self.output_by_equalities(alloc, net, output, caps)? {
            return Ok(Some(entry));
        }
        if let Some(entry) = self.output_by_cone(alloc, net, output, caps)? {
            return Ok(Some(entry));
        }
        self.output_owed(alloc, net, output, caps)
    }

    /// The entry that a search proposes for an output that may use equalities of pairs that the book leaves open.
    fn output_by_equalities(
        &mut self,
        alloc: Global,
        net: &Net,
        output: u32,
        caps: Caps,
    ) -> Result<Option<Entry>, AllocError>
        ensures { IfOk result (λ o. IfSome o (SettlesOutput output)) }
    {
        self.is_owed = !self.backoff.is_due();
        if self.is_owed {
            return Ok(None);
        }
        self.output_at_length(alloc, net, output, caps)
    }

    /// The entry that the cone solver proposes for an output.
    fn output_by_cone(
        &mut self,
        alloc: Global,
        net: &Net,
        output: u32,
        caps: Caps,
    ) -> Result<Option<Entry>, AllocError>
        ensures { IfOk result (λ o. IfSome o (SettlesOutput output)) }
    {
        let merges = &self.merges;
        let equalities = &mut self.equalities;
        self.cone
            .output(alloc, net, merges, equalities, output, caps)
    }

    /// The entry that a search at length proposes for an output that wasn't searched so before, where nothing
    /// else has settled it.
    fn output_owed(
        &mut self,
        alloc: Global,
        net: &Net,
        output: u32,
        caps: Caps,
    ) -> Result<Option<Entry>, AllocError>
        ensures { IfOk result (λ o. IfSome o (SettlesOutput output)) }
    {
        if !self.is_owed {
            return Ok(None);
        }
        self.is_owed = false;
        self.output_at_length(alloc, net, output, caps)
    }

    /// The entry that a search proposes for an output that may use equalities of pairs that the book leaves
    /// open.
    fn output_at_length(
        &mut self,
        alloc: Global,
        net: &Net,
        output: u32,
        caps: Caps,
    ) -> Result<Option<Entry>, AllocError>
        ensures { IfOk result (λ o. IfSome o (SettlesOutput output)) }
    {
        let more = Caps {
            conflicts: caps.conflicts.min(CONFLICTS),
            decisions: caps.decisions.min(DECISIONS),
        };
        let effort = Effort {
            caps: more,
            steps: caps.conflicts,
        };
        let entry = self.output_on(alloc, net, output, effort, Domain::Admitted)?;
        self.backoff.note(entry.is_some());
        Ok(entry)
    }

    /// The entry that the lazy solver proposes for an output.
    fn output_on(
        &mut self,
        alloc: Global,
        net: &Net,
        output: u32,
        effort: Effort,
        domain: Domain,
    ) -> Result<Option<Entry>, AllocError>
        ensures { IfOk result (λ o. IfSome o (SettlesOutput output)) }
    {
        let given = Given {
            net,
            merges: &self.merges,
            equalities: &self.equalities,
        };
        self.lazy
            .output(alloc, &given, &mut self.sums, output, effort, domain)
    }

    /// Hands out the equalities that were found since the exchange before, and takes in those that others found.
    /// The first that comes looks for equalities of the pairs that the book leaves open.
    pub(crate) fn exchange(
        &mut self,
        alloc: Global,
        net: &Net,
        shared: &mut Shared,
        caps: Caps,
    ) -> Result<(), AllocError> {
        let all = &mut shared.equalities;
        self.equalities.exchange(alloc, all)?;
        if shared.is_searched {
            return Ok(());
        }
        shared.is_searched = true;
        self.equate_open(alloc, net, caps)?;
        self.equalities.exchange(alloc, all)
    }
}
