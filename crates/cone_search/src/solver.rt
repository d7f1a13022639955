ghost use Rattle.std.specs.Prelude.{IfOk, IfSome};
ghost use Rattle.search_parts.specs.Settles.{SettlesOutput};

use crate::solver::analysis::Analysis;
use crate::solver::nodes::Nodes;
use crate::solver::query::{Answer, ROOM};
use crate::solver::restarts::Restarts;
use crate::solver::store::{Name, Store};
use crate::solver::trail::Trail;
use crate::solver::watches::Watches;
use lemma_book::Entry;
use lits::{Listed, Side};
use merged_net::{Merges, has_constraints, lit_code};
use netlist::Net;
use search_parts::{ActivityHeap, Caps, at, count, mark};
use shared_equalities::Equalities;
use std::alloc::{AllocError, Global};

mod analysis;
mod cone;
mod nodes;
mod propagation;
mod query;
mod restarts;
mod steps;
mod store;
mod trail;
mod trim;
mod watches;

/// How much work a search for an output may do in vain for each clause of its budget, counted in watches visited. The
/// query behind it takes about as long for a clause, so a search in vain at most doubles an output's time.
const WORK: u64 = 20000;

/// The work of a conflict's analysis, and that of a node that comes into a cone.
const CONFLICT: u64 = 500;

const NODE: u64 = 10;

/// How far the search for one equality goes, and then those for what is left.
const PASSES: [u32; 2] = [1000, 10000];

/// A search of whole cones that keeps what it learns from pair to pair, and equalities from output to output.
///
/// It is for outputs that the lazy search leaves. Pairs of the output's cone that the book leaves open are
/// searched first, since what they show makes those above them easy; pairs that fail are asked again, with more
/// conflicts. The solver drops and shortens what it learns, as good ones do: hints are kept all the while, in
/// the order of the trail.
///
/// Of an output nothing stays for the next one but equalities of pairs, with what they rest on. A proof has the
/// steps of all that it rests on, so what outputs share stands in the proof of each, is judged there and is
/// written there. While clauses of few levels stayed, and those that say outputs equal, a sorter had five times
/// the steps and took three times as long with one worker, a multiplier of 7 bits three times and one and a half.
#[derive(Drop)]
pub struct ConeSolver {
    nodes: Nodes,
    /// How many variables there are.
    variables: u32,
    store: Store,
    watches: Watches,
    /// Those of clauses that a proof doesn't need yet, while it is trimmed.
    spare: Watches,
    trail: Trail,
    order: ActivityHeap,
    restarts: Restarts,
    analysis: Analysis,
    /// The number of the query.
    query: u32,
    /// How many steps of the equalities stand before the steps that are made.
    shown: u32,
    /// The variables of its cone.
    cone: Vec<u32>,
    /// What is still to be visited.
    pending: Vec<u32>,
    /// A clause while it is added.
    added: Vec<u32>,
    /// The positions of pairs that are searched.
    open: Vec<u32>,
    /// Which clauses a proof needs.
    listed: Vec<u32>,
    /// The clauses that may be dropped.
    keys: Vec<u64>,
    /// How many codes of level 0 have their units as reasons.
    explained: u32,
    /// How many clauses were learned since some were dropped, and after how many some are.
    lessons: u32,
    room: u32,
    /// How many clauses were learned from conflicts; what is forgotten counts too.
    learned: u64,
    /// The work at which the output's search ends.
    limit: u64,
}

/// What was found out of two codes.
#[derive(Clone, Copy)]
enum Found {
    /// They have one value, by the clauses of these numbers.
    Equal(u32, u32),
    Apart,
    Open,
}

impl ConeSolver {
    /// Before the first output: no tables yet.
    pub fn new(alloc: Global) -> ConeSolver {
        ConeSolver {
            nodes: Nodes::new(alloc),
            variables: 0,
            store: Store::new(alloc),
            watches: Watches::new(alloc),
            spare: Watches::new(alloc),
            trail: Trail::new(alloc),
            order: ActivityHeap::new(alloc),
            restarts: Restarts::new(),
            analysis: Analysis::new(alloc),
            query: 0,
            shown: 0,
            cone: Vec::new(alloc),
            pending: Vec::new(alloc),
            added: Vec::new(alloc),
            open: Vec::new(alloc),
            listed: Vec::new(alloc),
            keys: Vec::new(alloc),
            explained: 0,
            lessons: 0,
            room: ROOM,
            learned: 0,
            limit: 0,
        }
    }

    /// How many clauses were learned from conflicts.
    pub fn learned(&self) -> u64 {
        self.learned
    }

    /// Forgets all.
    fn forget(&mut self) {
        self.nodes.clear();
        self.variables = 0;
        self.store.clear();
        self.watches.clear();
        self.trail.clear();
        self.order.clear();
        self.analysis.clear();
        self.explained = 0;
        self.lessons = 0;
        self.room = ROOM;
    }

    /// Forgets all of another book.
    pub fn begin_anew(&mut self) {
        self.forget();
    }

    /// What was done so far, in watches visited.
    fn work(&self) -> u64 {
        let analysed = self.learned.saturating_mul(CONFLICT);
        self.watches.visited().saturating_add(analysed)
    }

    /// Whether the output's search has done all the work that it may.
    pub(crate) fn is_spent(&self) -> bool {
        self.work() >= self.limit
    }

    /// The entry that is proposed for an output.
    pub fn output(
        &mut self,
        alloc: Global,
        net: &Net,
        merges: &Merges,
        equalities: &mut Equalities,
        output: u32,
        caps: Caps,
    ) -> Result<Option<Entry>, AllocError>
        ensures { IfOk result (λ o. IfSome o (SettlesOutput output)) }
    {
        let Some(codes) = codes_of(net, output) else {
            return Ok(None);
        };
        self.prepare(net)?;
        self.limit = self.work().saturating_add(work_of(caps.conflicts));
        match self.settle(alloc, net, merges, equalities, codes)? {
            Found::Equal(there, back) => {
                let cases = (there, back);
                self.out(alloc, net, equalities, output, cases, caps.conflicts)
            }
            Found::Apart => self.out_apart(alloc, net, merges, output),
            Found::Open => Ok(None),
        }
    }

    /// Makes the tables that aren't there yet, and forgets the output before but for its equalities.
    fn prepare(&mut self, net: &Net) -> Result<(), AllocError> {
        self.nodes.prepare(net.positions())?;
        self.forget();
        let constant = self.code(0)?;
        self.add_base(&[constant], Name::Axiom(0, 0))
    }

    /// Asks whether two codes have one value, after the pairs that are open in their cone: with few conflicts
    /// for each, again with more for those that are left, and last with all that is left for the two codes.
    fn settle(
        &mut self,
        alloc: Global,
        net: &Net,
        merges: &Merges,
        equalities: &mut Equalities,
        codes: (u32, u32),
    ) -> Result<Found, AllocError> {
        for most in PASSES {
            self.equate(alloc, net, merges, equalities, codes, most)?;
            let found = self.compare(net, merges, equalities, codes, most)?;
            if is_settled(found) || self.is_spent() {
                return Ok(found);
            }
        }
        self.compare(net, merges, equalities, codes, u32::MAX)
    }

    /// Searches for why the open pairs in a cone are equal, from the inputs up, but for those that failed with
    /// so many conflicts.
    fn equate(
        &mut self,
        alloc: Global,
        net: &Net,
        merges: &Merges,
        equalities: &mut Equalities,
        codes: (u32, u32),
        most: u32,
    ) -> Result<(), AllocError> {
        self.enter(net, merges, equalities, codes)?;
        self.list_open(merges, equalities, most)?;
        for place in 0..count(self.open.len()) {
            let position = at(&self.open, place);
            if let Some(target) = merges.open(position) {
                self.equate_pair(alloc, net, merges, equalities, position, target, most)?;
            }
            if self.is_spent() {
                return Ok(());
            }
        }
        Ok(())
    }

    /// Lists the positions of the cone whose pairs are open, in order.
    fn list_open(
        &mut self,
        merges: &Merges,
        equalities: &Equalities,
        most: u32,
    ) -> Result<(), AllocError> {
        self.open.clear();
        for var in self.cone.as_slice() {
            let node = self.nodes.get(*var);
            let is_tried = equalities.tried(node.position) >= most;
            if node.equal == 0 && !is_tried && merges.open(node.position).is_some() {
                self.open.push(node.position)?;
            }
        }
        self.open.as_mut_slice().sort_unstable();
        Ok(())
    }

    /// Searches for why a node is equal to a code.
    fn equate_pair(
        &mut self,
        alloc: Global,
        net: &Net,
        merges: &Merges,
        equalities: &mut Equalities,
        position: u32,
        target: u32,
        most: u32,
    ) -> Result<(), AllocError> {
        let code = position.wrapping_mul(2);
        match self.compare(net, merges, equalities, (code, target), most)? {
            Found::Equal(there, back) => {
                let var = self.code(code)? / 2;
                self.note_equal(var, target);
                self.keep_equal(alloc, net, equalities, position, target, (there, back))
            }
            Found::Apart => equalities.note_tried(position, u32::MAX),
            Found::Open => equalities.note_tried(position, most),
        }
    }

    /// Asks whether two codes of positions have one value, with so many conflicts. Work that shows something
    /// counts for nothing, since what it shows stays.
    fn compare(
        &mut self,
        net: &Net,
        merges: &Merges,
        equalities: &Equalities,
        codes: (u32, u32),
        most: u32,
    ) -> Result<Found, AllocError> {
        let before = self.work();
        let mut left = u64::from(most);
        self.enter(net, merges, equalities, codes)?;
        let found = self.compare_cone(codes, &mut left)?;
        let visits = u64::from(count(self.cone.len())).saturating_mul(NODE);
        self.limit = self.limit.saturating_sub(visits);
        if is_settled(found) {
            self.allow_more(before);
        }
        Ok(found)
    }

    /// Allows as much more work as was done since this was all.
    fn allow_more(&mut self, before: u64) {
        let done = self.work().saturating_sub(before);
        self.limit = self.limit.saturating_add(done);
    }

    /// Asks whether two codes have one value, whose cone is there.
    fn compare_cone(&mut self, codes: (u32, u32), left: &mut u64) -> Result<Found, AllocError> {
        let first = self.code(codes.0)?;
        let second = self.code(codes.1)?;
        if first / 2 == second / 2 {
            return Ok(Found::Open);
        }
        match self.ask((first ^ 1, second), left)? {
            Answer::Shown(there) => match self.ask((first, second ^ 1), left)? {
                Answer::Shown(back) => Ok(Found::Equal(there, back)),
                Answer::Possible => Ok(Found::Apart),
                Answer::Open => Ok(Found::Open),
            },
            Answer::Possible => Ok(Found::Apart),
            Answer::Open => Ok(Found::Open),
        }
    }

    /// The entry of an output that differs on the inputs that the trail has. None under constraints, which
    /// this search doesn't know.
    fn out_apart(
        &self,
        alloc: Global,
        net: &Net,
        merges: &Merges,
        output: u32,
    ) -> Result<Option<Entry>, AllocError>
        ensures { IfOk result (λ o. IfSome o (SettlesOutput output)) }
    {
        if has_constraints(net) {
            return Ok(None);
        }
        let mut input = vec![in alloc; false; net.circuit(Side::A).inputs().len()]?;
        for code in self.trail.since(0) {
            let position = self.nodes.get(*code / 2).position;
            if *code & 1 == 0 && merges.is_input(position) {
                let _was = mark(&mut input, position.wrapping_sub(1), true);
            }
        }
        let input = Listed::of(input);
        Ok(Some(Entry::OutApart { output, input }))
    }
}

/// Whether something was found.
fn is_settled(found: Found) -> bool {
    match found {
        Found::Open => false,
        _ => true,
    }
}

/// How much work the search for an output of this budget may do in vain.
fn work_of(budget: u64) -> u64 {
    budget.saturating_mul(WORK)
}

/// The codes of both circuits' output.
fn codes_of(net: &Net, output: u32) -> Option<(u32, u32)> {
    let first = lit_code(net, net.output(Side::A, output)?)?;
    let second = lit_code(net, net.output(Side::B, output)?)?;
    Some((first, second))
}
