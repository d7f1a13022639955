ghost use Rattle.std.specs.Prelude.{◌≡◌, ◌<◌, ◌≤◌, ◌+◌, ℕ, Bool, true, false, List, length, IfOk, OnOk, OnErr};
ghost use Rattle.std.specs.Bool.{OnTrue};
ghost use Rattle.std.specs.List.{AllByRecursion};
ghost use Rattle.netlist.specs.Net.{nodes_of};
ghost use Rattle.word_sim.specs.Rows.{AreSignatures};
ghost use Rattle.lemma_book.specs.Book.{IsLegal};
ghost use Rattle.sig_classes.specs.Leader.{AreTasks};
ghost use Rattle.sig_classes.specs.Chains.{AreBefore, class_of};
ghost use Rattle.sig_classes.specs.Kept.{AreClasses, AreKept, AreLeast, AreWithout, HasLeasts, HaveRoots, HaveSigns, IsLeastOne, counts, led_at, next_part, next_seen};

use crate::chains::{Firsts, class_of};
use crate::classes::open_task;
use lemma_book::{Book, Task};
use netlist::Net;
use std::alloc::{AllocError, Global};
use std::marker::Model;
use word_sim::{Pool, Sigs, signatures};

/// How many words of patterns are simulated at once. No row is longer than that and the pool's first word,
/// so memory doesn't grow with the patterns that join; with four words a pass some 25 % of the time is that
/// first word's, and rows of more words cost memory at each node.
const BLOCK: u32 = 4;

/// In the place of the class of a node that is left out. No position is so great.
const LEFT_OUT: u32 = u32::MAX;

/// The classes of a pair's nodes on the patterns of a pool, kept while patterns join it.
///
/// What joined is simulated alone, a few words at a time, beside the pool's first word, which tells as
/// before which rows are turned; a class breaks up by the rows of that. So a pattern is simulated once,
/// where `tasks` of all rows would pay for it in each round to come.
///
/// Nodes that are merged are left out of the classes, which are led by roots: of two circuits of one structure
/// half of all nodes are.
#[derive(Drop)]
pub struct KeptClasses {
    seen: u64,
    leaders: Vec<u32>,
}

impl Model for KeptClasses {
    ghost use Rattle.sig_classes.specs.Kept.{Kept};

    ghost Value = { Kept };

    ghost view = { λ k. record { seen = k.seen; leaders = k.leaders.items } };
}

impl KeptClasses {
    /// One class of all nodes, before a pattern is looked at.
    pub fn new(alloc: Global, net: &Net) -> Result<KeptClasses, AllocError>
        ensures { IfOk result (λ k. (patterns : List (List Bool)) → AreKept net.now patterns k) }
    {
        let leaders = one_class(alloc, net)?;
        Ok(KeptClasses { seen: 0, leaders })
    }

    /// How many of the pool's first patterns the classes are over.
    pub fn seen(&self) -> u64
        ensures { result ≡ self.now.seen }
    {
        self.seen
    }

    /// Simulates the next few words of patterns, and breaks the classes up by them. The rows are those of the
    /// first word and of these; after the last patterns they are those of the first word alone.
    pub fn refine(&mut self, alloc: Global, net: &Net, pool: &Pool) -> Result<Sigs, AllocError>
        requires inputs { pool.now.inputs ≡ length net.now.a.inputs }
        requires kept { AreKept net.now pool.now.patterns self.old }
        ensures kept { AreKept net.now pool.now.patterns self.new }
        ensures counts { (p : ℕ) → p < length (nodes_of net.now)
            → counts self.new.leaders p ≡ counts self.old.leaders p }
        ensures seen { IfOk result (λ s. self.new.seen ≡ next_seen self.old.seen (length pool.now.patterns)) }
        ensures rows { IfOk result (AreSignatures net.now (next_part self.old.seen pool.now.patterns)) }
        ensures refused { OnErr result (self.new ≡ self.old) }
    {
        netlist::laws::is_net(net);
        let sigs = next_rows(alloc, net, pool, self.seen)?;
        self.leaders = refined(alloc, net, self.leaders.as_slice(), &sigs)?;
        self.seen = next_seen(self.seen, pool);
        Ok(sigs)
    }

    /// The pairs that are to be asked for over the whole pool, as `tasks` of all its rows would give them.
    pub fn tasks(
        &mut self,
        alloc: Global,
        net: &Net,
        pool: &Pool,
        book: &Book,
    ) -> Result<Vec<Task>, AllocError>
        requires legal { IsLegal net.now book.now }
        requires inputs { pool.now.inputs ≡ length net.now.a.inputs }
        requires whole { AllByRecursion (λ bits. length bits ≡ length net.now.a.inputs) pool.now.patterns }
        requires kept { AreKept net.now pool.now.patterns self.old }
        ensures tasks { IfOk result (λ v. AreTasks net.now book.now.entries pool.now.patterns v.items) }
        ensures kept { AreKept net.now pool.now.patterns self.new }
        ensures seen { OnOk result (self.new.seen ≡ length pool.now.patterns) }
    {
        netlist::laws::is_net(net);
        self.leave_out(alloc, net, book)?;
        while self.seen / 64 + u64::from(BLOCK) < u64::from(pool.words()) {
            self.refine(alloc, net, pool)?;
        }
        let sigs = self.refine(alloc, net, pool)?;
        due(alloc, net, &sigs, self.leaders.as_slice(), book)
    }

    /// Leaves out what the book merges. Where a root of this book was left out before, the classes begin anew.
    fn leave_out(&mut self, alloc: Global, net: &Net, book: &Book) -> Result<(), AllocError>
        requires legal { IsLegal net.now book.now }
        requires size { length self.old.leaders ≡ length (nodes_of net.now) }
        ensures kept { (patterns : List (List Bool))
            → AllByRecursion (λ bits. length bits ≡ length net.now.a.inputs) patterns
            → AreKept net.now patterns self.old → AreKept net.now patterns self.new }
        ensures roots { OnOk result (HaveRoots net.now book.now.entries self.new.leaders) }
    {
        netlist::laws::is_net(net);
        lemma_book::laws::roots_keep_values(net, book);
        if !have_roots(net, book, self.leaders.as_slice()) {
            self.leaders = one_class(alloc, net)?;
            self.seen = 0;
        }
        drop_merged(net, book, self.leaders.as_mut_slice());
        Ok(())
    }
}

/// One class of all nodes.
fn one_class(alloc: Global, net: &Net) -> Result<Vec<u32>, AllocError>
    ensures kept { IfOk result (λ v. (patterns : List (List Bool))
        → AreKept net.now patterns (record { seen = 0; leaders = v.items })) }
    ensures all { IfOk result (λ v. (p : ℕ) → counts v.items p ≡ true) }
{
    vec![in alloc; 0; net.positions() as usize]
}

/// Whether no root of the book is left out.
fn have_roots(net: &Net, book: &Book, leaders: &[u32]) -> bool
    ensures { OnTrue result (HaveRoots net.now book.now.entries leaders.now) }
{
    netlist::laws::is_net(net);
    for position in 0..net.positions() {
        if !counts(leaders, position) && !book.is_merged(net.node(position)) {
            return false;
        }
    }
    true
}

/// Leaves out what the book merges.
fn drop_merged(net: &Net, book: &Book, leaders: &mut [u32])
    requires { length leaders.old ≡ length (nodes_of net.now) }
    ensures { AreWithout net.now book.now.entries (length (nodes_of net.now)) leaders.old leaders.new }
{
    netlist::laws::is_net(net);
    for position in 0..net.positions() {
        if book.is_merged(net.node(position)) {
            leaders[position as usize] = LEFT_OUT;
        }
    }
}

/// Whether a position isn't left out.
fn counts(leaders: &[u32], position: u32) -> bool
    ensures { result ≡ counts leaders.now position }
{
    class_of(leaders, position) != LEFT_OUT
}

/// The rows of the next words of patterns, beside the pool's first one. The patterns themselves, a bit an input
/// each, are given up with it.
fn next_rows(alloc: Global, net: &Net, pool: &Pool, seen: u64) -> Result<Sigs, AllocError>
    requires inputs { pool.now.inputs ≡ length net.now.a.inputs }
    requires seen { seen ≤ length pool.now.patterns }
    ensures { IfOk result (AreSignatures net.now (next_part seen pool.now.patterns)) }
{
    let part = pool.part(alloc, seen, BLOCK)?;
    signatures(alloc, net, &part)
}

/// How many patterns were seen after the next block.
fn next_seen(seen: u64, pool: &Pool) -> u64
    ensures { result ≡ next_seen seen (length pool.now.patterns) }
{
    let end = (seen / 64)
        .saturating_add(u64::from(BLOCK))
        .saturating_mul(64);
    end.min(pool.patterns())
}

/// The least positions of the classes into which rows part those that are given.
fn refined(alloc: Global, net: &Net, classes: &[u32], sigs: &Sigs) -> Result<Vec<u32>, AllocError>
    requires { length sigs.now.rows ≡ length (nodes_of net.now) }
    ensures least { IfOk result (λ v. AreLeast classes.now sigs.now (length (nodes_of net.now)) v.items) }
    ensures few { length (nodes_of net.now) ≤ 4294967295 }
{
    netlist::laws::is_net(net);
    let mut firsts = Firsts::with_room(alloc, net.positions())?;
    let mut leaders = Vec::with_capacity(alloc, net.positions() as usize)?;
    for position in 0..net.positions() {
        leaders.push(lead(classes, sigs, &mut firsts, position))?;
    }
    Ok(leaders)
}

/// Takes the next position into its class, and gives the least one of that, unless it is left out.
fn lead(classes: &[u32], sigs: &Sigs, firsts: &mut Firsts, position: u32) -> u32
    requires room { length sigs.now.rows ≡ length firsts.old.behind }
    requires position { position < length sigs.now.rows }
    requires order { AreBefore position firsts.old }
    ensures room { length firsts.new.behind ≡ length firsts.old.behind }
    ensures order { AreBefore (position + 1) firsts.new }
    ensures members { HasLeasts classes.now sigs.now position firsts.old
        → HasLeasts classes.now sigs.now (position + 1) firsts.new }
    ensures least { HasLeasts classes.now sigs.now position firsts.old
        → counts classes.now position ≡ true → IsLeastOne classes.now sigs.now result position }
    ensures out { counts classes.now position ≡ false → result ≡ 4294967295 }
{
    if !counts(classes, position) {
        return LEFT_OUT;
    }
    match firsts.find(classes, sigs, position) {
        Some(first) => first,
        None => {
            firsts.put(classes, sigs, position);
            position
        }
    }
}

/// The pairs that are due where each position that counts has the least one of its class, and no root is left out.
fn due(
    alloc: Global,
    net: &Net,
    sigs: &Sigs,
    leaders: &[u32],
    book: &Book,
) -> Result<Vec<Task>, AllocError>
    requires sigs { length sigs.now.rows ≡ length (nodes_of net.now) }
    requires legal { IsLegal net.now book.now }
    ensures { IfOk result (λ v. (patterns : List (List Bool)) → AreClasses net.now patterns leaders.now
        → HaveRoots net.now book.now.entries leaders.now
        → HaveSigns net.now patterns sigs.now
        → 1 ≤ length patterns
        → AllByRecursion (λ bits. length bits ≡ length net.now.a.inputs) patterns
        → AreTasks net.now book.now.entries patterns v.items) }
{
    netlist::laws::is_net(net);
    lemma_book::laws::roots_keep_values(net, book);
    let mut tasks = Vec::new(alloc);
    for position in 0..net.positions() {
        if let Some(task) = led(net, sigs, leaders, book, position) {
            tasks.push(task)?;
        }
    }
    Ok(tasks)
}

/// The task of a position that isn't the least of its class, if one is due.
fn led(net: &Net, sigs: &Sigs, leaders: &[u32], book: &Book, position: u32) -> Option<Task>
    requires sigs { length sigs.now.rows ≡ length (nodes_of net.now) }
    requires position { position < length (nodes_of net.now) }
    ensures { result ≡ led_at net.now book.now.entries sigs.now (class_of leaders.now position) position }
{
    let leader = class_of(leaders, position);
    if leader < position && !book.is_merged(net.node(position)) {
        open_task(net, sigs, book, leader, position)
    } else {
        None
    }
}
