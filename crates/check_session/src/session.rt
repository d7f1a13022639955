ghost use Rattle.std.specs.Prelude.{◌≡◌, ◌⊎◌, [], None, Some, IfOk, IfSome, IfNone, IsSome, OnOk, OnErr, MatchResult, Err, unwrap_or};
ghost use Rattle.netlist.specs.declared.unlike.Unlike.{Unlike};
ghost use Rattle.netlist.specs.Unlike.{unlike_of};
ghost use Rattle.netlist.specs.Pairing.{paired, unlike_in};
ghost use Rattle.netlist_edits.specs.Fault.{fault_of};
ghost use Rattle.check_session.specs.Begun.{GoesOn, IsPastOf, begun_after};
ghost use Rattle.check_session.specs.Check.{AreInRange, BeginsWith, IsFound, IsSettled, Loads, begun_by, opened, with_edit, without_book};
ghost use Rattle.check_session.specs.Finding.{Equivalent};
ghost use Rattle.check_session.specs.Counts.{AreCounts};
ghost use Rattle.check_session.specs.Files.{HasSizes, TellsLines, TellsSpans, WritesFiles};
ghost use Rattle.check_session.specs.Outputs.{finding_of};

use crate::begin::{Past, begin};
use crate::counts::{Counts, Work, counts_of};
use crate::options::Options;
use crate::sweep::{Checked, run};
use crate::verdict::Verdict;
use crate::write::{Miter, Proof, named};
use desk_port::{Desk, Gate};
use endings::write_file;
use lemma_book::{Book, Entry};
use netlist::{Circuit, Net, Unlike};
use netlist_edits::{Edit, EditErr, fault_of, make};
use proof_stitch::{Span, StitchErr};
use std::alloc::{AllocError, Global};
use std::marker::Model;
use std::mem::replace;
use std::sync::Wait;
use std::thread::Threads;
use sweep_workers::{Unwatched, Watch};
use word_sim::Pool;

/// The net of two circuits, whose inputs and outputs are matched by name or by position.
fn net_of(alloc: Global, a: Circuit, b: Circuit, by_name: bool) -> Result<Net, Unlike>
    ensures counts { IfSome (unlike_of a b) (λ u. result ≡ Err u) }
    ensures unlike { IfSome (unlike_in by_name a b) (λ u. (result ≡ Err u) ⊎ (result ≡ Err Unlike.NoMemory)) }
    ensures like { IfNone (unlike_in by_name a b)
        (MatchResult result (λ n. n ≡ paired by_name a b) (λ e. e ≡ Unlike.NoMemory)) }
{
    if by_name {
        Net::of_named(alloc, a, b)
    } else {
        Net::of(alloc, a, b)
    }
}

/// Checks a pair, beginning with what is kept of the check before. Gives what the check leaves, the verdict once
/// more, and what the check did.
fn make_check<T: Threads + Wait + Sync, G: Watch + Sync>(
    rt: &T,
    alloc: Global,
    net: &Net,
    options: Options,
    gate: &G,
    past: Past,
) -> Result<(Checked, Verdict, Work), AllocError>
    requires range { AreInRange options }
    requires past { IsPastOf net.now options past }
    ensures goes_on { IfOk result (λ r. GoesOn (begun_after net.now options past) r.0.book r.0.pool) }
    ensures found { IfOk result (λ r.
        IsFound net.now options (begun_after net.now options past) (Some r.0.pool) r.0.book r.0.verdict) }
    ensures copy { IfOk result (λ r. r.1 ≡ r.0.verdict) }
{
    let (book, pool) = begin(alloc, net, options, past)?;
    let kept = book.len();
    let checked = run(rt, alloc, net, options, gate, book, pool)?;
    let found = checked.verdict.copied(alloc)?;
    let work = checked.work.behind(kept);
    Ok((checked, found, work))
}

/// Copies the pair as it stands, unless the one of the last check is remembered already.
fn remember(alloc: Global, net: &Net, last: &mut Option<Net>) -> Result<(), AllocError>
    ensures ok { OnOk result (last.new ≡ Some (unwrap_or last.old net.now)) }
    ensures err { OnErr result (last.new ≡ last.old) }
{
    if last.is_none() {
        *last = Some(net.copy(alloc)?);
    }
    Ok(())
}

/// A pair of circuits that is checked, and edited between checks.
///
/// What a check finds out stays for the next one as far as the edits let it: the session remembers them and
/// the pair as it was at the last check. It copies that pair at the first edit since, so that no check and
/// no later edit pays for it.
pub struct Session {
    net: Net,
    options: Options,
    /// The patterns of the last check, which the next one begins with. None before the first, and after one
    /// that was refused memory.
    pool: Option<Pool>,
    book: Book,
    /// What the last check found. None before the first check, after one that was refused memory, and after
    /// an edit.
    found: Option<Verdict>,
    /// The pair of the last check. None where nothing was edited since.
    last: Option<Net>,
    /// The edits since the last check, in order.
    edits: Vec<Edit>,
    /// What the last check did.
    work: Work,
}

// Written out, so that a drop is one call and not one for each field at each exit of a function.
impl Drop for Session {
    fn drop(self) {
        let Session {
            net: _,
            options: _,
            pool: _,
            book: _,
            found: _,
            last: _,
            edits: _,
            work: _,
        } = self;
    }
}

impl Model for Session {
    ghost use Rattle.std.specs.Prelude.{unwrap_or};
    ghost use Rattle.std.specs.Option.{option_map};
    ghost use Rattle.check_session.specs.Check.{IsSession, State};
    ghost use Rattle.check_session.specs.Outputs.{finding_of};

    ghost Value = { State };

    ghost view = { λ s. record {
      net = s.net;
      options = s.options;
      pool = s.pool;
      book = s.book;
      found = option_map finding_of s.found;
      last = unwrap_or s.last s.net;
      edits = s.edits.items;
    } };

    ghost invariant = { λ s. IsSession (record {
      net = s.net;
      options = s.options;
      pool = s.pool;
      book = s.book;
      found = option_map finding_of s.found;
      last = unwrap_or s.last s.net;
      edits = s.edits.items;
    }) };
}

impl Session {
    /// A session for two circuits, which are matched as the options say, and given up where they can't be
    /// compared. Numbers that differ are told without memory, names that don't fit may want some.
    pub fn open(alloc: Global, a: Circuit, b: Circuit, options: Options) -> Result<Session, Unlike>
        requires options { AreInRange options }
        ensures counts { IfSome (unlike_of a b) (λ u. result ≡ Err u) }
        ensures unlike { IfSome (unlike_in options.by_name a b)
            (λ u. (result ≡ Err u) ⊎ (result ≡ Err Unlike.NoMemory)) }
        ensures like { IfNone (unlike_in options.by_name a b) (MatchResult result
            (λ s. s ≡ opened (paired options.by_name a b) options) (λ e. e ≡ Unlike.NoMemory)) }
    {
        let net = net_of(alloc, a, b, options.by_name)?;
        let book = Book::new(alloc, options.sweep_budget, options.out_budget);
        Ok(Session {
            net,
            options,
            pool: None,
            book,
            found: None,
            last: None,
            edits: Vec::new(alloc),
            work: Work::none(0),
        })
    }

    /// A session of the pair that counts as checked: its book shows each output equal. It has no patterns, as
    /// one that was just opened.
    pub(crate) fn of_equal(alloc: Global, net: Net, options: Options, book: Book) -> Session
        requires range { AreInRange options }
        requires settled { IsSettled net options.sweep_budget options.out_budget book Equivalent }
        ensures { result ≡ record (opened net options) { book = book; found = Some Equivalent } }
    {
        Session {
            net,
            options,
            pool: None,
            book,
            found: Some(Verdict::Equivalent),
            last: None,
            edits: Vec::new(alloc),
            work: Work::none(0),
        }
    }

    /// Makes an edit of the pair, or answers its first fault; where it answers an error the session is as it
    /// was. What was found of the pair then no longer counts, but the next check begins with what is kept.
    pub fn edit(&mut self, alloc: Global, edit: Edit) -> Result<(), EditErr>
        ensures fault { IfSome (fault_of self.old.net edit) (λ e. result ≡ Err e) }
        ensures edited { IfNone (fault_of self.old.net edit)
            (MatchResult result (λ _. self.new ≡ with_edit self.old edit) (λ e. e ≡ EditErr.NoMemory)) }
        ensures unchanged { OnErr result (self.new ≡ self.old) }
    {
        if let Some(fault) = fault_of(&self.net, &edit) {
            return Err(fault);
        }
        self.change(alloc, edit)?;
        Ok(())
    }

    /// Makes an edit that has no fault. All room is made before the pair is changed.
    fn change(&mut self, alloc: Global, edit: Edit) -> Result<(), AllocError>
        requires { fault_of self.old.net edit ≡ None }
        ensures ok { OnOk result (self.new ≡ with_edit self.old edit) }
        ensures err { OnErr result (self.new ≡ self.old) }
    {
        self.edits.reserve(1)?;
        remember(alloc, &self.net, &mut self.last)?;
        make(&mut self.net, &edit)?;
        self.edits.push_reserved(edit);
        self.found = None;
        Ok(())
    }

    /// Takes those of the entries that are good over the pair, one after the other, and gives how many they are:
    /// the next check begins with what is kept of them. Each is judged, so it doesn't matter where they come from.
    /// Nothing may have been checked or edited before. Where memory is refused the session is as it was.
    pub fn load(&mut self, alloc: Global, entries: Vec<Entry>) -> Result<u64, AllocError>
        requires opened { self.old ≡ opened self.old.net self.old.options }
        ensures loaded { IfOk result (Loads entries.items self.old self.new) }
        ensures refused { OnErr result (self.new ≡ self.old) }
    {
        let Options {
            sweep_budget,
            out_budget,
            ..
        } = self.options;
        let (book, taken) = book_file::load(alloc, &self.net, entries, sweep_budget, out_budget)?;
        self.book = book;
        Ok(taken)
    }

    /// Settles the pair, beginning with what is kept of the last check, or of what was loaded, and of the edits
    /// since. Where memory is refused the session is as if it had just been opened with the pair as it stands, and
    /// may be checked anew.
    ///
    /// As many workers settle the pairs and then the outputs as the options say, in as many threads, of which
    /// the caller is one; each passes the gate behind each task that it draws.
    pub fn check<T: Threads + Wait + Sync, G: Gate + Sync>(
        &mut self,
        rt: &T,
        alloc: Global,
        gate: &G,
    ) -> Result<Verdict, AllocError>
        ensures net { self.new.net ≡ self.old.net }
        ensures options { self.new.options ≡ self.old.options }
        ensures last { (self.new.last ≡ self.old.net) × (self.new.edits ≡ []) }
        ensures begins { OnOk result (BeginsWith self.old self.new) }
        ensures found { IfOk result
            (IsFound self.new.net self.new.options (begun_by self.old) self.new.pool self.new.book) }
        ensures is_kept { IfOk result (λ v. self.new.found ≡ Some (finding_of v)) }
        ensures refused { OnErr result (self.new ≡ opened self.old.net self.old.options) }
    {
        self.check_watched(rt, alloc, &Unwatched(gate))
    }

    /// The same, while a gate that watches is told how far the check is.
    pub fn check_watched<T: Threads + Wait + Sync, G: Watch + Sync>(
        &mut self,
        rt: &T,
        alloc: Global,
        gate: &G,
    ) -> Result<Verdict, AllocError>
        ensures net { self.new.net ≡ self.old.net }
        ensures options { self.new.options ≡ self.old.options }
        ensures last { (self.new.last ≡ self.old.net) × (self.new.edits ≡ []) }
        ensures begins { OnOk result (BeginsWith self.old self.new) }
        ensures found { IfOk result
            (IsFound self.new.net self.new.options (begun_by self.old) self.new.pool self.new.book) }
        ensures is_kept { IfOk result (λ v. self.new.found ≡ Some (finding_of v)) }
        ensures refused { OnErr result (self.new ≡ opened self.old.net self.old.options) }
    {
        let past = self.part(alloc);
        let (checked, found, work) = make_check(rt, alloc, &self.net, self.options, gate, past)?;
        self.pool = Some(checked.pool);
        self.book = checked.book;
        self.found = Some(found);
        self.work = work;
        Ok(checked.verdict)
    }

    /// Takes out what the last check left and what happened since. The session is then as if it had just been
    /// opened.
    fn part(&mut self, alloc: Global) -> Past
        ensures past { IsPastOf self.old.net self.old.options result }
        ensures begun { begun_after self.old.net self.old.options result ≡ begun_by self.old }
        ensures left { self.new ≡ opened self.old.net self.old.options }
    {
        self.found = None;
        let empty = Book::new(alloc, self.options.sweep_budget, self.options.out_budget);
        Past {
            last: replace(&mut self.last, None),
            edits: replace(&mut self.edits, Vec::new(alloc)),
            pool: replace(&mut self.pool, None),
            book: replace(&mut self.book, empty),
        }
    }

    /// Leaves the two files of the last check under the prefix and the check's number: starts, writes and
    /// closes `PREFIX.CHECK.cnf`, the CNF of the circuits' miter, and then `PREFIX.CHECK.lrat`, a refutation
    /// of it, nothing, or what was derived, as the check found. It gives the ids of the logs of the outputs
    /// that are left open, an output each.
    pub fn write<D: Desk>(
        &self,
        alloc: Global,
        desk: &mut D,
        prefix: &str,
        check: u64,
    ) -> Result<Vec<Span>, StitchErr>
        requires checked { IsSome self.now.found }
        requires started { (D.state desk.old).started ≡ None }
        ensures files { WritesFiles self.now prefix.now check (D.state desk.old) (D.state desk.new) result }
        ensures sizes { OnOk result
            (HasSizes self.now prefix.now check (D.sizes desk.old) (D.sizes desk.new)) }
        ensures spans { IfOk result (λ spans. TellsSpans self.now spans.items) }
    {
        let mut lines = 0;
        self.write_counted(alloc, desk, prefix, check, &mut lines)
    }

    /// The same, which besides tells how many lines the proof has: none where its file is empty.
    pub fn write_counted<D: Desk>(
        &self,
        alloc: Global,
        desk: &mut D,
        prefix: &str,
        check: u64,
        lines: &mut u64,
    ) -> Result<Vec<Span>, StitchErr>
        requires checked { IsSome self.now.found }
        requires started { (D.state desk.old).started ≡ None }
        ensures files { WritesFiles self.now prefix.now check (D.state desk.old) (D.state desk.new) result }
        ensures sizes { OnOk result
            (HasSizes self.now prefix.now check (D.sizes desk.old) (D.sizes desk.new)) }
        ensures spans { IfOk result (λ spans. TellsSpans self.now spans.items) }
        ensures lines { OnOk result (TellsLines self.now lines.new) }
    {
        let Some(verdict) = &self.found else {
            unreachable!()
        };
        let proof = Proof {
            net: &self.net,
            book: &self.book,
            verdict,
        };
        let name = named(alloc, prefix, check, ".cnf")?;
        write_file(alloc, desk, name.as_str(), &Miter(&self.net))?;
        let name = named(alloc, prefix, check, ".lrat")?;
        let told = write_file(alloc, desk, name.as_str(), &proof)?;
        *lines = told.lines;
        Ok(told.spans)
    }

    /// The pair.
    pub fn net(&self) -> &Net
        ensures { result.now ≡ self.now.net }
    {
        &self.net
    }

    /// The book of the last check, or what was loaded before the first.
    pub fn book(&self) -> &Book
        ensures { result.now ≡ self.now.book }
    {
        &self.book
    }

    /// What the last check did, in numbers: of those that the patterns and the book have, what they are.
    pub fn counts(&self) -> Counts
        ensures { AreCounts self.now result }
    {
        let patterns = match &self.pool {
            Some(pool) => pool.patterns(),
            None => 0,
        };
        counts_of(self.work, patterns, &self.book)
    }

    /// Takes the book of the last check out of the session, which keeps an empty one, and counts as not
    /// checked. So the next check keeps nothing but the patterns.
    pub fn take_book(&mut self, alloc: Global) -> Book
        ensures taken { result ≡ self.old.book }
        ensures left { self.new ≡ without_book self.old }
    {
        self.found = None;
        let empty = Book::new(alloc, self.options.sweep_budget, self.options.out_budget);
        replace(&mut self.book, empty)
    }
}
