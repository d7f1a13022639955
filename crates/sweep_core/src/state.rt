ghost use Rattle.std.specs.Prelude.{◌≡◌, ◌+◌, ◌<◌, ◌≤◌, ◌^◌, length, IfOk, OnErr};
ghost use Rattle.lemma_book.specs.Book.{IsLegal};
ghost use Rattle.lemma_book.specs.Machine.{MayOffer, IsDraw, IsRefresh, IsOffer, Replays, opened};
ghost use Rattle.sweep_core.specs.Event.{MayCome, IsStep, Keeps};
ghost use Rattle.sweep_core.specs.Run.{MayRun, IsRun, HasRunFirst, turns_of};

use crate::event::{Event, Reply};
use lemma_book::{Book, Entry, Offered};
use netlist::Net;
use std::alloc::{AllocError, Global};
use std::marker::Model;

/// What the workers share, the book and the number of the next draw, and how many of the book's entries each
/// of them knows.
#[derive(Drop)]
pub struct State {
    book: Book,
    tasks: u64,
    next: u64,
    known: Vec<u64>,
}

impl Model for State {
    ghost use Rattle.lemma_book.specs.Machine.{Machine};
    ghost use Rattle.sweep_core.specs.Event.{Core, AreWithin};

    ghost Value = { Core };

    ghost view = { λ s. record {
      tasks = s.tasks;
      machine = record { book = s.book; next = s.next; known = s.known.items };
    } };

    ghost invariant = { λ s. AreWithin s.book s.known.items };
}

impl State {
    /// So many workers at a book, each of which knows all of it, and so many tasks, of which none is drawn.
    pub fn new(alloc: Global, book: Book, tasks: u64, workers: u32) -> Result<State, AllocError>
        ensures { IfOk result (λ s. s ≡ record { tasks = tasks; machine = opened book workers }) }
    {
        let known = vec![in alloc; book.len(); workers as usize]?;
        Ok(State {
            book,
            tasks,
            next: 0,
            known,
        })
    }

    /// Does one event. Where memory is refused nothing is done, and an entry that was offered is given up.
    pub fn step(&mut self, alloc: Global, net: &Net, event: Event) -> Result<Reply, AllocError>
        requires legal { IsLegal net.now self.old.machine.book }
        requires drawn { self.old.machine.next < 2 ^ 62 }
        requires event { MayCome net.now event self.old.machine }
        ensures ok { IfOk result (IsStep event self.old self.new) }
        ensures err { OnErr result (self.new ≡ self.old) }
        ensures legal { IsLegal net.now self.new.machine.book }
        ensures keeps { Keeps self.old.machine self.new.machine }
    {
        match event {
            Event::Draw(_) => Ok(Reply::Task(self.draw())),
            Event::Refresh(worker) => Ok(Reply::Known(self.refresh(worker))),
            Event::Offer(worker, entry) => {
                let offered = self.offer(alloc, net, worker, entry)?;
                Ok(Reply::Offered(offered))
            }
        }
    }

    /// Does the events in order. Where memory is refused the first of them are done, perhaps all.
    pub fn run(
        &mut self,
        alloc: Global,
        net: &Net,
        events: Vec<Event>,
    ) -> Result<Vec<Reply>, AllocError>
        requires legal { IsLegal net.now self.old.machine.book }
        requires drawn { self.old.machine.next + length events.items ≤ 2 ^ 62 }
        requires events { MayRun net.now events.items self.old }
        ensures ok { IfOk result (λ replies. IsRun events.items self.old self.new replies.items) }
        ensures replays { IfOk result (λ replies.
            Replays self.old.machine.book (turns_of events.items replies.items) self.new.machine.book) }
        ensures err { OnErr result (HasRunFirst events.items self.old self.new) }
        ensures legal { IsLegal net.now self.new.machine.book }
        ensures keeps { Keeps self.old.machine self.new.machine }
    {
        let _book = &self.book;
        let mut replies = Vec::with_capacity(alloc, events.len())?;
        for event in events {
            let reply = self.step(alloc, net, event)?;
            replies.push(reply)?;
        }
        Ok(replies)
    }

    /// The next number, if there is such a task.
    fn draw(&mut self) -> Option<u64>
        requires { self.old.machine.next < 2 ^ 62 }
        ensures draws { IsDraw self.old.tasks self.old.machine self.new.machine result }
        ensures tasks { self.new.tasks ≡ self.old.tasks }
        ensures keeps { Keeps self.old.machine self.new.machine }
    {
        let number = self.next;
        self.next += 1;
        if number < self.tasks {
            Some(number)
        } else {
            None
        }
    }

    /// The worker knows the whole book from now on.
    fn refresh(&mut self, worker: u32) -> u64
        requires { worker < length self.old.machine.known }
        ensures refreshes { IsRefresh worker self.old.machine self.new.machine result }
        ensures tasks { self.new.tasks ≡ self.old.tasks }
        ensures keeps { Keeps self.old.machine self.new.machine }
    {
        let known = self.book.len();
        self.known[worker as usize] = known;
        known
    }

    /// Puts the worker's entry last, unless an entry of the book settles it.
    fn offer(
        &mut self,
        alloc: Global,
        net: &Net,
        worker: u32,
        entry: Entry,
    ) -> Result<Offered, AllocError>
        requires legal { IsLegal net.now self.old.machine.book }
        requires good { MayOffer net.now self.old.machine worker entry }
        ensures offers { IfOk result (IsOffer entry self.old.machine self.new.machine) }
        ensures tasks { self.new.tasks ≡ self.old.tasks }
        ensures err { OnErr result (self.new ≡ self.old) }
        ensures legal { IsLegal net.now self.new.machine.book }
        ensures keeps { Keeps self.old.machine self.new.machine }
    {
        let known = self.known[worker as usize];
        match self.book.append(alloc, net, known, entry) {
            Ok(offered) => Ok(offered),
            Err((_entry, error)) => Err(error),
        }
    }
}
