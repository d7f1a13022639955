ghost use Rattle.std.specs.Prelude.{◌≡◌, [], ◌∷◌};
ghost use Rattle.std.specs.Bool.{OnTrue};
ghost use Rattle.lemma_book.specs.Book.{IsLegal};
ghost use Rattle.lemma_book.specs.Entry.{first_entries};
ghost use Rattle.lemma_book.specs.Good.{IsGood};
ghost use Rattle.lemma_book.specs.Machine.{opened};

use crate::entries;
use crate::lemmas::MERGE;
use crate::pairs::{Case, check, expect, swapped_ands};
use lemma_book::{Book, Entry, Judgement, Offered};
use netlist::Net;
use std::alloc::Global;
use std::process::Abort;
use sweep_core::{Event, Reply, State};

fn is_good(alloc: Global, net: &Net, book: &Book, entry: &Entry) -> bool
    requires { IsLegal net.now book.now }
    ensures { OnTrue result (IsGood net.now book.now entry.now) }
{
    matches!(book.judge(alloc, net, entry), Ok(Judgement::Good),)
}

/// The entry that merges one gate to the other, once it is known to be good over the book.
fn good_merge(rt: &impl Abort, alloc: Global, net: &Net, book: &Book) -> Entry
    requires { IsLegal net.now book.now }
    ensures { IsGood net.now book.now result }
{
    let entry = entries::entry(rt, alloc, MERGE);
    assert!(rt; is_good(alloc, net, book, &entry));
    entry
}

/// A number is drawn, the entry offered, the book looked at, and a number drawn once more.
fn events(rt: &impl Abort, alloc: Global, entry: Entry) -> Vec<Event>
    ensures { result.items ≡ Event.Draw 0 ∷ Event.Offer 0 entry ∷ Event.Refresh 1 ∷ Event.Draw 1 ∷ [] }
{
    let mut events = Vec::new(alloc);
    events.push(Event::Draw(0)).expect(rt, "memory");
    events.push(Event::Offer(0, entry)).expect(rt, "memory");
    events.push(Event::Refresh(1)).expect(rt, "memory");
    events.push(Event::Draw(1)).expect(rt, "memory");
    events
}

/// A core of one task and two workers.
fn core(rt: &impl Abort, alloc: Global, book: Book) -> State
    ensures { result ≡ record { tasks = 1; machine = opened book 2 } }
{
    State::new(alloc, book, 1, 2).expect(rt, "memory")
}

/// What the core answers to the events about the entry.
fn replies_to(rt: &impl Abort, alloc: Global, net: &Net, book: Book, entry: Entry) -> Vec<Reply>
    requires empty { book ≡ record { sweep_budget = 1; out_budget = 1; entries = [] } }
    requires legal { IsLegal net.now book }
    requires good { IsGood net.now book entry }
{
    let events = events(rt, alloc, entry);
    core(rt, alloc, book)
        .run(alloc, net, events)
        .expect(rt, "memory")
}

const REPLIES: [Reply; 4] = [
    Reply::Task(Some(0)),
    Reply::Offered(Offered::At(0)),
    Reply::Known(1),
    Reply::Task(None),
];

/// The replies to the events over an empty book.
struct Replies;

impl Case for Replies {
    fn check<A: Abort>(&self, rt: &A, alloc: Global, net: &Net) {
        let book = Book::new(alloc, 1, 1);
        let entry = good_merge(rt, alloc, net, &book);
        let replies = replies_to(rt, alloc, net, book, entry);
        expect(rt, "the replies", replies.as_slice() == REPLIES.as_slice());
    }
}

#[test]
fn core_events(rt: HostRuntime) {
    let alloc = rt.alloc();
    check(&rt, alloc, swapped_ands(&rt, alloc), &Replies);
}

/// What the core answers to a draw, made as its only event.
fn reply_to_draw(rt: &impl Abort, alloc: Global, net: &Net, book: Book) -> Reply
    requires { IsLegal net.now book }
{
    core(rt, alloc, book)
        .step(alloc, net, Event::Draw(0))
        .expect(rt, "memory")
}

/// The answer of the book to an entry that is good over an empty one, without judging it again.
fn appended(rt: &impl Abort, alloc: Global, net: &Net, book: &mut Book, entry: Entry) -> Offered
    requires legal { IsLegal net.now book.old }
    requires good { IsGood net.now (first_entries 0 book.old) entry }
    ensures legal { IsLegal net.now book.new }
    ensures first { first_entries 0 book.new ≡ first_entries 0 book.old }
{
    match book.append(alloc, net, 0, entry) {
        Ok(offered) => offered,
        Err(_) => rt.panic("memory"),
    }
}

/// The answers of the empty book to two entries that are good over it.
fn answers_to_both(
    rt: &impl Abort,
    alloc: Global,
    net: &Net,
    book: Book,
    first: Entry,
    again: Entry,
) -> [Offered; 2]
    requires empty { book ≡ record { sweep_budget = 1; out_budget = 1; entries = [] } }
    requires legal { IsLegal net.now book }
    requires first { IsGood net.now book first }
    requires again { IsGood net.now book again }
{
    let mut book = book;
    let one = appended(rt, alloc, net, &mut book, first);
    let two = appended(rt, alloc, net, &mut book, again);
    [one, two]
}

const ANSWERS: [Offered; 2] = [Offered::At(0), Offered::Already(0)];

/// One event, and an entry that is appended twice.
struct OneByOne;

impl Case for OneByOne {
    fn check<A: Abort>(&self, rt: &A, alloc: Global, net: &Net) {
        let reply = reply_to_draw(rt, alloc, net, Book::new(alloc, 1, 1));
        expect(rt, "the first task", reply == Reply::Task(Some(0)));
        let book = Book::new(alloc, 1, 1);
        let first = good_merge(rt, alloc, net, &book);
        let again = good_merge(rt, alloc, net, &book);
        let answers = answers_to_both(rt, alloc, net, book, first, again);
        expect(
            rt,
            "appended twice",
            answers.as_slice() == ANSWERS.as_slice(),
        );
    }
}

#[test]
fn step_and_append(rt: HostRuntime) {
    let alloc = rt.alloc();
    check(&rt, alloc, swapped_ands(&rt, alloc), &OneByOne);
}
