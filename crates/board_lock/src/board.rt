//! The board: a book under a ticket lock.
ghost use Rattle.std.specs.Prelude.{◌≡◌, ◌≤◌, [], ◌∷◌, IfOk, IfErr, length};
ghost use Rattle.lemma_book.specs.Book.{IsLegal};
ghost use Rattle.board_lock.specs.Story.{Story};
ghost use Rattle.board_lock.specs.Views.{opener};
ghost use Rattle.board_lock.specs.Pass.{opened, IsWholePass};
ghost use Rattle.board_lock.specs.Closed.{IsClosed};

use crate::about::About;
use crate::history::History;
use crate::pass::Pass;
use crate::plays::{Lock, Place};
use lemma_book::{Book, Turn};
use lits::Listed;
use netlist::Net;
use std::alloc::{AllocError, Global};
use std::marker::Model;

/// A book that many threads share, and how many tasks there are to be drawn.
///
/// In the lock's slot lie the book and the turns. The numbers that the lock draws are those of the tasks.
#[derive(Drop)]
pub struct Board {
    pub(crate) lock: Lock,
    pub(crate) tasks: u64,
}

impl Model for Board {
    ghost use Rattle.board_lock.specs.Pass.{Post};

    ghost Value = { Post };

    ghost view = { λ b. record {
      table = b.lock.table;
      root = b.lock.about;
      tasks = b.tasks;
    } };
}

/// What was done on a board: the turns in order, how many were missed, and how many numbers were drawn.
#[derive(Drop)]
pub struct Record {
    pub turns: Listed<Turn>,
    pub missed: u64,
    pub drawn: u64,
}

impl Board {
    /// A board over a net, with its book, and the first pass, which has all 2^62 turns. Where memory is
    /// refused the book comes back.
    pub fn open(
        alloc: Global,
        net: &Net,
        book: Book,
        tasks: u64,
    ) -> Result<(Board, Pass), (Book, AllocError)>
        requires { IsLegal net.now book }
        ensures root { IfOk result (λ r. r.0.root ≡ record { net = net.now; opening = book }) }
        ensures tasks { IfOk result (λ r. r.0.tasks ≡ tasks) }
        ensures pass { IfOk result (λ r. r.1 ≡ opened r.0) }
        ensures err { IfErr result (λ e. e.0 ≡ book) }
    {
        let Ok(about) = about(alloc, net, &book) else {
            return Err((book, AllocError));
        };
        match lock_about(alloc, &about, book) {
            Ok((lock, place)) => {
                let About { net: _, opening } = about;
                let pass = Pass::of(place, 0, opening, 1 << 62);
                Ok((Board { lock, tasks }, pass))
            }
            Err(book) => Err((book, AllocError)),
        }
    }

    /// Ends the board with the pass that is whole: no other pass has a turn left. Gives the book, and the
    /// record of how it came about.
    pub fn close(self, pass: Pass) -> (Book, Record)
        requires own { pass.table ≡ self.table }
        requires whole { IsWholePass pass }
        ensures { IsClosed self.root pass result.0 result.1.turns result.1.missed result.1.drawn }
    {
        let Board { lock, tasks: _ } = self;
        let (history, drawn) = lock.close(pass.into_place());
        let (book, turns, missed) = history.into_parts();
        let record = Record {
            turns: Listed::of(turns),
            missed,
            drawn,
        };
        (book, record)
    }
}

/// The lock over the book's one history, which has no turn yet, and the place of the first pass. Where memory
/// is refused the book comes back.
fn lock_about(alloc: Global, about: &About, book: Book) -> Result<(Lock, Place), Book>
    requires legal { IsLegal about.now.net book }
    requires opening { about.now.opening ≡ book }
    ensures lock { IfOk result (λ t. t.0.about ≡ about.now) }
    ensures place { IfOk result (λ t. (t.1.table_id ≡ t.0.table) × (t.1.me ≡ (opener about.now, []))) }
    ensures err { IfErr result (λ b. b ≡ book) }
{
    match Lock::open(alloc, History::of(alloc, book), about) {
        Ok(laid) => Ok(laid),
        Err(history) => Err(history.into_parts().0),
    }
}

/// Copies of the net and of the book. The table is told them when it is made, and keeps neither: the first pass
/// gets the book.
fn about(alloc: Global, net: &Net, book: &Book) -> Result<About, AllocError>
    ensures { IfOk result (λ a. a ≡ record { net = net.now; opening = book.now }) }
{
    Ok(About {
        net: net.copy(alloc)?,
        opening: book.copy(alloc)?,
    })
}
