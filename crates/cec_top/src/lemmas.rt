//! Lemmas that an earlier run saved, and those that this one saves.
ghost use Rattle.std.specs.Prelude.{◌≡◌, ◌∷◌, ℕ, List, [], None, Some, option_map};
ghost use Rattle.endings.specs.Reading.{ReadsAs};
ghost use Rattle.endings.specs.Writing.{Says};
ghost use Rattle.book_file.specs.Reading.{SpellsBook};
ghost use Rattle.check_session.specs.Check.{opened};
ghost use Rattle.cec_top.specs.Inputs.{lemma_file};
ghost use Rattle.cec_top.specs.Steps.{LoadsLemmas, SavesLemmas, lemmas_place};
ghost use Rattle.cec_top.specs.Texts.{lemmas_line};

use crate::kept::Kept;
use crate::lines::lemma_fault;
use crate::script::SCRIPT_PLACE;
use crate::texts::lemmas_line;
use book_file::BookErr;
use check_session::Session;
use desk_port::{Desk, PutErr};
use endings::{Content, Stop, read_file, say, write_file};
use lemma_book::{Book, Entry};
use std::alloc::Global;

/// The place of the lemma file among the files that are read.
pub(crate) fn lemmas_place(edits: Option<&str>) -> usize
    ensures { result ≡ lemmas_place (option_map (λ s. s.now) edits.entry) }
{
    match edits {
        Some(_) => SCRIPT_PLACE + 1,
        None => SCRIPT_PLACE,
    }
}

/// Lets a session that was just opened go on from the lemmas of the file that is named, if one is, and says how
/// many of them it takes.
pub(crate) fn load_lemmas<D: Desk>(
    alloc: Global,
    desk: &mut D,
    session: &mut Session,
    load: Option<&str>,
    file: usize,
) -> Result<(), Stop>
    requires opened { session.old ≡ opened session.old.net session.old.options }
    ensures { LoadsLemmas (option_map (λ s. s.now) load.entry) file session.old session.new
        (D.state desk.old) (D.state desk.new) result }
{
    match load {
        Some(name) => {
            let entries = read_entries(alloc, desk, name, file)?;
            let given = entries.len() as u64;
            let taken = session.load(alloc, entries)?;
            say_lemmas(alloc, desk, taken, given)
        }
        None => Ok(()),
    }
}

/// The entries of the named file, which is this one of those that are read.
fn read_entries<D: Desk>(
    alloc: Global,
    desk: &mut D,
    name: &str,
    file: usize,
) -> Result<Vec<Entry>, Stop>
    ensures { (earlier : List (List ℕ)) →
        ReadsAs (λ bytes v. SpellsBook bytes v.items) file (lemma_file name.now) earlier
        (D.state desk.old) (D.state desk.new) result }
{
    let bytes = read_file(alloc, desk, name, file)?;
    match book_file::read(alloc, bytes.as_slice()) {
        Ok(entries) => Ok(entries),
        Err(BookErr::NoMemory) => Err(Stop::OutOfMemory),
        Err(fault) => {
            let text = lemma_fault(alloc, fault)?;
            Err(Stop::BadFile(file, text))
        }
    }
}

/// Says how many lemmas of a file were taken, of how many.
fn say_lemmas<D: Desk>(alloc: Global, desk: &mut D, taken: u64, given: u64) -> Result<(), Stop>
    ensures { Says (lemmas_line taken given) (D.state desk.old) (D.state desk.new) result }
{
    let text = lemmas_line(alloc, taken, given)?;
    say(desk, text.as_slice())
}

/// The lemmas of a book, as a file has them.
#[derive(Clone, Copy)]
struct Lemmas<'a>(&'a Book);

impl Content for Lemmas<'_> {
    ghost use Rattle.book_file.specs.Writing.{book_text};

    type Told = ();

    ghost is_ready = { λ _. Unit {0} };

    ghost bytes = { λ l. book_text l.0.now.entries };

    ghost tells = { λ _ _. Unit {0} };

    fn put<D: Desk>(&self, alloc: Global, desk: &mut D) -> Result<(), PutErr> {
        book_file::print(alloc, desk, self.0)
    }
}

/// Saves the lemmas of the last book that is kept in the file that is named, if one is.
pub(crate) fn save_lemmas<D: Desk>(
    alloc: Global,
    desk: &mut D,
    save: Option<&str>,
    kept: &[Kept],
) -> Result<(), Stop>
    requires started { (D.state desk.old).started ≡ None }
    ensures { SavesLemmas (option_map (λ s. s.now) save.entry) kept.now
        (D.state desk.old) (D.state desk.new) result }
{
    match save {
        Some(name) => match kept.last() {
            Some(last) => save_book(alloc, desk, name, &last.book),
            None => Ok(()),
        },
        None => Ok(()),
    }
}

/// Saves the lemmas of a book in the named file.
fn save_book<D: Desk>(alloc: Global, desk: &mut D, name: &str, book: &Book) -> Result<(), Stop>
    requires started { (D.state desk.old).started ≡ None }
    ensures { SavesLemmas (Some name.now) (record { check = 0; book = book.now } ∷ [])
        (D.state desk.old) (D.state desk.new) result }
{
    write_file(alloc, desk, name, &Lemmas(book))?;
    Ok(())
}
