//! What the board claims of its lock, and what each kind of step tells a pass.
ghost use Rattle.std.specs.Prelude.{[]};
ghost use Rattle.netlist.specs.Net.{AigPair};
ghost use Rattle.lemma_book.specs.declared.entry.Entry.{Entry};
ghost use Rattle.lemma_book.specs.declared.entry.Entry.TheVariants.{Out};
ghost use Rattle.board_lock.specs.declared.view.Note.{Note};
ghost use Rattle.board_lock.specs.Story.{no_story};
ghost use Rattle.board_lock.specs.Rule.{Claimed, made};
ghost use Rattle.board_lock.specs.Views.{first_of, new_of, both_of, spent};
ghost use Rattle.board_lock.specs.Plays.{Sees, noted_by, AreNoted, missed_by, drew_by, IsAbove, no_note, no_net};

use crate::about::About;
use crate::history::History;
use crate::view::Own;
use std::marker::{Brand, PhantomData};
use ticket_lock::{Claim, Drawing, Ending, Join, Lesson, Split, TicketLock};

/// The claim of a board: its lock's slot has one legal history, which passes know.
pub struct Law;

impl Claim<History, Own, About> for Law {
    ghost holds = { Claimed };

    ghost first = { first_of };

    ghost made = { made };

    ghost blank = { no_story };
}

pub type Lock = TicketLock<History, Own, About, Law>;

pub type Place = ticket_lock::Place<History, Own>;

/// Which net a board is about: a step tells of the book that it is legal over the net.
pub trait Over {
    ghost net: { AigPair };
}

impl Over for Brand {
    ghost net = { no_net };
}

pub struct Look<N: Over>(PhantomData<N>);

impl<N: Over> Lesson<History, Own> for Look<N> {
    ghost fact = { Sees N.net };
}

/// What a turn is noted as.
pub trait Noting {
    ghost note: { Note };
}

impl Noting for Brand {
    ghost note = { no_note };
}

pub struct Noted<N: Noting>(PhantomData<N>);

impl<N: Noting> Ending<History, Own> for Noted<N> {
    ghost after = { noted_by N.note };

    ghost told = { AreNoted N.note };
}

pub struct Missed;

impl Ending<History, Own> for Missed {
    ghost after = { missed_by };

    ghost told = { λ _ _. Unit {0} };
}

/// Which entry is offered.
pub trait Asked {
    ghost entry: { Entry };
}

impl Asked for Brand {
    ghost entry = { Out 0 [] };
}

pub struct Task;

impl Drawing<Own> for Task {
    ghost after = { drew_by };

    ghost told = { IsAbove };
}

pub struct Cut;

impl Split<Own> for Cut {
    ghost left = { λ o. o };

    ghost right = { new_of };
}

pub struct Glue;

impl Join<Own> for Glue {
    ghost both = { both_of };

    ghost spent = { spent };
}
