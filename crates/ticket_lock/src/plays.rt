//! The rule of the lock's table, and what each kind of step on it tells.
ghost use Rattle.std.specs.Prelude.{ℕ};
ghost use Rattle.ticket_lock.specs.Rule.{Kept};
ghost use Rattle.ticket_lock.specs.Views.{opener, kept_of, cut_of, both_of, spent};
ghost use Rattle.ticket_lock.specs.Plays.{Ticketed, Looked, Released, Drawn, Numbered};

use crate::claim::{Claim, Drawing, Ending, Lesson};
use crate::view::View;
use atomic_table::{Join, Play, Split, TableRule};
use std::marker::{Brand, PhantomData};

/// The rule of a lock under a claim.
pub struct Law<C>(PhantomData<C>);

impl<S, U, K, C: Claim<S, U, K>> TableRule<S, View<S, U>, K> for Law<C> {
    ghost holds = { λ about. Kept (C.holds about) };

    ghost first = { λ about. opener C.blank (C.first about) };
}

pub struct Ticket;

impl<S, U> Play<S, View<S, U>> for Ticket {
    ghost then = { Ticketed };
}

pub struct Look<L>(PhantomData<L>);

impl<S, U, L: Lesson<S, U>> Play<S, View<S, U>> for Look<L> {
    ghost then = { Looked L.fact };
}

pub struct Leave<E>(PhantomData<E>);

impl<S, U, E: Ending<S, U>> Play<S, View<S, U>> for Leave<E> {
    ghost then = { Released E.after E.told };
}

pub struct Draw<D>(PhantomData<D>);

impl<S, U, D: Drawing<U>> Play<S, View<S, U>> for Draw<D> {
    ghost then = { Drawn D.after D.told };
}

pub struct Number;

impl<S, U> Play<S, View<S, U>> for Number {
    ghost then = { Numbered };
}

/// How many turns a new pass gets.
pub trait Amount {
    ghost amount: { ℕ };
}

impl Amount for Brand {
    ghost amount = { 0 };
}

pub struct Cut<M, N>(PhantomData<(M, N)>);

impl<S, U, M: Split<U>, N: Amount> Split<View<S, U>> for Cut<M, N> {
    ghost left = { kept_of M.left N.amount };

    ghost right = { cut_of M.right N.amount };
}

pub struct Glue<K, C, M>(PhantomData<(K, C, M)>);

impl<S, U, K, C: Claim<S, U, K>, M: Join<U>> Join<View<S, U>> for Glue<K, C, M> {
    ghost both = { both_of M.both };

    ghost spent = { spent C.blank M.spent };
}
