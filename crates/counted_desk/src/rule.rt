//! The rule of the table, and the names of its steps.
ghost use Rattle.counted_desk.specs.Rule.{IsKept, newcomer, drew, looked, left, compared, copied, joined, spent};

use crate::entry::View;
use crate::logged::Held;
use atomic_table::{Join, Play, Split, TableRule};
use proxy_outside::Machine;
use std::marker::PhantomData;

/// What holds of words, slot and views at every moment.
pub struct DeskRule<M> {
    machine: PhantomData<M>,
}

impl<M: Machine> TableRule<Held<M>, View<M::Command, M::Reply>, u32> for DeskRule<M> {
    ghost use Rattle.std.specs.Prelude.{[]};

    ghost holds = { IsKept M.stands_for M.rules };

    ghost first = { λ most. newcomer most [] };
}

/// A ticket is drawn, where the word still was the one that was found before.
pub(crate) struct Draw<M> {
    machine: PhantomData<M>,
}

impl<M: Machine> Play<Held<M>, View<M::Command, M::Reply>> for Draw<M> {
    ghost then = { drew M.stands_for M.rules };
}

/// The serving word is read; where it is the seat's ticket, the value is taken.
pub(crate) struct Look<M> {
    machine: PhantomData<M>,
}

impl<M: Machine> Play<Held<M>, View<M::Command, M::Reply>> for Look<M> {
    ghost then = { looked M.stands_for M.rules };
}

/// The value is given back, and the next ticket is served.
pub(crate) struct Leave<M> {
    machine: PhantomData<M>,
}

impl<M: Machine> Play<Held<M>, View<M::Command, M::Reply>> for Leave<M> {
    ghost then = { left M.stands_for M.rules };
}

/// The two histories of a join begin one journal, so the shorter begins the longer.
pub(crate) struct Compare<M> {
    machine: PhantomData<M>,
}

impl<M: Machine> Play<Held<M>, View<M::Command, M::Reply>> for Compare<M> {
    ghost then = { compared M.stands_for M.rules };
}

/// The new seat has seen the same, and made no call.
pub(crate) struct CopySeat;

impl<C, R> Split<View<C, R>> for CopySeat {
    ghost left = { λ v. v };

    ghost right = { copied };
}

/// The one seat has the longer history and all calls; the other one is spent.
pub(crate) struct JoinSeats;

impl<C, R> Join<View<C, R>> for JoinSeats {
    ghost both = { joined };

    ghost spent = { spent };
}
