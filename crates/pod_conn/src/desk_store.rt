//! A store that threads share, asked by one of them.

ghost use Rattle.std.specs.Prelude.{◌≡◌};
ghost use Rattle.counted_desk.specs.History.{IsLegal, AreAnsweredIn};
ghost use Rattle.pod_conn.specs.AtDesks.{at_desk};

use crate::port::StorePort;
use counted_desk::{CallFault, Desk, Seat};
use proxy_outside::Machine;
use std::marker::Model;
use std::sync::Wait;

/// A port of a desk over a store. Contracts see the seat through which it asks, and its refusals; what it lists are the
/// seat's own calls, those before it was made among them.
#[derive(Drop)]
pub struct DeskStore<'a, M: Machine> {
    desk: &'a Desk<M>,
    seat: Seat<M>,
    refusals: u64,
}

impl<'a, M: Machine> Model for DeskStore<'a, M> {
    ghost use Rattle.pod_conn.specs.AtDesks.{AtDesk, at_desk};
    ghost use Rattle.std.specs.Prelude.{◌≡◌};

    ghost Value = { AtDesk M.Command M.Reply };

    ghost view = { λ p. at_desk p.seat p.refusals };

    ghost invariant = { λ p. p.seat.desk ≡ p.desk.now };
}

impl<'a, M: Machine> DeskStore<'a, M> {
    /// A port over a seat of this desk, with no refusal yet. It takes no memory.
    pub fn make(desk: &'a Desk<M>, seat: Seat<M>) -> DeskStore<'a, M>
        requires { seat.desk ≡ desk.now }
        ensures { result ≡ at_desk seat 0 }
    {
        DeskStore {
            desk,
            seat,
            refusals: 0,
        }
    }

    /// Gives the seat back. It takes no memory.
    pub fn end(self) -> Seat<M>
        ensures { result ≡ self.entry.seat }
    {
        let DeskStore {
            desk: _,
            seat,
            refusals: _,
        } = self;
        seat
    }

    /// Says that all that was asked here stands in one legal history of the store, each ask at a place of its own, where its
    /// answer is the store's in the state to which the commands before it lead.
    pub fn asks_in_one_legal_history(&self)
        ensures legal { IsLegal M.rules self.now.seat.seen }
        ensures answered { AreAnsweredIn M.rules self.now.seat.seen self.now.seat.own }
    {
        self.seat.has_seen_a_legal_history();
    }
}

impl<'a, M: Machine> StorePort<M> for DeskStore<'a, M> {
    ghost use Rattle.pod_conn.specs.AtDesks.{port_of, Sees};
    ghost use Rattle.pod_conn.specs.Ports.{Asks};

    ghost port = { port_of };

    /// Beside what every port says, the command stands behind all that the seat had seen; and the answer is `JournalFull`
    /// exactly where the desk's journal was full at this turn.
    fn ask<R: Wait>(&mut self, rt: &R, c: M::Command) -> Result<M::Reply, CallFault>
        ensures asks { Asks M.rules (port_of self.old) (port_of self.new) c result }
        ensures sees { Sees M.rules self.old.seat self.new.seat c result }
    {
        match self.desk.call(rt, &mut self.seat, c) {
            Ok(receipt) => Ok(receipt.reply),
            Err(fault) => {
                self.refusals = self.refusals.saturating_add(1);
                Err(fault)
            }
        }
    }
}
