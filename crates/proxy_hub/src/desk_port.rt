//! A hub that threads share, asked by one of them.

ghost use Rattle.std.specs.Prelude.{◌≡◌, [], List};
ghost use Rattle.counted_desk.specs.History.{IsLegal};
ghost use Rattle.proxy_hub.specs.Steps.{hub_rules};
ghost use Rattle.proxy_hub.specs.AtDesks.{at_desk, asked_by, AreAnswered, AdmitsTheUnrefused};

use crate::command::HubCommand;
use crate::fault::HubFault;
use crate::hub::Hub;
use crate::port::HubPort;
use crate::reply::HubReply;
use counted_desk::{Desk, Seat};
use std::marker::Model;
use std::sync::Wait;

/// A port of a desk over a hub. Contracts see the seat through which it asks, and its refusals; what it lists
/// are the seat's own calls, those before it was made among them.
#[derive(Drop)]
pub struct DeskPort<'a> {
    desk: &'a Desk<Hub>,
    seat: Seat<Hub>,
    refusals: u64,
}

impl<'a> Model for DeskPort<'a> {
    ghost use Rattle.proxy_hub.specs.AtDesks.{AtDesk, at_desk};
    ghost use Rattle.std.specs.Prelude.{◌≡◌};

    ghost Value = { AtDesk };

    ghost view = { λ p. at_desk p.seat p.refusals };

    ghost invariant = { λ p. p.seat.desk ≡ p.desk.now };
}

impl<'a> DeskPort<'a> {
    /// A port over a seat of this desk, with no refusal yet. It takes no memory.
    pub fn make(desk: &'a Desk<Hub>, seat: Seat<Hub>) -> DeskPort<'a>
        requires { seat.desk ≡ desk.now }
        ensures { result ≡ at_desk seat 0 }
    {
        DeskPort {
            desk,
            seat,
            refusals: 0,
        }
    }

    /// Gives the seat back. It takes no memory.
    pub fn end(self) -> Seat<Hub>
        ensures { result ≡ self.entry.seat }
    {
        let DeskPort {
            desk: _,
            seat,
            refusals: _,
        } = self;
        seat
    }

    /// Says that all that was asked here stands in one legal history of the hub, each ask at a place of its own,
    /// where its reply is the hub's in the state to which the commands before it lead; so that who was admitted had nothing against a
    /// session there, by lists, throttle, tenant, pods and numbers.
    pub fn asks_in_one_legal_history(&self)
        ensures legal { IsLegal hub_rules self.now.seat.seen }
        ensures answered { AreAnswered self.now.seat.seen (asked_by self.now.seat) }
        ensures admitted { AdmitsTheUnrefused self.now.seat.seen }
    {
        self.seat.has_seen_a_legal_history();
    }
}

impl<'a> HubPort for DeskPort<'a> {
    ghost use Rattle.proxy_hub.specs.AtDesks.{port_of, Sees};
    ghost use Rattle.proxy_hub.specs.Ports.{Asks};

    ghost port = { port_of };

    /// Beside what every port says, the command stands behind all that the seat had seen; and the answer is
    /// `JournalFull` exactly where the desk's journal was full at this turn.
    fn ask<R: Wait>(&mut self, rt: &R, c: HubCommand) -> Result<HubReply, HubFault>
        ensures asks { Asks (port_of self.old) (port_of self.new) c result }
        ensures sees { Sees self.old.seat self.new.seat c result }
    {
        match self.desk.call(rt, &mut self.seat, c) {
            Ok(receipt) => Ok(receipt.reply),
            Err(fault) => {
                self.refusals = self.refusals.saturating_add(1);
                Err(HubFault::from(fault))
            }
        }
    }
}

#[cfg(test)]
mod tests;
