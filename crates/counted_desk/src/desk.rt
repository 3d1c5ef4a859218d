//! The desk and its seats.
ghost use Rattle.std.specs.Prelude.{◌≡◌, [], ◌++◌, ◌⊎◌, IfOk, IfErr};
ghost use Rattle.pgw_frames.specs.Frames.{Begins};
ghost use Rattle.counted_desk.specs.History.{IsLegal, IsOwnOf, AreAnsweredIn};

use crate::answer::{CallFault, Closed, Receipt};
use crate::journal::Journal;
use crate::logged::{Logged, log_call};
use crate::ticket_lock::{LockSeat, TicketLock};
use pgw_frames::NoMemory;
use proxy_outside::Machine;
use std::alloc::Global;
use std::boxed::Box;
use std::marker::Model;
use std::sync::Wait;

/// One machine that many threads call. Contracts see which desk it is, and how many entries its
/// journal takes at most.
#[derive(Drop)]
pub struct Desk<M: Machine> {
    lock: TicketLock<M>,
}

impl<M: Machine> Model for Desk<M> {
    ghost use Rattle.counted_desk.specs.Seats.{DeskId, desk_id};

    ghost Value = { DeskId };

    ghost view = { λ d. desk_id d.lock.table.shared.table_id d.lock.most };
}

/// One caller of a desk. Contracts see its desk, the ticket that it drew last, the history that it
/// has seen, and its own calls.
#[derive(Drop)]
pub struct Seat<M: Machine> {
    lock_seat: LockSeat<M>,
}

impl<M: Machine> Model for Seat<M> {
    ghost use Rattle.counted_desk.specs.Seats.{Sight, sight, IsAtRest};

    ghost Value = { Sight M.Command M.Reply };

    ghost view = { λ s. sight s.lock_seat.table_id s.lock_seat.me.0 };

    ghost invariant = { λ s. IsAtRest M.rules s.lock_seat.me };
}

impl<M: Machine> Seat<M> {
    /// Says that what the seat has seen is legal, that its own calls stand in it, each at a place of its own, and
    /// that each of them has the reply of the machine behind the calls before it.
    pub fn has_seen_a_legal_history(&self)
        ensures legal { IsLegal M.rules self.now.seen }
        ensures own { IsOwnOf self.now.own self.now.seen }
        ensures answered { AreAnsweredIn M.rules self.now.seen self.now.own }
    {
        let _lock_seat = &self.lock_seat;
    }
}

impl<M: Machine> Desk<M> {
    ghost use Rattle.counted_desk.specs.Calls.{Made, Missed, ClosedAs};

    /// A desk at its machine's opening, whose journal takes `most` entries, and its first seat.
    pub fn make(alloc: Global, most: u32) -> Result<(Desk<M>, Seat<M>), NoMemory>
        ensures most { IfOk result (λ r. r.0.most ≡ most) }
        ensures seat { IfOk result (λ r. (r.1.desk ≡ r.0) × (r.1.seen ≡ []) × (r.1.own ≡ [])) }
    {
        let (lock, lock_seat) = TicketLock::open(alloc, most)?;
        Ok((Desk { lock }, Seat { lock_seat }))
    }

    /// Waits for its turn and has the machine answer the command. At its return the seat has seen
    /// the whole history up to this turn.
    pub fn call<R: Wait>(
        &self,
        rt: &R,
        seat: &mut Seat<M>,
        command: M::Command,
    ) -> Result<Receipt<M::Reply>, CallFault>
        requires { seat.old.desk ≡ self.now }
        ensures desk { seat.new.desk ≡ self.now }
        ensures ok { IfOk result (Made M.rules self.now.most seat.old seat.new command) }
        ensures err { IfErr result (Missed M.rules self.now.most seat.old seat.new) }
    {
        let (ticket, mut logged) = self.lock.enter(rt, &mut seat.lock_seat);
        let answer = log_call(&mut *logged, self.lock.most, ticket, command);
        self.lock.leave(&mut seat.lock_seat, logged);
        answer
    }

    /// A seat that has seen the same history and made no call.
    pub fn split(&self, seat: &mut Seat<M>) -> Result<Seat<M>, NoMemory>
        requires { seat.old.desk ≡ self.now }
        ensures kept { seat.new ≡ seat.old }
        ensures desk { IfOk result (λ s. s.desk ≡ self.now) }
        ensures new { IfOk result (λ s. (s.seen ≡ seat.old.seen) × (s.own ≡ [])) }
    {
        let lock_seat = self.lock.split(&mut seat.lock_seat);
        Ok(Seat { lock_seat })
    }

    /// Makes two seats one, which has seen the longer of both histories and made all the calls.
    pub fn join(&self, into: &mut Seat<M>, other: Seat<M>)
        requires into { into.old.desk ≡ self.now }
        requires other { other.desk ≡ self.now }
        ensures desk { into.new.desk ≡ self.now }
        ensures one { (into.new.seen ≡ into.old.seen) ⊎ (into.new.seen ≡ other.seen) }
        ensures longer { Begins into.old.seen into.new.seen × Begins other.seen into.new.seen }
        ensures own { into.new.own ≡ into.old.own ++ other.own }
        ensures within { IsOwnOf into.new.own into.new.seen }
    {
        let Seat { lock_seat } = other;
        self.lock.join(&mut into.lock_seat, lock_seat);
    }

    /// Ends the desk: the machine, and the journal of all the calls that it took.
    pub fn close(self, seat: Seat<M>) -> Closed<M, Journal<M>>
        requires { seat.desk ≡ self }
        ensures { ClosedAs M.stands_for M.rules seat result }
    {
        let Desk { lock } = self;
        let Seat { lock_seat } = seat;
        match lock.shut(lock_seat) {
            Some(logged) => {
                let Logged { machine, journal } = Box::into_inner(logged);
                Closed::Whole(machine, Journal::of(journal))
            }
            None => Closed::Held,
        }
    }
}
