//! What the end of a transfer brings.

ghost use Rattle.std.specs.Prelude.{◌≡◌, true, not, None, Some, is_some, ⊤, OnOk, OnErr};
ghost use Rattle.transfer_stages.specs.Exchange.{ended};
ghost use Rattle.transfer_exchange.specs.Course.{Course, stage_of};
ghost use Rattle.forwarder_core.specs.Transfers.{is_old_end, close_by};

use crate::forwarder::Forwarder;
use crate::phases::enter;
use crate::transfer::step;
use forwarder_world::{Close, Phase};
use pgw_frames::NoMemory;
use session_model::Session;
use transfer_exchange::Exchange;
use transfer_stages::Outcome;

/// Whether the transfer has ended.
fn has_ended(exchange: &Option<Exchange>) -> bool
    ensures { (e : Course) → exchange.now ≡ Some e → result ≡ is_some (ended (stage_of e)) }
{
    match exchange {
        None => false,
        Some(exchange) => exchange.outcome().is_some(),
    }
}

/// Takes out the transfer, and gives what it came to.
fn take_outcome(exchange: &mut Option<Exchange>) -> Option<Outcome>
    ensures value { (e : Course) → exchange.old ≡ Some e → result ≡ ended (stage_of e) }
    ensures none { exchange.new ≡ None }
{
    match exchange.take() {
        None => None,
        Some(exchange) => exchange.into_outcome(),
    }
}

/// Whether the session was moved.
fn is_moved(outcome: &Outcome) -> bool
    ensures { result ≡ not (is_old_end (Some outcome.now)) }
{
    match outcome {
        Outcome::Moved(_) => true,
        Outcome::Refused(_)
        | Outcome::RevivalRefused(_)
        | Outcome::DialFault
        | Outcome::NewCut(_)
        | Outcome::OldCut(_) => false,
    }
}

/// Why the connection is closed, where the old link failed.
fn close_of(outcome: Outcome) -> Option<Close>
    ensures { result ≡ close_by outcome }
{
    match outcome {
        Outcome::OldCut(why) => Some(Close::ExchangeCut(why)),
        Outcome::Moved(_)
        | Outcome::Refused(_)
        | Outcome::RevivalRefused(_)
        | Outcome::DialFault
        | Outcome::NewCut(_) => None,
    }
}

impl<S: Session> Forwarder<S> {
    ghost use Rattle.forwarder_world.specs.World.{comes_to, fails, moved, moves};
    ghost use Rattle.forwarder_core.specs.Stands.{Steps};
    ghost use Rattle.forwarder_core.specs.Transfers.{HasLink, CanEnd, EndsWhere, Settles};

    /// The session stays where it is.
    fn fail(&mut self)
        ensures stands { EndsWhere S.state S.Store.stands_for self.old self.new (λ d. ⊤) (λ d. fails d) }
        ensures kept { self.new.connection.received ≡ self.old.connection.received }
    {
        self.connection.fail();
        self.go_on();
    }

    /// The session is at the new link from now on.
    fn adopt(&mut self)
        ensures stands { EndsWhere S.state S.Store.stands_for self.old self.new (λ d. HasLink d.fresh) (λ d. moved d d.fresh) }
        ensures kept { self.new.connection.received ≡ self.old.connection.received }
    {
        if let Some(link) = self.connection.take_fresh() {
            self.connection.adopt(link);
            self.go_on();
        }
    }

    /// The session stays, or the connection is closed.
    fn end_old(&mut self, outcome: Outcome)
        ensures stands { is_old_end (Some outcome) ≡ true → EndsWhere S.state S.Store.stands_for self.old self.new (λ d. ⊤) (λ d. comes_to d outcome) }
        ensures kept { self.new.connection.received ≡ self.old.connection.received }
    {
        match close_of(outcome) {
            Some(why) => enter(&mut self.phase, Phase::Closed(why)),
            None => self.fail(),
        }
    }

    /// The end of a transfer.
    fn end(&mut self, outcome: Outcome)
        ensures stands { EndsWhere S.state S.Store.stands_for self.old self.new (λ d. CanEnd (Some outcome) d.fresh) (λ d. comes_to d outcome) }
        ensures kept { self.new.connection.received ≡ self.old.connection.received }
    {
        if is_moved(&outcome) {
            self.adopt();
            return;
        }
        self.end_old(outcome);
    }

    /// Ends the transfer, where it has come to its end.
    fn settle(&mut self)
        ensures stands { Settles S.state S.Store.stands_for self.old self.new }
        ensures kept { self.new.connection.received ≡ self.old.connection.received }
    {
        if !has_ended(&self.exchange) {
            return;
        }
        if let Some(outcome) = take_outcome(&mut self.exchange) {
            self.end(outcome);
        }
    }

    /// The transfer takes one step.
    pub(crate) fn advance(&mut self) -> Result<(), NoMemory>
        ensures stands { OnOk result (Steps S.state S.Store.stands_for self.old self.new (λ key p d. moves d p d.mode)) }
        ensures err { OnErr result (self.new.connection.received ≡ self.old.connection.received) }
    {
        match &mut self.exchange {
            None => Ok(()),
            Some(exchange) => {
                step(exchange, &mut self.connection)?;
                self.settle();
                Ok(())
            }
        }
    }
}
