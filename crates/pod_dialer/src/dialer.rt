//! The dialer.

ghost use Rattle.std.specs.Prelude.{◌≡◌, ◌≤◌, false, IfOk};
ghost use Rattle.proxy_links.specs.Links.{record_of};
ghost use Rattle.memory_links.specs.Ledgers.{links_by, no_dials};

use crate::halves::{Making, PodSink, PodSource};
use memory_links::Ledger;
use pgw_frames::NoMemory;
use proxy_links::{Dial, Dialed, Dialer};
use proxy_outside::{Machine, Place};
use session_model::Session;
use std::alloc::Global;
use std::sync::{Arc, Mutex, Wait};

/// A link that was hung up.
#[derive(Drop)]
pub struct PodHungUp<'a, R: Wait, S: Session> {
    pub place: Place,
    pub tx: PodSink<'a, R, S>,
    pub rx: PodSource<'a, R, S>,
}

/// Opens links to sessions of one kind, which share a store that is opened when the dialer is made. A dial fails
/// only where there is no memory.
#[derive(Drop)]
pub struct PodDialer<'a, R: Wait, S: Session> {
    making: Making<'a, R, S>,
    ledger: Ledger<PodHungUp<'a, R, S>>,
}

impl<'a, R: Wait, S: Session> PodDialer<'a, R, S> {
    /// `piece` is the most bytes of one read or write.
    pub fn make(rt: &'a R, alloc: Global, piece: usize) -> Result<PodDialer<'a, R, S>, NoMemory>
        requires { 1 ≤ piece }
        ensures { IfOk result (λ d. d.ledger ≡ no_dials) }
    {
        let store = Arc::new(alloc, Mutex::new(S::Store::opening(alloc)?))?;
        Ok(PodDialer {
            making: Making {
                alloc,
                rt,
                store,
                piece,
            },
            ledger: Ledger::make(alloc, 0)?,
        })
    }

    /// The links that were hung up, in that order.
    pub fn hung_up(&self) -> &[PodHungUp<'a, R, S>] {
        self.ledger.hung_up()
    }

    /// All dials, unless memory was wanted for one.
    pub fn dials(&self) -> &[Dial] {
        self.ledger.dials()
    }
}

impl<'a, R: Wait + Sync, S: Session + Send> Dialer for PodDialer<'a, R, S>
where
    S::Store: Send,
{
    type Tx = PodSink<'a, R, S>;

    type Rx = PodSource<'a, R, S>;

    ghost links = { λ d. links_by (λ h. record_of h.rx.link h.place (record { tx_faults = h.tx.faults; rx_faults = h.rx.faults; waits = h.rx.waits; ended = false }) h.tx.sent h.rx.got) d.ledger };

    fn dial(&mut self, at: Place) -> Dialed<PodSink<'a, R, S>, PodSource<'a, R, S>> {
        if let Ok((tx, rx)) = self.making.halves(self.ledger.dialed()) {
            if self.ledger.open(at) {
                return Dialed::Link(tx, rx);
            }
        }
        self.ledger.fail(at);
        Dialed::Failed
    }

    fn hang_up(&mut self, tx: PodSink<'a, R, S>, rx: PodSource<'a, R, S>) {
        let place = self.ledger.place_of(rx.link);
        self.ledger.close(PodHungUp { place, tx, rx });
    }
}
