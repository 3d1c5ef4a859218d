//! What a dialer in memory keeps of its dials and of the links that were hung up.

ghost use Rattle.std.specs.Prelude.{◌≡◌, ◌≤◌, ◌<◌, ◌+◌, ◌-◌, ◌^◌, ◌∷◌, ◌++◌, min, [], true, false, IfOk};
ghost use Rattle.proxy_links.specs.Told.{Grows};

use pgw_frames::NoMemory;
use proxy_links::Dial;
use proxy_outside::{Addr, Place, PodNo};
use std::alloc::Global;
use std::marker::Model;

/// The dials of a dialer, how many of its links are open, and what is kept of those that were hung up. The room
/// for that is made when a link comes.
#[derive(Drop)]
pub struct Ledger<H> {
    dials: Vec<Dial>,
    tells: bool,
    dialed: u64,
    live: usize,
    hung: Vec<H>,
    faults: u64,
}

impl<H> Model for Ledger<H> {
    ghost use Rattle.std.specs.Prelude.{length, vec_capacity};
    ghost use Rattle.memory_links.specs.Ledgers.{Dialing, IsRoomy, told_if};

    ghost Value = { Dialing H };

    ghost view = { λ l. record { dials = told_if l.tells l.dials.items; dialed = l.dialed; live = l.live; hung = l.hung.items; faults = l.faults } };

    ghost invariant = { λ l. IsRoomy (length l.hung.items) l.live l.dialed (vec_capacity l.hung) };
}

impl<H> Ledger<H> {
    ghost use Rattle.memory_links.specs.Ledgers.{no_dials, IsPlaceAt, Opened};

    /// Of no dials yet, with room for so many.
    pub fn make(alloc: Global, room: usize) -> Result<Ledger<H>, NoMemory>
        ensures { IfOk result (λ l. l ≡ no_dials) }
    {
        let mut dials = Vec::new(alloc);
        dials.reserve(room)?;
        Ok(Ledger {
            dials,
            tells: true,
            dialed: 0,
            live: 0,
            hung: Vec::new(alloc),
            faults: 0,
        })
    }

    /// All dials, unless memory was wanted for one.
    pub fn dials(&self) -> &[Dial] {
        self.dials.as_slice()
    }

    /// What is kept of the links that were hung up, in that order.
    pub fn hung_up(&self) -> &[H]
        ensures { result.now ≡ self.now.hung }
    {
        self.hung.as_slice()
    }

    /// How many dials there were, which is the number of the next link.
    pub fn dialed(&self) -> u64
        ensures { result ≡ self.now.dialed }
    {
        self.dialed
    }

    /// Where the link with this number leads.
    pub fn place_of(&self, number: u64) -> Place
        ensures { IsPlaceAt self.now.dials number result }
    {
        match self.dials.as_slice().get(number as usize) {
            Some(dial) => dial.place,
            None => Place {
                pod: PodNo(0),
                addr: Addr::V4(0),
                port: 0,
            },
        }
    }

    /// Notes a dial in the list, where there is room.
    fn note(&mut self, dial: Dial)
        ensures dials { Grows self.old.dials self.new.dials (dial ∷ []) }
        ensures others { self.new ≡ record self.old { dials = self.new.dials } }
    {
        if self.tells && self.dials.push(dial).is_err() {
            self.tells = false;
        }
    }

    /// A link came, unless there is no room for what will be kept of it.
    pub fn open(&mut self, place: Place) -> bool
        ensures { Opened result self.old self.new place }
    {
        if self.dialed == u64::MAX || self.hung.reserve(self.live + 1).is_err() {
            return false;
        }
        self.live += 1;
        self.dialed += 1;
        self.note(Dial { place, came: true });
        true
    }

    /// None came.
    pub fn fail(&mut self, place: Place)
        ensures faults { self.old.faults ≤ self.new.faults }
        ensures dials { Grows self.old.dials self.new.dials (record { place = place; came = false } ∷ []) }
        ensures others { self.new ≡ record self.old { dials = self.new.dials; dialed = min (self.old.dialed + 1) (2 ^ 64 - 1); faults = min (self.old.faults + 1) (2 ^ 64 - 1) } }
    {
        self.dialed = self.dialed.saturating_add(1);
        self.faults = self.faults.saturating_add(1);
        self.note(Dial { place, came: false });
    }

    /// A link was hung up, of which this is kept.
    pub fn close(&mut self, kept: H)
        requires { 1 ≤ self.old.live }
        ensures { self.new ≡ record self.old { live = self.old.live - 1; hung = self.old.hung ++ kept ∷ [] } }
    {
        self.live -= 1;
        self.hung.push_reserved(kept);
    }
}
