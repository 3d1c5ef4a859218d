//! The store of the session that counts its queries.

use pgw_frames::NoMemory;
use proxy_outside::Machine;
use std::alloc::Global;

/// The store's one command, which changes nothing, and its answer. No session asks it.
#[derive(Clone, Copy, Debug, PartialEq, Eq)]
pub enum Nothing {
    Nothing,
}

/// A store that holds nothing.
#[derive(Debug, Drop)]
pub struct TallyStore;

impl Machine for TallyStore {
    type Command = Nothing;

    type Reply = Nothing;

    ghost use Rattle.tally_session.specs.Tally.{tally_rules};

    ghost State = { Unit {0} };

    ghost rules = { tally_rules };

    ghost stands_for = { λ m s. Unit {0} };

    fn opening(_alloc: Global) -> Result<TallyStore, NoMemory> {
        Ok(TallyStore)
    }

    fn step(&mut self, c: &Nothing) -> Result<Nothing, NoMemory> {
        Ok(*c)
    }
}
