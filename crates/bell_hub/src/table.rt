//! The table of bells.

ghost use Rattle.std.specs.Prelude.{◌≡◌, [], is_some, OnOk, OnErr};
ghost use Rattle.bell_hub.specs.Tables.{with_bell, without_bell, bell_of};

use atomic_board::Bell;
use pgw_frames::NoMemory;
use proxy_outside::SessionNo;
use std::alloc::Global;
use std::collections::BTreeMap;
use std::marker::Model;

/// The bells of the sessions that are live, in the order of their numbers.
#[derive(Drop)]
pub(crate) struct BellTable {
    bells: BTreeMap<SessionNo, Bell>,
}

impl Model for BellTable {
    ghost use Rattle.bell_hub.specs.Tables.{Table};

    ghost Value = { Table };

    ghost view = { λ t. t.bells.entries };
}

impl BellTable {
    /// No bell. It takes no memory.
    pub fn new(alloc: Global) -> BellTable
        ensures { result ≡ [] }
    {
        BellTable {
            bells: BTreeMap::new(alloc),
        }
    }

    /// Keeps a session's bell, in place of an earlier one. An `Err` changes nothing, and the bell is let go.
    pub fn put(&mut self, session: SessionNo, bell: Bell) -> Result<(), NoMemory>
        ensures ok { OnOk result (self.new ≡ with_bell session bell self.old) }
        ensures err { OnErr result (self.new ≡ self.old) }
    {
        self.bells.insert(session, bell)?;
        Ok(())
    }

    /// Lets a session's bell go.
    pub fn remove(&mut self, session: SessionNo)
        ensures { self.new ≡ without_bell session self.old }
    {
        self.bells.remove(&session);
    }

    /// Rings a session's bell, and says whether it is kept here.
    pub fn ring(&self, session: SessionNo) -> bool
        ensures { result ≡ is_some (bell_of session self.now) }
    {
        match self.bells.get(&session) {
            Some(bell) => {
                bell.ring();
                true
            }
            None => false,
        }
    }
}
