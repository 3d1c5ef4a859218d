//! The bells of all connections.

use crate::table::BellTable;
use atomic_board::Bell;
use proxy_outside::SessionNo;
use std::alloc::Global;
use std::sync::{Mutex, Wait};

/// Bells by the numbers of their sessions, which threads share.
#[derive(Drop)]
pub struct Bells {
    table: Mutex<BellTable>,
}

impl Bells {
    /// No bell. It takes no memory.
    pub fn new(alloc: Global) -> Bells {
        Bells {
            table: Mutex::new(BellTable::new(alloc)),
        }
    }

    /// Keeps a session's bell. Where memory for that is refused, the session isn't rung.
    pub(crate) fn put<R: Wait>(&self, rt: &R, session: SessionNo, bell: Bell) {
        let _ = self.table.lock(rt).put(session, bell);
    }

    /// Lets a session's bell go.
    pub(crate) fn remove<R: Wait>(&self, rt: &R, session: SessionNo) {
        self.table.lock(rt).remove(session);
    }

    /// Rings a session, and says whether its bell is kept.
    pub fn ring<R: Wait>(&self, rt: &R, session: SessionNo) -> bool {
        self.table.lock(rt).ring(session)
    }
}
