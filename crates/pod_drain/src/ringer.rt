//! A way to ask sessions to stop for a move.

ghost use Rattle.std.specs.Prelude.{◌≡◌, [], true, IfOk};
ghost use Rattle.pod_drain.specs.Rings.{Ringing, told, after_ring};

use pgw_frames::NoMemory;
use proxy_outside::SessionNo;
use std::alloc::Global;
use std::marker::Model;

/// Rings sessions. It tells the list of those that it rang, in order, where it can.
pub trait Ringer {
    ghost use Rattle.std.specs.Prelude.{List, Option};
    ghost use Rattle.proxy_outside.specs.declared.identity.SessionNo.{SessionNo};
    ghost use Rattle.pod_drain.specs.Rings.{Ringing};

    ghost rings: { Self → Option (List SessionNo) };

    /// Asks a session to stop at its next safe point. Whether it hears that, no contract says.
    fn ring(&mut self, session: SessionNo)
        ensures { Ringing (rings self.old) (rings self.new) session };
}

/// A ringer that keeps the list. It tells it no longer once its room is spent.
#[derive(Debug, Drop)]
pub struct ListRinger {
    rung: Vec<SessionNo>,
    is_whole: bool,
}

impl Model for ListRinger {
    ghost use Rattle.std.specs.Prelude.{vec_capacity};
    ghost use Rattle.pod_drain.specs.Rings.{Roll};

    ghost Value = { Roll };

    ghost view = { λ r. record { rung = r.rung.items; room = vec_capacity r.rung; is_whole = r.is_whole } };
}

impl ListRinger {
    /// A ringer with room for so many rings.
    pub fn make(alloc: Global, room: u32) -> Result<ListRinger, NoMemory>
        ensures { IfOk result (λ r. r ≡ record { rung = []; room = room; is_whole = true }) }
    {
        Ok(ListRinger {
            rung: Vec::with_capacity(alloc, room as usize)?,
            is_whole: true,
        })
    }

    /// Those that were rung, as far as there was room.
    pub fn rung(&self) -> &[SessionNo]
        ensures { result.now ≡ self.now.rung }
    {
        self.rung.as_slice()
    }
}

impl Ringer for ListRinger {
    ghost use Rattle.pod_drain.specs.Rings.{told};

    ghost rings = { told };

    fn ring(&mut self, session: SessionNo)
        ensures ringing { Ringing (told self.old) (told self.new) session }
        ensures next { self.new ≡ after_ring self.old session }
    {
        if self.rung.len() < self.rung.capacity() {
            self.rung.push_reserved(session);
        } else {
            self.is_whole = false;
        }
    }
}
