//! The door: the first packets of a client, in whatever pieces.

ghost use Rattle.std.specs.Prelude.{◌≡◌, ◌+◌, ◌-◌, ◌*◌, ◌<◌, ◌≤◌, [], ◌++◌, length, drop, IfOk, OnOk, OnErr};
ghost use Rattle.startup_route.specs.Packets.{step_of};
ghost use Rattle.startup_route.specs.Entrances.{entrance, wanted, step_between};
ghost use Rattle.startup_route.specs.Doors.{goes_on, said_by};

use crate::header::missing;
use crate::packet::step_of;
use crate::step::DoorStep;
use pgw_frames::NoMemory;
use std::alloc::Global;
use std::marker::Model;

/// How many requests for encryption are answered.
const MOST_SAYS: u8 = 2;

/// What a client sent first. Contracts see all bytes that the door was fed.
#[derive(Debug, Drop)]
pub struct Door {
    fed: Vec<u8>,
    /// How often `N` was the answer.
    says: u8,
    /// Whether the last answer was a route, a key or a fault.
    over: bool,
}

impl Model for Door {
    ghost use Rattle.std.specs.Prelude.{List, ℕ};
    ghost use Rattle.startup_route.specs.Doors.{Knows};

    ghost Value = { List ℕ };

    ghost view = { λ d. d.fed.items };

    ghost invariant = { λ d. Knows d.says d.over d.fed.items };
}

/// Whether the door goes on behind this answer.
fn goes_on(step: &DoorStep) -> bool
    ensures { result ≡ goes_on step.now }
{
    match step {
        DoorStep::Need | DoorStep::Say => true,
        DoorStep::Ready(_) | DoorStep::Cancel(_) | DoorStep::Refused(_) => false,
    }
}

/// How often `N` is the answer with this one.
fn counted(says: u8, step: &DoorStep) -> u8
    requires { says ≤ 2 }
    ensures { result ≡ says + said_by step.now }
{
    match step {
        DoorStep::Say => says + 1,
        DoorStep::Need | DoorStep::Ready(_) | DoorStep::Cancel(_) | DoorStep::Refused(_) => says,
    }
}

/// The bytes behind the requests that were answered.
fn behind(says: u8, fed: &[u8]) -> &[u8]
    requires { 8 * says ≤ length fed.now }
    ensures { result.now ≡ drop (8 * says) fed.now }
{
    fed.split_at(8 * says as usize).1
}

/// What these bytes ask for.
fn step_behind(alloc: Global, says: u8, fed: &[u8]) -> Result<DoorStep, NoMemory>
    requires most { says ≤ 2 }
    requires within { 8 * says ≤ length fed.now }
    ensures { IfOk result (λ s. s ≡ step_of (2 - says) (drop (8 * says) fed.now)) }
{
    step_of(alloc, MOST_SAYS - says, behind(says, fed))
}

impl Door {
    /// A door that was fed nothing. It takes no memory.
    pub fn new(alloc: Global) -> Door
        ensures { result ≡ [] }
    {
        Door {
            fed: Vec::new(alloc),
            says: 0,
            over: false,
        }
    }

    /// How many bytes the door wants before it can go on: the four bytes of a length, the four of a
    /// code, or the rest of the packet. 0 once it has answered Ready, Cancel or Refused. It takes no
    /// memory.
    pub fn want(&self) -> usize
        ensures { result ≡ wanted self.now }
    {
        if self.over {
            return 0;
        }
        missing(behind(self.says, self.fed.as_slice()))
    }

    /// Takes further bytes, of which there are some, and not more than are wanted. An `Err` changes
    /// nothing.
    pub fn feed(&mut self, piece: &[u8]) -> Result<DoorStep, NoMemory>
        requires some { 0 < length piece.now }
        requires within { length piece.now ≤ wanted self.old }
        ensures step { IfOk result (λ s. s ≡ step_between (entrance self.old) (entrance (self.old ++ piece.now))) }
        ensures fed { OnOk result (self.new ≡ self.old ++ piece.now) }
        ensures err { OnErr result (self.new ≡ self.old) }
    {
        let alloc = *self.fed.allocator();
        let before = self.fed.len();
        self.fed.extend_from_slice(piece)?;
        match step_behind(alloc, self.says, self.fed.as_slice()) {
            Ok(step) => {
                self.says = counted(self.says, &step);
                self.over = !goes_on(&step);
                Ok(step)
            }
            Err(e) => {
                self.fed.truncate(before);
                Err(e)
            }
        }
    }
}
