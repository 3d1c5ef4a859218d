//! How a hub is asked, wherever it is.

ghost use Rattle.proxy_hub.specs.Kinds.{RepliesSuit};

use crate::command::HubCommand;
use crate::fault::HubFault;
use crate::reply::HubReply;
use std::sync::Wait;

/// A way to a hub that others may ask too. Contracts see the desk that is asked, with how many commands it
/// takes at most, which no call changes; the commands that were asked here with their replies; and how often
/// an ask was refused, a count that never falls and stops at 2^64 - 1.
pub trait HubPort {
    ghost use Rattle.proxy_hub.specs.Ports.{Port, Asks};

    ghost port: { Self → Port };

    /// Asks a command. The reply is of a kind that the command may have. After an `Err` the command was
    /// asked nowhere, and the refusals rose; `JournalFull` tells the limit.
    fn ask<R: Wait>(&mut self, rt: &R, c: HubCommand) -> Result<HubReply, HubFault>
        ensures { Asks (port self.old) (port self.new) c result };
}

/// Says of every state and command that the hub's reply is of a kind that the command may have.
pub fn replies_suit_their_commands()
    ensures { RepliesSuit }
{}
