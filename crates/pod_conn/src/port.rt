//! How a store is asked, wherever it is.

use counted_desk::CallFault;
use proxy_outside::Machine;
use std::sync::Wait;

/// A way to a store that others may ask too. Contracts see the desk that is asked, with how many commands it takes at
/// most, which no call changes; the commands that were asked here with their answers; and how often an ask was refused, a
/// count that never falls and stops at 2^64 - 1.
pub trait StorePort<M: Machine> {
    ghost use Rattle.pod_conn.specs.Ports.{Port, Asks};

    ghost port: { Self → Port M.Command M.Reply };

    /// Asks a command. The answer is one that a store, run from its opening over some commands, gives to it. After an
    /// `Err` the command was asked nowhere, and the refusals rose; `JournalFull` tells the limit.
    fn ask<R: Wait>(&mut self, rt: &R, c: M::Command) -> Result<M::Reply, CallFault>
        ensures { Asks M.rules (port self.old) (port self.new) c result };
}
