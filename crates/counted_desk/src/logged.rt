//! A machine with the journal of its calls.
ghost use Rattle.std.specs.Prelude.{◌≤◌, length, IfOk, IfErr};
ghost use Rattle.counted_desk.specs.Calls.{Adds, AddsNot};
ghost use Rattle.counted_desk.specs.Rule.{IsWhole};

use crate::answer::{CallFault, Receipt};
use proxy_outside::Machine;
use std::boxed::Box;

/// A machine, and the calls that brought it from its opening to where it stands.
#[derive(Drop)]
pub struct Logged<M, C> {
    pub machine: M,
    pub journal: Vec<(u64, C)>,
}

/// What stands in the slot, unless a call has it out. Only the box goes in and out, however large the machine.
pub type Held<M> = Option<Box<Logged<M, <M as Machine>::Command>>>;

/// Steps the machine and adds the call to the journal, or leaves both as they stand.
pub fn log_call<M: Machine>(
    logged: &mut Logged<M, M::Command>,
    most: u32,
    ticket: u64,
    command: M::Command,
) -> Result<Receipt<M::Reply>, CallFault>
    requires whole { IsWhole M.stands_for M.rules logged.old }
    requires room { length logged.old.journal.items ≤ most }
    ensures whole { IsWhole M.stands_for M.rules logged.new }
    ensures ok { IfOk result (Adds M.rules most ticket command logged.old logged.new) }
    ensures err { IfErr result (AddsNot most logged.old logged.new) }
{
    if logged.journal.len() >= most as usize {
        return Err(CallFault::JournalFull(most));
    }
    if logged.journal.reserve(1).is_err() {
        return Err(CallFault::NoMemory);
    }
    match logged.machine.step(&command) {
        Ok(reply) => {
            let place = logged.journal.len() as u64;
            logged.journal.push_reserved((ticket, command));
            Ok(Receipt { place, reply })
        }
        Err(_) => Err(CallFault::NoMemory),
    }
}
