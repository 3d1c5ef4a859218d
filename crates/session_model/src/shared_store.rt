//! The store that the sessions share.

ghost use Rattle.std.specs.Prelude.{◌≡◌, IfOk, OnOk, OnErr};
ghost use Rattle.session_model.specs.Kind.{Answers};
ghost use Rattle.session_model.specs.Solo.{answer_to, store_after};

use pgw_frames::NoMemory;
use proxy_outside::Machine;
use std::alloc::Global;
use std::marker::Model;

/// A machine that was opened, and since then only stepped. Contracts see the machine.
#[derive(Drop)]
pub struct SharedStore<M: Machine> {
    machine: M,
}

impl<M: Machine> Model for SharedStore<M> {
    ghost use Rattle.session_model.specs.Reached.{IsReached};

    ghost Value = { M };

    ghost view = { λ s. s.machine };

    ghost invariant = { λ s. IsReached M.rules M.stands_for s.machine };
}

/// What a machine answers, where something is asked.
pub fn answer_of<M: Machine>(
    machine: &mut M,
    command: &Option<M::Command>,
) -> Result<Option<M::Reply>, NoMemory>
    ensures answer { IfOk result (λ a. (t : M.State) → M.stands_for machine.old t → a ≡ answer_to M.rules t command.now) }
    ensures store { OnOk result ((t : M.State) → M.stands_for machine.old t → M.stands_for machine.new (store_after M.rules t command.now)) }
    ensures err { OnErr result ((t : M.State) → M.stands_for machine.old t → M.stands_for machine.new t) }
{
    match command {
        None => Ok(None),
        Some(c) => Ok(Some(machine.step(c)?)),
    }
}

impl<M: Machine> SharedStore<M> {
    /// A store at its opening.
    pub fn open(alloc: Global) -> Result<SharedStore<M>, NoMemory>
        ensures { IfOk result (λ s. M.stands_for s M.rules.first) }
    {
        Ok(SharedStore {
            machine: M::opening(alloc)?,
        })
    }

    /// Answers, where something is asked. After an `Err` it stands for the same states.
    pub fn answer(&mut self, command: &Option<M::Command>) -> Result<Option<M::Reply>, NoMemory>
        ensures answer { IfOk result (λ a. (t : M.State) → M.stands_for self.old t → a ≡ answer_to M.rules t command.now) }
        ensures store { OnOk result ((t : M.State) → M.stands_for self.old t → M.stands_for self.new (store_after M.rules t command.now)) }
        ensures given { IfOk result (λ a. Answers M.rules command.now a) }
        ensures err { OnErr result ((t : M.State) → M.stands_for self.old t → M.stands_for self.new t) }
    {
        let answer = answer_of(&mut self.machine, command)?;
        Ok(answer)
    }

    /// Takes a step for another client. After an `Err` it stands for the same states.
    pub fn step(&mut self, command: &M::Command) -> Result<(), NoMemory>
        ensures store { OnOk result ((t : M.State) → M.stands_for self.old t → M.stands_for self.new (M.rules.next t command.now)) }
        ensures err { OnErr result ((t : M.State) → M.stands_for self.old t → M.stands_for self.new t) }
    {
        let _reply = self.machine.step(command)?;
        Ok(())
    }
}
