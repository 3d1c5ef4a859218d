//! A sequential object: a reply and a next state for each command.

ghost use Rattle.std.specs.Prelude.{◌≡◌, IfOk, OnOk, OnErr};
ghost use Rattle.proxy_outside.specs.Rules.{Rules};

use pgw_frames::NoMemory;
use std::alloc::Global;

/// A sequential object. Its definition, `rules`, is a function of state and command; `stands_for` says
/// of which states a machine is an implementation.
pub trait Machine: Sized + Drop {
    type Command: Drop;

    type Reply: Drop;

    // The states of the definition, which may hold more than the code keeps.
    ghost State: { Type 0 };

    ghost rules: { Rules State Self.Command Self.Reply };

    ghost stands_for: { Self → State → Type 0 };

    /// A machine at the first state.
    fn opening(alloc: Global) -> Result<Self, NoMemory>
        ensures { IfOk result (λ m. stands_for m rules.first) };

    /// Answers a command, and goes on to the next state. After `NoMemory` it stands for the same states.
    fn step(&mut self, c: &Self::Command) -> Result<Self::Reply, NoMemory>
        ensures reply { IfOk result (λ r. (s : State) → stands_for self.old s → r ≡ rules.reply s c.now) }
        ensures state { OnOk result ((s : State) → stands_for self.old s → stands_for self.new (rules.next s c.now)) }
        ensures err { OnErr result ((s : State) → stands_for self.old s → stands_for self.new s) };
}
