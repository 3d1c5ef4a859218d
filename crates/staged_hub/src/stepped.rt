//! A hub with all the commands that it was stepped by.

ghost use Rattle.std.specs.Prelude.{◌≡◌, [], IfOk, OnErr};

use crate::step::Step;
use pgw_frames::NoMemory;
use proxy_hub::{Hub, HubCommand, HubReply};
use proxy_outside::Machine;
use std::alloc::Global;
use std::marker::Model;

/// A hub, and the commands that led it from its opening to where it stands. Contracts see these.
#[derive(Drop)]
pub struct SteppedHub {
    hub: Hub,
    steps: Vec<Step>,
}

impl Model for SteppedHub {
    ghost use Rattle.proxy_hub.specs.Hubs.{StandsFor};
    ghost use Rattle.std.specs.Prelude.{List};
    ghost use Rattle.staged_hub.specs.Steps.{state_behind};
    ghost use Rattle.staged_hub.specs.declared.step.Step.{Step};

    ghost Value = { List Step };

    ghost view = { λ h. h.steps.items };

    ghost invariant = { λ h. StandsFor h.hub (state_behind h.steps.items) };
}

impl SteppedHub {
    ghost use Rattle.staged_hub.specs.Steps.{Steps};

    /// A hub at its opening.
    pub fn opening(alloc: Global) -> Result<SteppedHub, NoMemory>
        ensures { IfOk result (λ h. h ≡ []) }
    {
        Ok(SteppedHub {
            hub: Hub::opening(alloc)?,
            steps: Vec::new(alloc),
        })
    }

    /// The commands, in their order.
    pub fn steps(&self) -> &[Step]
        ensures { result.now ≡ self.now }
    {
        self.steps.as_slice()
    }

    /// Steps the hub by a command, which is kept. After an `Err` nothing has changed.
    pub fn step(&mut self, command: HubCommand, is_ask: bool) -> Result<HubReply, NoMemory>
        ensures ok { IfOk result (Steps self.old self.new command is_ask) }
        ensures err { OnErr result (self.new ≡ self.old) }
    {
        self.steps.reserve(1)?;
        let reply = self.hub.step(&command)?;
        self.steps.push_reserved(Step { command, is_ask });
        Ok(reply)
    }
}
