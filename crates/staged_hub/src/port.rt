//! The port.

ghost use Rattle.std.specs.Prelude.{◌≡◌, IfOk};

use crate::step::Step;
use crate::stepped::SteppedHub;
use pgw_frames::NoMemory;
use proxy_hub::{HubCommand, HubFault, HubPort, HubReply, replies_suit_their_commands};
use std::alloc::Global;
use std::sync::Wait;

/// A command of another, which is stepped before the port's ask of this number, from 1 on.
#[derive(Drop)]
pub struct StagedCommand {
    pub before: u64,
    pub command: HubCommand,
}

/// A port to a hub of its own. What it lists are its asks alone, each with the hub's reply behind all commands
/// that were stepped before it, those of others among them.
#[derive(Drop)]
pub struct StagedHub {
    hub: SteppedHub,
    staged: Vec<StagedCommand>,
    /// How often it was asked, or 2^64 - 1.
    asks: u64,
    refusals: u64,
}

impl StagedHub {
    ghost use Rattle.staged_hub.specs.Asks.{port_of, unasked, KeepsItsAsks, Asked};

    /// A port to a hub at its opening, which has refused nothing.
    pub fn make(alloc: Global, staged: Vec<StagedCommand>) -> Result<StagedHub, NoMemory>
        ensures { IfOk result (λ h. port_of h ≡ unasked) }
    {
        Ok(StagedHub {
            hub: SteppedHub::opening(alloc)?,
            staged,
            asks: 0,
            refusals: 0,
        })
    }

    /// All commands that the hub was stepped by, those of others too, in their order.
    pub fn steps(&self) -> &[Step]
        ensures { result.now ≡ self.now.hub }
    {
        self.hub.steps()
    }

    /// The first command of another that is to be stepped now.
    fn due(&mut self) -> Option<HubCommand>
        ensures { self.new ≡ record self.old { staged = self.new.staged } }
    {
        let asks = self.asks;
        let at = self.staged.iter().position(|s| s.before <= asks)?;
        Some(self.staged.remove(at).command)
    }

    /// Steps the commands of others that are to be stepped now.
    fn stage(&mut self) -> Result<(), NoMemory>
        ensures { KeepsItsAsks self.old self.new }
    {
        for _ in 0..self.staged.len() {
            match self.due() {
                Some(command) => {
                    let _reply = self.hub.step(command, false)?;
                }
                None => return Ok(()),
            }
        }
        Ok(())
    }

    fn answer(&mut self, command: HubCommand) -> Result<HubReply, NoMemory>
        ensures { Asked self.old self.new command result }
    {
        self.asks = self.asks.saturating_add(1);
        self.stage()?;
        self.hub.step(command, true)
    }
}

impl HubPort for StagedHub {
    ghost use Rattle.staged_hub.specs.Asks.{port_of};

    ghost port = { port_of };

    #[tactic(auto, using(crate::proofs::Asking::asks_ok, crate::proofs::Asking::asks_err))]
    fn ask<R: Wait>(&mut self, _rt: &R, c: HubCommand) -> Result<HubReply, HubFault> {
        replies_suit_their_commands();
        match self.answer(c) {
            Ok(reply) => Ok(reply),
            Err(_) => {
                self.refusals = self.refusals.saturating_add(1);
                Err(HubFault::NoMemory)
            }
        }
    }
}
