//! A schedule played to a World.

ghost use Rattle.std.specs.Prelude.{◌≤◌, length, IfOk};
ghost use Rattle.proxy_replay.specs.Inputs.{most_bytes};
ghost use Rattle.proxy_replay.specs.Playing.{PlaysLine, Plays};

use crate::commands::Commands;
use crate::line::event_of;
use crate::lines::Lines;
use forwarder_core::World;
use pgw_frames::NoMemory;
use proxy_outside::Machine;
use session_model::Session;
use std::alloc::Global;

/// Plays the event that a line spells, and says whether it spells one.
fn play_line<S: Session, T: Commands<<S::Store as Machine>::Command>>(
    alloc: Global,
    world: &mut World<S>,
    line: &[u8],
) -> Result<bool, NoMemory>
    ensures { IfOk result (λ b. PlaysLine S.state S.Store.stands_for S.kind S.Store.rules T.says world.old world.new line.now b) }
{
    match event_of::<<S::Store as Machine>::Command, T>(alloc, line)? {
        Some(event) => {
            world.step(&event)?;
            Ok(true)
        }
        None => Ok(false),
    }
}

/// Plays a text to a World, one line after another, up to the first line that is no event: its number,
/// counted from 1, is told.
pub(crate) fn play<S: Session, T: Commands<<S::Store as Machine>::Command>>(
    alloc: Global,
    world: &mut World<S>,
    text: &[u8],
) -> Result<Option<u64>, NoMemory>
    requires { length text.now ≤ most_bytes }
    ensures { IfOk result (Plays S.state S.Store.stands_for S.kind S.Store.rules T.says world.old world.new text.now) }
{
    let mut lines = Lines::of(text);
    let mut number = 0u64;
    while let Some(line) = lines.next_line() {
        number += 1;
        if !play_line::<S, T>(alloc, world, line)? {
            return Ok(Some(number));
        }
    }
    Ok(None)
}
