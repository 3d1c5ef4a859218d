//! A schedule that is made from a number, and played turn by turn.

ghost use Rattle.std.specs.Prelude.{◌≤◌, ◌+◌, ◌*◌, ℕ, IfOk, OnOk};
ghost use Rattle.proxy_replay.specs.Generating.{HasBegun, IsPlayedTo, IsPlayed, IsSummary};

use crate::client;
use crate::generation::Generation;
use crate::summary::Summary;
use forwarder_core::World;
use generated_run::{Words, first_events, turn};
use pgw_frames::{Bytes, NoMemory};
use std::alloc::Global;
use tally_session::TallySession;

/// How far a schedule was made: the words that are left, and how many events came.
#[derive(Drop)]
pub(crate) struct Made {
    words: Words,
    events: u64,
}

/// Plays the first events: the greeting is passed on.
fn open(alloc: Global, world: &mut World<TallySession>, number: u64) -> Result<Made, NoMemory>
    ensures few { IfOk result (λ m. m.events ≤ 4) }
    ensures played { IfOk result (λ m. HasBegun world.old → IsPlayedTo number 0 m world.new) }
{
    let events = first_events(alloc)?;
    world.run(events.as_slice())?;
    Ok(Made {
        words: Words::of(number),
        events: events.len() as u64,
    })
}

/// Plays the turn of this number.
fn play_turn(
    alloc: Global,
    world: &mut World<TallySession>,
    made: &mut Made,
    turn_number: u32,
) -> Result<(), NoMemory>
    requires { made.old.events ≤ 64 * turn_number + 4 }
    ensures few { OnOk result (made.new.events ≤ 64 * (turn_number + 1) + 4) }
    ensures played { OnOk result ((number : ℕ) → IsPlayedTo number turn_number made.old world.old → IsPlayedTo number (turn_number + 1) made.new world.new) }
{
    let events = turn(alloc, turn_number, &mut made.words)?;
    world.run(events.as_slice())?;
    made.events += events.len() as u64;
    Ok(())
}

/// Plays the schedule to a World that has just begun, and says how many events it has.
fn play(alloc: Global, world: &mut World<TallySession>, g: &Generation) -> Result<u64, NoMemory>
    ensures { IfOk result (λ n. HasBegun world.old → IsPlayed g.now.number g.now.messages n world.new) }
{
    let mut made = open(alloc, world, g.number)?;
    for i in 0..g.messages {
        play_turn(alloc, world, &mut made, i)?;
    }
    Ok(made.events)
}

/// Plays the schedule to a World that has just begun, and gives its summary.
fn summary_of(
    alloc: Global,
    world: &mut World<TallySession>,
    g: &Generation,
) -> Result<Bytes, NoMemory>
    ensures { IfOk result (λ b. HasBegun world.old → IsSummary g.now.number g.now.messages b) }
{
    let events = play(alloc, world, g)?;
    let summary = Summary {
        number: g.number,
        messages: g.messages,
        events,
        phase: world.phase(),
        counts: world.counts(),
        received: world.received(),
    };
    summary.text(alloc)
}

/// The summary of the schedule.
pub(crate) fn summary(alloc: Global, g: &Generation) -> Result<Bytes, NoMemory>
    ensures { IfOk result (IsSummary g.now.number g.now.messages) }
{
    let params = client::params(alloc)?;
    let mut world = World::start(alloc, params, client::key())?;
    let summary = summary_of(alloc, &mut world, g);
    drop(world);
    summary
}
