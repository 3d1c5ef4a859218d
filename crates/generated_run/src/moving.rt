//! Transfers, whole and failing.

ghost use Rattle.std.specs.Prelude.{◌≡◌, ◌++◌, IfOk, OnOk};
ghost use Rattle.generated_run.specs.Generated.{dials, rest, cut, moves};

use crate::repeated::{Repeated, add_times};
use forwarder_world::Event;
use pgw_frames::NoMemory;
use session_model::TransferKey;
use std::alloc::Global;
use tally_session::Nothing;

/// Adds a transfer up to the dial.
#[tactic(auto, unfolding(crate::specs::Generated::dials))]
fn add_dial(events: &mut Vec<Event<Nothing>>, key: TransferKey) -> Result<(), NoMemory>
    ensures { OnOk result (events.new.items ≡ events.old.items ++ dials key) }
{
    events.push(Event::Stop)?;
    events.push(Event::Park)?;
    events.push(Event::Hold)?;
    events.push(Event::Start(key))?;
    events.push(Event::Move)?;
    events.push(Event::Deliver(65_535))?;
    events.push(Event::Pod)?;
    add_times(events, Repeated::Move, 5)
}

/// Adds what comes behind the dial of a whole transfer: the new pod greets, and takes the state.
fn add_rest(events: &mut Vec<Event<Nothing>>) -> Result<(), NoMemory>
    ensures { OnOk result (events.new.items ≡ events.old.items ++ rest) }
{
    events.push(Event::Move)?;
    events.push(Event::DeliverNew(65_535))?;
    events.push(Event::PodNew)?;
    add_times(events, Repeated::Move, 4)?;
    events.push(Event::DeliverNew(65_535))?;
    events.push(Event::PodNew)?;
    add_times(events, Repeated::Move, 4)
}

/// Adds what comes behind the dial where the new link is cut.
fn add_cut(events: &mut Vec<Event<Nothing>>) -> Result<(), NoMemory>
    ensures { OnOk result (events.new.items ≡ events.old.items ++ cut) }
{
    events.push(Event::Move)?;
    events.push(Event::CutNew(0))?;
    events.push(Event::Move)?;
    Ok(())
}

/// The events of a transfer: a whole one, one whose dial fails (2), or one whose new link is cut (3).
#[tactic(auto, unfolding(crate::specs::Generated::moves))]
pub(crate) fn moves(
    alloc: Global,
    kind: u32,
    key: TransferKey,
) -> Result<Vec<Event<Nothing>>, NoMemory>
    ensures { IfOk result (λ es. es.items ≡ moves kind key) }
{
    let mut events = Vec::new(alloc);
    if kind == 2 {
        events.push(Event::NoDial)?;
    }
    add_dial(&mut events, key)?;
    match kind {
        0 | 1 => add_rest(&mut events)?,
        2 => {}
        _ => add_cut(&mut events)?,
    }
    Ok(events)
}
