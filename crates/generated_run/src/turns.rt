//! The turns of a schedule.

ghost use Rattle.std.specs.Prelude.{◌≡◌, ◌<◌, ◌≤◌, length, IfOk, OnOk};
ghost use Rattle.generated_run.specs.Generated as generated;
ghost use Rattle.generated_run.specs.Generated.{events_by, behind_turn};

use crate::messages::{copies, queries, syncs};
use crate::moving::moves;
use crate::sending::sends;
use crate::words::Words;
use forwarder_world::Event;
use pgw_frames::NoMemory;
use std::alloc::Global;
use tally_session::Nothing;

/// How the greeting is passed on.
pub fn first_events(alloc: Global) -> Result<Vec<Event<Nothing>>, NoMemory>
    ensures { IfOk result (λ es. es.items ≡ generated.first_events) }
{
    Ok(vec![in alloc; Event::Back(65_535), Event::Pass, Event::Pass, Event::Pass]?)
}

/// The events of a turn of this kind, by its second word.
#[tactic(auto, unfolding(crate::specs::Generated::events_by, crate::specs::Generated::behind_turn))]
fn events_by(
    alloc: Global,
    number: u32,
    kind: u32,
    v: u32,
    words: &mut Words,
) -> Result<Vec<Event<Nothing>>, NoMemory>
    requires { kind < 8 }
    ensures events { IfOk result (λ es. es.items ≡ events_by number kind v words.old) }
    ensures behind { words.new ≡ behind_turn kind words.old }
{
    let piece = v % 64 + 1;
    match kind {
        7 => moves(alloc, v % 4, words.draw_key()),
        6 => sends(alloc, &copies(alloc)?, piece, 3),
        5 => sends(alloc, &syncs(alloc)?, piece, 1),
        _ => sends(alloc, &queries(alloc, number)?, piece, 2),
    }
}

/// The events of the turn of this number.
#[tactic(auto, unfolding(crate::specs::Generated::turn))]
pub fn turn(alloc: Global, number: u32, words: &mut Words) -> Result<Vec<Event<Nothing>>, NoMemory>
    ensures events { IfOk result (λ es. (es.items, words.new) ≡ generated.turn number words.old) }
    ensures short { IfOk result (λ es. length es.items ≤ 64) }
{
    let kind = words.draw() % 8;
    let v = words.draw();
    events_by(alloc, number, kind, v, words)
}
