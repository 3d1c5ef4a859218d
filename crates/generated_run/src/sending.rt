//! A client's messages, on their way to the pod and back.

ghost use Rattle.std.specs.Prelude.{◌≡◌, ◌≤◌, IfOk};
ghost use Rattle.std.specs.List.{AllByRecursion};
ghost use Rattle.pgw_frames.specs.Frames.{IsGood};
ghost use Rattle.generated_run.specs.Generated.{sends};

use crate::messages::render;
use crate::repeated::{Repeated, add_times};
use forwarder_world::Event;
use pgw_frames::{Frames, NoMemory};
use std::alloc::Global;
use tally_session::Nothing;

/// The events of these messages, read in pieces of so many bytes and answered by so many.
#[tactic(auto, unfolding(crate::specs::Generated::sends))]
pub(crate) fn sends(
    alloc: Global,
    messages: &Frames,
    piece: u32,
    replies: usize,
) -> Result<Vec<Event<Nothing>>, NoMemory>
    requires good { AllByRecursion IsGood messages.now }
    requires piece { 1 ≤ piece }
    ensures { IfOk result (λ es. es.items ≡ sends messages.now piece replies) }
{
    let bytes = render(alloc, messages)?;
    let pieces = bytes.len().div_ceil(piece as usize);
    let mut events = vec![in alloc; Event::Give(bytes)]?;
    add_times(&mut events, Repeated::Read(piece), pieces)?;
    add_times(&mut events, Repeated::Forward, messages.len())?;
    events.push(Event::Deliver(65_535))?;
    add_times(&mut events, Repeated::Pod, messages.len())?;
    events.push(Event::Back(65_535))?;
    add_times(&mut events, Repeated::Pass, replies)?;
    Ok(events)
}
