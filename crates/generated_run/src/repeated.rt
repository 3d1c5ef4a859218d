//! Events that stand several times in a row.

ghost use Rattle.std.specs.Prelude.{◌≡◌, ◌++◌, replicate, OnOk};

use forwarder_world::Event;
use pgw_frames::NoMemory;
use tally_session::Nothing;

/// An event that may be repeated.
#[derive(Clone, Copy)]
pub(crate) enum Repeated {
    Read(u32),
    Forward,
    Pod,
    Pass,
    Move,
}

ghost use Rattle.generated_run.specs.Repeats.{event_of};

impl Repeated {
    fn event(self) -> Event<Nothing>
        ensures { result ≡ event_of self }
    {
        match self {
            Repeated::Read(n) => Event::Read(n),
            Repeated::Forward => Event::Forward,
            Repeated::Pod => Event::Pod,
            Repeated::Pass => Event::Pass,
            Repeated::Move => Event::Move,
        }
    }
}

/// Adds an event so many times.
pub(crate) fn add_times(
    events: &mut Vec<Event<Nothing>>,
    what: Repeated,
    times: usize,
) -> Result<(), NoMemory>
    ensures { OnOk result (events.new.items ≡ events.old.items ++ replicate times (event_of what)) }
{
    for _ in 0..times {
        events.push(what.event())?;
    }
    Ok(())
}
