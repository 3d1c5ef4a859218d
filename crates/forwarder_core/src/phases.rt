//! Where a connection stands: tests of its phase.

ghost use Rattle.std.specs.Prelude.{◌≡◌};
ghost use Rattle.forwarder_world.specs.World.{Mode, phase_of, forwarding, is_closed as is_closed_mode};
ghost use Rattle.forwarder_core.specs.Stands.{closed_by, runs_on, may_park, may_hold};

use forwarder_world::{Close, Phase};

/// The connection is closed, where there is a reason.
pub(crate) fn close(phase: &mut Phase, why: Option<Close>)
    ensures { phase.new ≡ closed_by why phase.old }
{
    if let Some(why) = why {
        *phase = Phase::Closed(why);
    }
}

/// Whether the request side goes on.
pub(crate) fn is_forwarding(phase: &Phase) -> bool
    ensures { (m : Mode) → phase.now ≡ phase_of m → result ≡ forwarding m }
{
    match phase {
        Phase::Running => true,
        Phase::Stop => true,
        Phase::Parked => false,
        Phase::Exchange => false,
        Phase::Closed(_) => false,
    }
}

pub(crate) fn is_closed(phase: &Phase) -> bool
    ensures { (m : Mode) → phase.now ≡ phase_of m → result ≡ is_closed_mode m }
{
    match phase {
        Phase::Running => false,
        Phase::Stop => false,
        Phase::Parked => false,
        Phase::Exchange => false,
        Phase::Closed(_) => true,
    }
}

/// Whether nothing asked it to stop.
pub(crate) fn is_running(phase: &Phase) -> bool
    ensures { (m : Mode) → phase.now ≡ phase_of m → result ≡ runs_on m }
{
    match phase {
        Phase::Running => true,
        Phase::Stop => false,
        Phase::Parked => false,
        Phase::Exchange => false,
        Phase::Closed(_) => false,
    }
}

/// Whether it is to stop, with the request side not suspended yet.
pub(crate) fn is_stopping(phase: &Phase) -> bool
    ensures { (m : Mode) → phase.now ≡ phase_of m → result ≡ may_park m }
{
    match phase {
        Phase::Running => false,
        Phase::Stop => true,
        Phase::Parked => false,
        Phase::Exchange => false,
        Phase::Closed(_) => false,
    }
}

/// Whether it is to stop, with the request side suspended.
pub(crate) fn is_parked(phase: &Phase) -> bool
    ensures { (m : Mode) → phase.now ≡ phase_of m → result ≡ may_hold m }
{
    match phase {
        Phase::Running => false,
        Phase::Stop => false,
        Phase::Parked => true,
        Phase::Exchange => false,
        Phase::Closed(_) => false,
    }
}

/// Leaves this phase for another one.
pub(crate) fn enter(phase: &mut Phase, next: Phase)
    ensures { phase.new ≡ next }
{
    *phase = next;
}
