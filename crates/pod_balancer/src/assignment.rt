//! Where the sessions that move go.

ghost use Rattle.std.specs.Prelude.{◌≡◌, IfOk};
ghost use Rattle.pod_balancer.specs.Plans.{assigned};
ghost use Rattle.pod_balancer.specs.Places.{Fits};

use crate::homed::Homed;
use crate::load::Load;
use crate::moves::{Move, Moves};
use crate::places::{fill_first, spots};
use pgw_frames::NoMemory;
use std::alloc::Global;

/// Sends each of the movers to the least loaded running pod at its moment.
pub(crate) fn assign(
    alloc: Global,
    loads: &[Load],
    movers: &[Homed],
    cap: u64,
) -> Result<Moves, NoMemory>
    requires { Fits cap loads.now movers.now }
    ensures { IfOk result (λ moves. moves ≡ assigned loads.now movers.now) }
{
    let mut spots = spots(alloc, loads, cap)?;
    let mut moves = Vec::with_capacity(alloc, movers.len())?;
    for home in movers {
        let Some(to) = fill_first(&mut spots)? else {
            break;
        };
        moves.push(Move {
            session: home.session,
            from: home.pod,
            to,
        })?;
    }
    Ok(Moves::from_vec(moves))
}
