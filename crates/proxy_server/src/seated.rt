//! A seat at the hub's desk.

ghost use Rattle.std.specs.Prelude.{◌≡◌};
ghost use Rattle.std.specs.Arc.{arc_value};

use crate::common::Common;
use counted_desk::Seat;
use pgw_frames::NoMemory;
use proxy_hub::{DeskPort, Hub};
use std::sync::Arc;

/// What all connections share, and a seat at its desk.
#[derive(Drop)]
pub(crate) struct Seated {
    common: Arc<Common>,
    seat: Seat<Hub>,
    ghost here: { seat.desk ≡ (arc_value common).desk },
}

impl Seated {
    pub(crate) fn new(common: Arc<Common>, seat: Seat<Hub>) -> Seated
        requires { seat.desk ≡ (arc_value common).desk }
    {
        Seated { common, seat }
    }

    /// What all connections share.
    pub(crate) fn common(&self) -> &Common {
        &self.common
    }

    /// One more seat.
    pub(crate) fn another(&mut self) -> Result<Seated, NoMemory> {
        let common = Arc::try_clone(&self.common)?;
        let seat = self.common.desk.split(&mut self.seat)?;
        Ok(Seated { common, seat })
    }

    /// What all connections share, and the seat.
    pub(crate) fn parts(self) -> (Arc<Common>, Seat<Hub>)
        ensures { result.1.desk ≡ (arc_value result.0).desk }
    {
        let Seated { common, seat } = self;
        (common, seat)
    }
}
