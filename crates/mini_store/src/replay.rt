//! Doing the operations of a transaction again.

ghost use Rattle.std.specs.Prelude.{◌≡◌, IfOk, None, min};
ghost use Rattle.std.specs.Option.{option_map};
ghost use Rattle.mini_store.specs.Transactions.{Replays, conflict_at, first_difference, tables_behind};

use crate::answer::{Answer, PastStep};
use crate::tables::Tables;
use pgw_frames::NoMemory;

/// A conflict at this place.
pub(crate) fn conflict_at(place: usize) -> Answer
    ensures { result ≡ conflict_at place }
{
    Answer::Conflict(u32::try_from(place).unwrap_or(u32::MAX))
}

impl Tables {
    /// Does the operations of a transaction, up to the first whose answer differs, and gives its place.
    pub(crate) fn replay(&mut self, past: &[PastStep]) -> Result<Option<usize>, NoMemory>
        ensures { IfOk result (λ place. Replays place self.new self.old past.now) }
    {
        let mut place = 0;
        for step in past {
            let answer = self.answer(&step.op)?;
            if !answer.is_same(&step.answer) {
                return Ok(Some(place));
            }
            place += 1;
        }
        Ok(None)
    }
}
