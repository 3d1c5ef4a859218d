//! How many sessions stand at each pod.

ghost use Rattle.std.specs.Prelude.{◌≡◌, ◌+◌, ◌-◌, ◌^◌, min, OnOk, OnErr};
ghost use Rattle.session_roster.specs.Rows.{held, changed};

use crate::member::Spot;
use pgw_frames::NoMemory;
use std::alloc::Global;
use std::collections::BTreeMap;

/// The pods at which a session stands, and how many.
#[derive(Drop)]
pub(crate) struct Counts {
    rows: BTreeMap<Spot, u32>,
}

impl Counts {
    /// No session stands anywhere. It takes no memory.
    pub fn new(alloc: Global) -> Counts
        ensures { (spot : Spot) → held result spot ≡ 0 }
    {
        Counts {
            rows: BTreeMap::new(alloc),
        }
    }

    pub fn at(&self, spot: Spot) -> u32
        ensures { result ≡ held self.now spot }
    {
        match self.rows.get(&spot) {
            Some(count) => *count,
            None => 0,
        }
    }

    /// One session more. An `Err` changes nothing.
    pub fn add(&mut self, spot: Spot) -> Result<(), NoMemory>
        ensures ok { OnOk result ((q : Spot) → held self.new q ≡ changed spot q (min (held self.old q + 1) (2 ^ 32 - 1)) (held self.old q)) }
        ensures err { OnErr result ((q : Spot) → held self.new q ≡ held self.old q) }
    {
        if let Some(count) = self.rows.get_mut(&spot) {
            *count = count.saturating_add(1);
            return Ok(());
        }
        self.rows.insert(spot, 1)?;
        Ok(())
    }

    /// One session less. The last one takes the row with it.
    pub fn take(&mut self, spot: Spot)
        ensures { (q : Spot) → held self.new q ≡ changed spot q (held self.old q - 1) (held self.old q) }
    {
        if let Some(count) = self.rows.get_mut(&spot) {
            if *count > 1 {
                *count -= 1;
                return;
            }
        }
        self.rows.remove(&spot);
    }
}
