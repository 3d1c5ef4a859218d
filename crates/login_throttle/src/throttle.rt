//! The failures of all addresses and tenants.

ghost use Rattle.std.specs.Prelude.{◌≡◌, false, List, [], ◌∷◌, OnOk, OnErr};
ghost use Rattle.login_throttle.specs.Reports.{Report, allowed};
ghost use Rattle.login_throttle.specs.Streaks.{StandsFor, Keeps};

use crate::allowance::Allowance;
use crate::pair::Pair;
use crate::streak::Streak;
use pgw_frames::NoMemory;
use proxy_outside::{Addr, TenantId};
use std::alloc::Global;
use std::collections::BTreeMap;

/// What is kept of the logins that were reported: for each address and tenant whose last login failed,
/// the failures since its last success, and the moment of the last one. It has no model: contracts tie
/// it by a relation to the list of all reports, the newest first, which it does not keep.
#[derive(Drop)]
pub struct Throttle {
    streaks: BTreeMap<Pair, Streak>,
}

impl Throttle {
    /// No login was reported. It takes no memory.
    pub fn new(alloc: Global) -> Throttle
        ensures { StandsFor result [] }
    {
        Throttle {
            streaks: BTreeMap::new(alloc),
        }
    }

    /// Whether a client of this address and tenant may try to log in, at this moment in seconds. It
    /// takes no memory.
    pub fn check(&self, addr: &Addr, tenant: TenantId, now: u64) -> Allowance
        ensures { (reports : List Report) → StandsFor self.now reports → result ≡ allowed reports addr.now tenant now }
    {
        match self.streaks.get(&Pair {
            tenant,
            addr: *addr,
        }) {
            Some(streak) => streak.allowance(now),
            None => Allowance::Go,
        }
    }

    /// Takes note of a login that was tried at this moment, in seconds, and whether it succeeded. Only
    /// a first failure takes memory. An `Err` changes nothing.
    pub fn report(
        &mut self,
        addr: &Addr,
        tenant: TenantId,
        ok: bool,
        now: u64,
    ) -> Result<(), NoMemory>
        ensures ok { OnOk result ((reports : List Report) → StandsFor self.old reports → StandsFor self.new (record { addr = addr.now; tenant = tenant; ok = ok; moment = now } ∷ reports)) }
        ensures err { OnErr result (Keeps self.old self.new) }
    {
        let pair = Pair {
            tenant,
            addr: *addr,
        };
        if ok {
            self.streaks.remove(&pair);
            return Ok(());
        }
        self.add_failure(pair, now)
    }

    fn add_failure(&mut self, pair: Pair, now: u64) -> Result<(), NoMemory>
        ensures ok { OnOk result ((reports : List Report) → StandsFor self.old reports → StandsFor self.new (record { addr = pair.addr; tenant = pair.tenant; ok = false; moment = now } ∷ reports)) }
        ensures err { OnErr result (Keeps self.old self.new) }
    {
        if let Some(streak) = self.streaks.get_mut(&pair) {
            *streak = streak.next(now);
            return Ok(());
        }
        self.streaks.insert(pair, Streak::first(now))?;
        Ok(())
    }
}
