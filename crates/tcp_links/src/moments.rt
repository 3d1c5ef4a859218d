//! The system's clock.

ghost use Rattle.std.specs.Prelude.{None};

use proxy_links::Clock;
use std::time::{Clock as System, SystemTime, UNIX_EPOCH};

/// Gives the seconds since 1970, and, where the system tells no time, what it gave last. It tells no list.
#[derive(Drop)]
pub struct SystemClock<C: System + Drop> {
    system: C,
    last: u64,
}

impl<C: System + Drop> SystemClock<C> {
    pub fn new(system: C) -> SystemClock<C> {
        SystemClock { system, last: 0 }
    }

    fn look(&self) -> Option<u64> {
        let now = SystemTime::now(&self.system).ok()?;
        Some(now.duration_since(UNIX_EPOCH).ok()?.as_secs())
    }
}

impl<C: System + Drop> Clock for SystemClock<C> {
    ghost given = { λ _. None };

    fn now(&mut self) -> u64 {
        if let Some(seconds) = self.look() {
            self.last = seconds;
        }
        self.last
    }
}
