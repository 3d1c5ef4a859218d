//! What is kept of a pair whose last login failed.

ghost use Rattle.std.specs.Prelude.{◌≡◌, ◌+◌, ◌-◌, ◌^◌, min};
ghost use Rattle.login_throttle.specs.Reports.{wait_after, end_of_wait, answer};

use crate::allowance::Allowance;

/// The longest wait, in seconds.
pub const MOST_WAIT: u64 = 3_600;

/// The failures in a row, and the moment of the last one.
#[derive(Clone, Copy, Debug, PartialEq, Eq)]
pub(crate) struct Streak {
    /// Stops at 4,294,967,295.
    pub failures: u32,
    /// In seconds.
    pub last: u64,
}

/// How many seconds one waits after so many failures, of which there is one at least.
fn wait_after(failures: u32) -> u64
    ensures { result ≡ wait_after failures }
{
    2u64.saturating_pow(failures.saturating_sub(1))
        .min(MOST_WAIT)
}

impl Streak {
    /// After a first failure.
    pub fn first(now: u64) -> Streak
        ensures { result ≡ record { failures = 1; last = now } }
    {
        Streak {
            failures: 1,
            last: now,
        }
    }

    /// After one failure more.
    pub fn next(&self, now: u64) -> Streak
        ensures { result ≡ record { failures = min (self.now.failures + 1) (2 ^ 32 - 1); last = now } }
    {
        Streak {
            failures: self.failures.saturating_add(1),
            last: now,
        }
    }

    /// The moment from which on a login may be tried again.
    fn until(&self) -> u64
        ensures { result ≡ end_of_wait self.now.failures self.now.last }
    {
        self.last.saturating_add(wait_after(self.failures))
    }

    pub fn allowance(&self, now: u64) -> Allowance
        ensures { result ≡ answer self.now.failures self.now.last now }
    {
        let until = self.until();
        if now < until {
            return Allowance::Until(until);
        }
        Allowance::Go
    }
}
