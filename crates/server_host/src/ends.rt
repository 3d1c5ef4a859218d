//! How many connections have ended.

use std::sync::{Condvar, CondvarTimeouts, Mutex, Wait};
use std::time::{Clock, Duration};

/// The connections that threads have begun and ended.
#[derive(Clone, Copy)]
struct Counts {
    begun: u64,
    ended: u64,
}

impl Counts {
    /// Whether so many have ended; without a number they never have.
    fn have_ended(&self, sessions: Option<u64>) -> bool {
        match sessions {
            Some(most) => self.ended >= most,
            None => false,
        }
    }
}

/// Counts connections, and wakes who waits for their ends.
#[derive(Drop)]
pub struct Ends {
    counts: Mutex<Counts>,
    more: Condvar,
}

impl Ends {
    pub fn new() -> Ends {
        Ends {
            counts: Mutex::new(Counts { begun: 0, ended: 0 }),
            more: Condvar::new(),
        }
    }

    /// Counts one more connection, and says how many are open now.
    pub fn begin<R: Wait>(&self, rt: &R) -> u64 {
        let mut counts = self.counts.lock(rt);
        counts.begun = counts.begun.saturating_add(1);
        counts.begun.saturating_sub(counts.ended)
    }

    /// Counts the end of one.
    pub fn end<R: Wait>(&self, rt: &R) {
        let mut counts = self.counts.lock(rt);
        counts.ended = counts.ended.saturating_add(1);
        drop(counts);
        self.more.notify_all();
    }

    /// Waits until so many have ended, or forever where no number is given.
    pub fn wait<R: Wait>(&self, rt: &R, sessions: Option<u64>) {
        let mut counts = self.counts.lock(rt);
        for _ in rt.forever() {
            if counts.have_ended(sessions) {
                return;
            }
            counts = self.more.wait(rt, counts);
        }
    }

    /// The same, but so long at most. The answer says whether they have ended.
    pub fn wait_at_most<R: Wait + Clock>(
        &self,
        rt: &R,
        sessions: Option<u64>,
        most: Duration,
    ) -> bool {
        let counts = self.counts.lock(rt);
        let (counts, _) = self
            .more
            .wait_timeout_while(rt, counts, most, |c| !c.have_ended(sessions));
        counts.have_ended(sessions)
    }
}
