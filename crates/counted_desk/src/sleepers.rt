//! Threads that sleep until a call of the desk ends.
//!
//! A thread joins those who wait, announces that it may sleep, looks once more whether it need, and sleeps;
//! whoever ends a call while some wait withdraws what was announced and wakes one, which announces it again
//! before its own call. No clause says that a thread wakes.

use std::sync::Wait;
use std::sync::atomic::{AtomicU64, Ordering};

/// How many threads wait, and whether some of them may sleep: 1, else 0. They sleep on the second word.
#[derive(Drop)]
pub(crate) struct Sleepers {
    waiting: AtomicU64,
    announced: AtomicU64,
}

impl Sleepers {
    pub const fn new() -> Sleepers {
        Sleepers {
            waiting: AtomicU64::new(0),
            announced: AtomicU64::new(0),
        }
    }

    /// One thread more waits.
    pub fn join(&self) {
        self.waiting.fetch_add(1, Ordering::SeqCst);
    }

    /// A thread that waited waits no longer.
    pub fn part(&self) {
        self.waiting.fetch_sub(1, Ordering::SeqCst);
    }

    /// Says that a thread may sleep from now on.
    pub fn announce(&self) {
        self.announced.store(1, Ordering::SeqCst);
    }

    /// Sleeps until a call ends, where none has ended since the announcement.
    pub fn sleep<R: Wait>(&self, rt: &R) {
        self.announced.park(rt, 1);
    }

    /// Wakes a thread, where some wait and may sleep. To be called at the end of a call.
    pub fn wake_one(&self) {
        if self.waiting.load(Ordering::SeqCst) == 0 {
            return;
        }
        if self.announced.swap(0, Ordering::SeqCst) == 1 {
            self.announced.wake_one();
        }
    }
}
