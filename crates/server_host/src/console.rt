//! Standard error.

use pgw_frames::NoMemory;
use std::sync::{Mutex, Wait};
use std::time::{Clock, SystemTime, UNIX_EPOCH};

/// Standard error, to which one thread writes at a time.
#[derive(Drop)]
pub struct Console {
    turn: Mutex<u64>,
}

impl Console {
    pub fn new() -> Console {
        Console {
            turn: Mutex::new(0),
        }
    }

    /// Writes a line, where there is memory for it. Whether it can be written changes nothing.
    pub fn say<R: Wait + Eprint>(&self, rt: &R, line: Result<String, NoMemory>) {
        if let Ok(line) = line {
            let turn = self.turn.lock(rt);
            let _ = eprint!(rt; "{line}");
            drop(turn);
        }
    }
}

/// The moment now in seconds since 1970, or 0 where the system tells none.
pub fn moment<R: Clock>(rt: &R) -> u64 {
    let Ok(now) = SystemTime::now(rt) else {
        return 0;
    };
    match now.duration_since(UNIX_EPOCH) {
        Ok(since) => since.as_secs(),
        Err(_) => 0,
    }
}
