//! The board and its halves.

ghost use Rattle.std.specs.Prelude.{◌≡◌, IfOk};
ghost use Rattle.atomic_board.specs.Halves.{half_of, no_half};

use crate::counts::Counts;
use pgw_frames::NoMemory;
use proxy_links::{BackMarks, FrontMarks, Look, Marks};
use std::alloc::Global;
use std::sync::Arc;
use std::sync::atomic::{AtomicBool, AtomicU64, Ordering};

/// How often the response leg looks on after the client has ended, where replies are missing.
const LATE: u64 = 50;

/// What the halves and the bell share.
#[derive(Drop)]
struct Shared {
    is_rung: AtomicBool,
    /// The request leg has parked.
    is_parked: AtomicBool,
    front_aborted: AtomicBool,
    back_aborted: AtomicBool,
    /// The client has ended; so many replies are due in all.
    is_finished: AtomicBool,
    finished: AtomicU64,
    /// How many replies the response leg has told of.
    told: AtomicU64,
}

/// Asks both legs to stop. It is rung from any thread.
#[derive(Drop)]
pub struct Bell {
    shared: Arc<Shared>,
}

impl Bell {
    /// Asks for a stop. The board forgets it when it next lends its halves.
    pub fn ring(&self) {
        self.shared.is_rung.store(true, Ordering::SeqCst);
    }
}

/// The request leg's half. It is told Over once the other leg has aborted, and Park behind a ring where as many
/// Query and Sync were forwarded as ReadyForQuery were told of.
#[derive(Drop)]
pub struct AtomicFront {
    shared: Arc<Shared>,
    counts: Counts,
}

/// The response leg's half. It is told Over once the other leg has aborted, or has finished and all replies were
/// passed on or 50 further looks were made; and Park once the other leg has parked.
#[derive(Drop)]
pub struct AtomicBack {
    shared: Arc<Shared>,
    counts: Counts,
    late: u64,
}

impl AtomicFront {
    fn answer(&self, qs: u64) -> Look {
        let shared = &*self.shared;
        if shared.back_aborted.load(Ordering::SeqCst) {
            return Look::Over;
        }
        if shared.is_rung.load(Ordering::SeqCst) && shared.told.load(Ordering::SeqCst) == qs {
            shared.is_parked.store(true, Ordering::SeqCst);
            return Look::Park;
        }
        Look::Go
    }
}

impl FrontMarks for AtomicFront {
    ghost half = { λ f. half_of f.counts };

    fn look(&mut self, qs: u64) -> Look {
        let look = self.answer(qs);
        self.counts.note(look);
        look
    }

    fn finish(&mut self, qs: u64) {
        let shared = &*self.shared;
        shared.finished.store(qs, Ordering::SeqCst);
        shared.is_finished.store(true, Ordering::SeqCst);
    }

    fn abort(&mut self) {
        self.shared.front_aborted.store(true, Ordering::SeqCst);
    }
}

impl AtomicBack {
    fn answer(&mut self, zs: u64) -> Look
        ensures { self.new.counts ≡ self.old.counts }
    {
        let shared = &*self.shared;
        shared.told.store(zs, Ordering::SeqCst);
        if shared.front_aborted.load(Ordering::SeqCst) {
            return Look::Over;
        }
        if shared.is_parked.load(Ordering::SeqCst) {
            return Look::Park;
        }
        if !shared.is_finished.load(Ordering::SeqCst) {
            return Look::Go;
        }
        if shared.finished.load(Ordering::SeqCst) == zs || self.late >= LATE {
            return Look::Over;
        }
        self.late = self.late.saturating_add(1);
        Look::Go
    }
}

impl BackMarks for AtomicBack {
    ghost half = { λ b. half_of b.counts };

    fn look(&mut self, zs: u64) -> Look {
        let look = self.answer(zs);
        self.counts.note(look);
        look
    }

    fn abort(&mut self) {
        self.shared.back_aborted.store(true, Ordering::SeqCst);
    }
}

/// The board. It forgets an earlier ring, and what an earlier round of its legs told it, when it lends its halves.
#[derive(Drop)]
pub struct AtomicBoard {
    shared: Arc<Shared>,
    halves: Option<(AtomicFront, AtomicBack)>,
}

impl AtomicBoard {
    ghost use Rattle.atomic_board.specs.Boards.{front_of, back_of, is_home};

    /// A board with its halves home, and its bell.
    pub fn make(alloc: Global) -> Result<(AtomicBoard, Bell), NoMemory>
        ensures home { IfOk result (λ b. is_home b.0) }
        ensures front { IfOk result (λ b. front_of b.0 ≡ no_half) }
        ensures back { IfOk result (λ b. back_of b.0 ≡ no_half) }
    {
        let shared = Arc::new(
            alloc,
            Shared {
                is_rung: AtomicBool::new(false),
                is_parked: AtomicBool::new(false),
                front_aborted: AtomicBool::new(false),
                back_aborted: AtomicBool::new(false),
                is_finished: AtomicBool::new(false),
                finished: AtomicU64::new(0),
                told: AtomicU64::new(0),
            },
        )?;
        let front = AtomicFront {
            shared: Arc::try_clone(&shared)?,
            counts: Counts::none(),
        };
        let back = AtomicBack {
            shared: Arc::try_clone(&shared)?,
            counts: Counts::none(),
            late: 0,
        };
        let bell = Bell {
            shared: Arc::try_clone(&shared)?,
        };
        Ok((
            AtomicBoard {
                shared,
                halves: Some((front, back)),
            },
            bell,
        ))
    }
}

impl Marks for AtomicBoard {
    ghost use Rattle.atomic_board.specs.Boards.{front_of, back_of, is_home};

    type Front = AtomicFront;

    type Back = AtomicBack;

    ghost front = { front_of };

    ghost back = { back_of };

    ghost home = { is_home };

    fn ends(&mut self) -> (AtomicFront, AtomicBack) {
        for flag in [
            &self.shared.is_rung,
            &self.shared.is_parked,
            &self.shared.front_aborted,
            &self.shared.back_aborted,
            &self.shared.is_finished,
        ] {
            flag.store(false, Ordering::SeqCst);
        }
        match self.halves.take() {
            Some((front, mut back)) => {
                back.late = 0;
                (front, back)
            }
            None => unreachable!(),
        }
    }

    fn back(&mut self, front_half: AtomicFront, back_half: AtomicBack) {
        self.halves = Some((front_half, back_half));
    }
}
