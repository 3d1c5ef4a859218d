//! A board that parks at counts that are written down before.

ghost use Rattle.std.specs.Prelude.{◌≡◌, IfOk};
ghost use Rattle.memory_links.specs.Counts.{half_of, no_half};

use crate::counts::Counts;
use pgw_frames::NoMemory;
use proxy_links::{BackMarks, FrontMarks, Look, Marks};
use std::alloc::Global;
use std::sync::Arc;
use std::sync::atomic::{AtomicBool, AtomicU64, Ordering};

/// What the halves tell each other.
#[derive(Drop)]
struct Shared {
    front_aborted: AtomicBool,
    back_aborted: AtomicBool,
    is_finished: AtomicBool,
    finished: AtomicU64,
}

/// Numbers, each of which parks once.
#[derive(Drop)]
struct Numbers {
    numbers: Vec<u64>,
    counts: Counts,
}

impl Numbers {
    fn of(alloc: Global, numbers: &[u64]) -> Result<Numbers, NoMemory>
        ensures { IfOk result (λ n. half_of n.counts ≡ no_half) }
    {
        Ok(Numbers {
            numbers: Vec::from_slice(alloc, numbers)?,
            counts: Counts::none(),
        })
    }

    /// Whether a number is reached that was not before.
    fn reaches(&mut self, count: u64) -> bool
        ensures { self.new.counts ≡ self.old.counts }
    {
        let before = self.numbers.len();
        self.numbers.retain(|n| *n > count);
        self.numbers.len() < before
    }
}

/// The request leg's half.
#[derive(Drop)]
pub struct CountFront {
    shared: Arc<Shared>,
    numbers: Numbers,
}

/// The response leg's half.
#[derive(Drop)]
pub struct CountBack {
    shared: Arc<Shared>,
    numbers: Numbers,
}

impl CountFront {
    fn answer(&mut self, qs: u64) -> Look
        ensures { self.new.numbers.counts ≡ self.old.numbers.counts }
    {
        if self.shared.back_aborted.load(Ordering::SeqCst) {
            return Look::Over;
        }
        if self.numbers.reaches(qs) {
            return Look::Park;
        }
        Look::Go
    }
}

impl FrontMarks for CountFront {
    ghost half = { λ f. half_of f.numbers.counts };

    fn look(&mut self, qs: u64) -> Look {
        let look = self.answer(qs);
        self.numbers.counts.note(look);
        look
    }

    fn finish(&mut self, qs: u64) {
        self.shared.finished.store(qs, Ordering::SeqCst);
        self.shared.is_finished.store(true, Ordering::SeqCst);
    }

    fn abort(&mut self) {
        self.shared.front_aborted.store(true, Ordering::SeqCst);
    }
}

impl CountBack {
    fn answer(&mut self, zs: u64) -> Look
        ensures { self.new.numbers.counts ≡ self.old.numbers.counts }
    {
        if self.shared.front_aborted.load(Ordering::SeqCst) {
            return Look::Over;
        }
        if self.numbers.reaches(zs) {
            return Look::Park;
        }
        if self.shared.is_finished.load(Ordering::SeqCst)
            && self.shared.finished.load(Ordering::SeqCst) == zs
        {
            return Look::Over;
        }
        Look::Go
    }
}

impl BackMarks for CountBack {
    ghost half = { λ b. half_of b.numbers.counts };

    fn look(&mut self, zs: u64) -> Look {
        let look = self.answer(zs);
        self.numbers.counts.note(look);
        look
    }

    fn abort(&mut self) {
        self.shared.back_aborted.store(true, Ordering::SeqCst);
    }
}

/// A board that parks at these counts. For each number the front answers Park once, at the first look with at
/// least so many Query and Sync, and the back once, at the first look with at least so many ReadyForQuery. Each
/// answers Over once the other has aborted, and the back once as many ReadyForQuery were passed on as the front
/// finished with.
#[derive(Drop)]
pub struct CountBoard {
    halves: Option<(CountFront, CountBack)>,
}

impl CountBoard {
    ghost use Rattle.memory_links.specs.Counting.{front_of, back_of, is_home};

    pub fn make(alloc: Global, numbers: &[u64]) -> Result<CountBoard, NoMemory>
        ensures home { IfOk result (λ b. is_home b) }
        ensures front { IfOk result (λ b. front_of b ≡ no_half) }
        ensures back { IfOk result (λ b. back_of b ≡ no_half) }
    {
        let shared = Arc::new(
            alloc,
            Shared {
                front_aborted: AtomicBool::new(false),
                back_aborted: AtomicBool::new(false),
                is_finished: AtomicBool::new(false),
                finished: AtomicU64::new(0),
            },
        )?;
        let front = CountFront {
            shared: Arc::try_clone(&shared)?,
            numbers: Numbers::of(alloc, numbers)?,
        };
        let back = CountBack {
            shared,
            numbers: Numbers::of(alloc, numbers)?,
        };
        Ok(CountBoard {
            halves: Some((front, back)),
        })
    }
}

impl Marks for CountBoard {
    ghost use Rattle.memory_links.specs.Counting.{front_of, back_of, is_home};

    type Front = CountFront;

    type Back = CountBack;

    ghost front = { front_of };

    ghost back = { back_of };

    ghost home = { is_home };

    fn ends(&mut self) -> (CountFront, CountBack) {
        match self.halves.take() {
            Some(halves) => halves,
            None => unreachable!(),
        }
    }

    fn back(&mut self, front_half: CountFront, back_half: CountBack) {
        self.halves = Some((front_half, back_half));
    }
}
