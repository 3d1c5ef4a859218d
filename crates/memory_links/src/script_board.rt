//! A board whose answers are written down before.

ghost use Rattle.std.specs.Prelude.{◌≡◌, IfOk};
ghost use Rattle.proxy_links.specs.Board.{Looks};
ghost use Rattle.memory_links.specs.Counts.{half_of, no_half};

use crate::counts::Counts;
use pgw_frames::NoMemory;
use proxy_links::{BackMarks, FrontMarks, Look, Marks};
use std::alloc::Global;

/// Answers that are given in turn, and Go ever after.
#[derive(Drop)]
struct Answers {
    answers: Vec<Look>,
    at: usize,
    counts: Counts,
}

impl Answers {
    fn of(alloc: Global, answers: &[Look]) -> Result<Answers, NoMemory>
        ensures { IfOk result (λ a. half_of a.counts ≡ no_half) }
    {
        Ok(Answers {
            answers: Vec::from_slice(alloc, answers)?,
            at: 0,
            counts: Counts::none(),
        })
    }

    /// The answer that is next.
    fn next(&mut self) -> Look
        ensures { self.new.counts ≡ self.old.counts }
    {
        match self.answers.as_slice().get(self.at) {
            Some(look) => {
                self.at += 1;
                *look
            }
            None => Look::Go,
        }
    }

    fn look(&mut self) -> Look
        ensures { Looks result (half_of self.old.counts) (half_of self.new.counts) }
    {
        let look = self.next();
        self.counts.note(look);
        look
    }
}

/// The request leg's half.
#[derive(Drop)]
pub struct ScriptFront {
    answers: Answers,
}

/// The response leg's half.
#[derive(Drop)]
pub struct ScriptBack {
    answers: Answers,
}

impl FrontMarks for ScriptFront {
    ghost half = { λ f. half_of f.answers.counts };

    fn look(&mut self, _qs: u64) -> Look {
        self.answers.look()
    }

    fn finish(&mut self, _qs: u64) {}

    fn abort(&mut self) {}
}

impl BackMarks for ScriptBack {
    ghost half = { λ b. half_of b.answers.counts };

    fn look(&mut self, _zs: u64) -> Look {
        self.answers.look()
    }

    fn abort(&mut self) {}
}

/// A board whose halves answer from these lists in turn, and Go past their ends.
#[derive(Drop)]
pub struct ScriptBoard {
    halves: Option<(ScriptFront, ScriptBack)>,
}

impl ScriptBoard {
    ghost use Rattle.memory_links.specs.Boards.{front_of, back_of, is_home};

    pub fn make(alloc: Global, front: &[Look], back: &[Look]) -> Result<ScriptBoard, NoMemory>
        ensures home { IfOk result (λ b. is_home b) }
        ensures front { IfOk result (λ b. front_of b ≡ no_half) }
        ensures back { IfOk result (λ b. back_of b ≡ no_half) }
    {
        let front = ScriptFront {
            answers: Answers::of(alloc, front)?,
        };
        let back = ScriptBack {
            answers: Answers::of(alloc, back)?,
        };
        Ok(ScriptBoard {
            halves: Some((front, back)),
        })
    }
}

impl Marks for ScriptBoard {
    ghost use Rattle.memory_links.specs.Boards.{front_of, back_of, is_home};

    type Front = ScriptFront;

    type Back = ScriptBack;

    ghost front = { front_of };

    ghost back = { back_of };

    ghost home = { is_home };

    fn ends(&mut self) -> (ScriptFront, ScriptBack) {
        match self.halves.take() {
            Some(halves) => halves,
            None => unreachable!(),
        }
    }

    fn back(&mut self, front_half: ScriptFront, back_half: ScriptBack) {
        self.halves = Some((front_half, back_half));
    }
}
