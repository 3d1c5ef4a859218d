//! The calls that a desk took.
ghost use Rattle.std.specs.Prelude.{◌≡◌, length, slice_get, MatchOption, ◌≤◌};

use proxy_outside::Machine;
use std::marker::Model;

/// The calls that a desk took, in order, each with its ticket. Contracts see their list.
#[derive(Drop)]
pub struct Journal<M: Machine> {
    calls: Vec<(u64, M::Command)>,
}

impl<M: Machine> Model for Journal<M> {
    ghost use Rattle.std.specs.Prelude.{ℕ, List};

    ghost Value = { List (ℕ × M.Command) };

    ghost view = { λ j. j.calls.items };
}

impl<M: Machine> Journal<M> {
    pub(crate) fn of(calls: Vec<(u64, M::Command)>) -> Journal<M>
        ensures { result ≡ calls.items }
    {
        Journal { calls }
    }

    /// How many calls it has.
    pub fn len(&self) -> usize
        ensures { result ≡ length self.now }
    {
        self.calls.len()
    }

    /// The call at place `i`, counted from 0.
    pub fn get(&self, i: usize) -> Option<&(u64, M::Command)>
        ensures { MatchOption result (length self.now ≤ i) (λ c. slice_get self.now i ≡ Some c.now) }
    {
        self.calls.get(i)
    }
}
