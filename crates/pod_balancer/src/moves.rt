//! What a plan asks for.

ghost use Rattle.std.specs.Prelude.{◌≡◌, ◌==◌, length, slice_get};
ghost use Rattle.std.specs.Option.{option_copied};

use proxy_outside::{PodNo, SessionNo};
use std::marker::Model;

/// That a session goes from one pod to another.
#[derive(Clone, Copy, Debug, PartialEq, Eq)]
pub struct Move {
    pub session: SessionNo,
    pub from: PodNo,
    pub to: PodNo,
}

/// A list of moves.
#[derive(Debug, Drop)]
pub struct Moves {
    items: Vec<Move>,
}

impl Model for Moves {
    ghost use Rattle.std.specs.Prelude.{List};
    ghost use Rattle.pod_balancer.specs.declared.moves.Move.{Move};

    ghost Value = { List Move };

    ghost view = { λ m. m.items.items };
}

impl Moves {
    /// Takes a vector over, without a copy.
    pub fn from_vec(items: Vec<Move>) -> Moves
        ensures { result ≡ items.items }
    {
        Moves { items }
    }

    /// Gives the vector back, without a copy.
    pub fn into_vec(self) -> Vec<Move>
        ensures { result.items ≡ self }
    {
        self.items
    }

    pub fn len(&self) -> usize
        ensures { result ≡ length self.now }
    {
        self.items.len()
    }

    pub fn is_empty(&self) -> bool
        ensures { result ≡ (length self.now == 0) }
    {
        self.items.is_empty()
    }

    /// The moves in their order.
    pub fn as_slice(&self) -> &[Move]
        ensures { result.now ≡ self.now }
    {
        self.items.as_slice()
    }

    /// The move at this place, counted from 0.
    pub fn get(&self, i: usize) -> Option<&Move>
        ensures { option_copied result ≡ slice_get self.now i }
    {
        self.items.get(i)
    }
}
