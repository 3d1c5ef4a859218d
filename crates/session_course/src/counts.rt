//! What is counted over a course.

ghost use Rattle.std.specs.Prelude.{◌≡◌};
ghost use Rattle.proxy_links.specs.Board.{raised};

/// What is counted over a course. Each count stops at 2^64 - 1.
#[derive(Clone, Copy, Debug, PartialEq, Eq)]
pub struct Counts {
    /// How often the session was moved.
    pub moves: u64,
    /// Attempts to move it that were given up for want of memory.
    pub starved: u64,
    /// Asks of the hub that its port refused, or that found no such session.
    pub unbooked: u64,
}

/// One more.
pub(crate) fn count(n: &mut u64)
    ensures { n.new ≡ raised n.old 1 }
{
    *n = n.saturating_add(1);
}
