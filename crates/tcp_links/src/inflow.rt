//! What comes over a socket.

ghost use Rattle.std.specs.Prelude.{◌≡◌, ◌<◌, length, IfOk};
ghost use Rattle.tcp_links.specs.Ahead.{held_of};
ghost use Rattle.tcp_links.specs.Coming.{Comes, IsNone};

use crate::limits::Pace;
use crate::outs::Outs;
use crate::read_ahead::ReadAhead;
use crate::stream::Stream;
use std::alloc::{AllocError, Global};
use std::io::{self, ErrorKind};
use std::sync::Arc;

/// What a read gave.
#[derive(Clone, Copy, Debug, PartialEq, Eq)]
pub(crate) enum Came {
    /// So many bytes.
    Bytes(usize),
    End,
    Nothing,
    Fault,
}

/// A socket whose reads send what its connection has gathered before they wait.
#[derive(Drop)]
pub(crate) struct Inflow {
    stream: Stream,
    outs: Arc<Outs>,
    ahead: ReadAhead,
    pace: Pace,
    /// How many reads in a row found nothing.
    quiet: u64,
    is_slow: bool,
}

impl Inflow {
    pub(crate) fn make(
        alloc: Global,
        stream: Stream,
        outs: Arc<Outs>,
        pace: Pace,
    ) -> Result<Inflow, AllocError> {
        Ok(Inflow {
            stream,
            outs,
            ahead: ReadAhead::make(alloc)?,
            pace,
            quiet: 0,
            is_slow: false,
        })
    }

    /// Something came or was sent.
    fn stir(&mut self)
        ensures { self.new.ahead ≡ self.old.ahead }
    {
        self.quiet = 0;
        if self.is_slow {
            self.is_slow = !self.stream.set_wait(self.pace.fast);
        }
    }

    /// Nothing came.
    fn rest(&mut self) {
        self.ahead.rest();
        self.outs.rest();
        self.quiet = self.quiet.saturating_add(1);
        if self.quiet == self.pace.waits {
            self.is_slow = self.stream.set_wait(self.pace.slow);
        }
    }

    /// Reads on, where nothing is held, and says how many bytes came.
    fn refill(&mut self) -> io::Result<usize>
        requires { length (held_of self.old.ahead) ≡ 0 }
        ensures { IfOk result (λ n. length (held_of self.new.ahead) ≡ n) }
    {
        self.ahead.grow();
        if self.outs.flush() {
            self.stir();
        }
        self.ahead.fill(&mut self.stream)
    }

    /// What a read that failed gave. A connection on which the system gave up has timed out, and that is a fault.
    fn fail(&mut self, kind: ErrorKind) -> Came
        ensures { IsNone result }
    {
        if matches!(kind, ErrorKind::WouldBlock | ErrorKind::Interrupted) {
            self.rest();
            return Came::Nothing;
        }
        Came::Fault
    }

    /// Gives the bytes that come next.
    pub(crate) fn read(&mut self, buf: &mut [u8]) -> Came
        requires { 0 < length buf.old }
        ensures { Comes result buf.old buf.new }
    {
        if self.ahead.is_empty() {
            match self.refill() {
                Ok(0) => return Came::End,
                Ok(_) => self.stir(),
                Err(e) => return self.fail(e.kind()),
            }
        }
        Came::Bytes(self.ahead.hand(buf))
    }
}
