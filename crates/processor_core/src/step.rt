//! What a processor answers.

ghost use Rattle.std.specs.Prelude.{◌≡◌};
ghost use Rattle.processor_core.specs.Streams.{step_of_next};

use pgw_frames::{Frame, Next};

/// What is next of a stream.
#[derive(Debug, Drop)]
pub enum Step {
    /// The next message, which is counted from now on.
    Frame(Frame),
    /// No whole message yet: some more bytes would make one.
    Need,
    /// A length outside 4 to 16,777,220, which begins no message, now and for good.
    Bad(u32),
    /// The processor is suspended.
    Stopped,
}

/// The answer of a stream that isn't suspended.
pub(crate) fn step_of(next: Next) -> Step
    ensures { result ≡ step_of_next next }
{
    match next {
        Next::Frame(f) => Step::Frame(f),
        Next::Need => Step::Need,
        Next::BadLength(n) => Step::Bad(n),
    }
}

/// What is next of a stream, lent: it isn't handed out yet.
#[derive(Clone, Copy, Debug)]
pub enum Peek<'a> {
    /// The next message, as it stands on the wire: type byte, length and body.
    Frame(&'a [u8]),
    /// No whole message yet: some more bytes would make one.
    Need,
    /// A length outside 4 to 16,777,220, which begins no message, now and for good.
    Bad(u32),
    /// The processor is suspended.
    Stopped,
}
