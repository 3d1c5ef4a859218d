//! Sources of bytes.

ghost use Rattle.std.specs.Prelude.{◌<◌, length};
ghost use Rattle.proxy_outside.specs.Reading.{Origin, Reads};

/// What a read gave.
#[derive(Clone, Copy, Debug, PartialEq, Eq)]
pub enum Took {
    /// So many bytes were taken next, and stand at the front of the buffer.
    Got(usize),
    /// Nothing is left, now and for good.
    End,
    /// Nothing came yet.
    Idle,
    /// The source failed.
    Failed,
}

/// Bytes that come in. It counts its faults and its idle reads.
pub trait Source {
    ghost origin: { Self → Origin };

    /// Reads into the buffer, which is not empty. Nothing is taken unless the answer is `Got`.
    fn read(&mut self, buf: &mut [u8]) -> Took
        requires { 0 < length buf.old }
        ensures { Reads result (origin self.old) (origin self.new) buf.old buf.new };
}
