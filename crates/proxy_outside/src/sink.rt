//! Sinks of bytes.

ghost use Rattle.std.specs.Prelude.{◌<◌, length};
ghost use Rattle.proxy_outside.specs.Writing.{Target, Writes};

/// What a write took.
#[derive(Clone, Copy, Debug, PartialEq, Eq)]
pub enum Gave {
    /// So many of the first bytes were appended.
    Took(usize),
    /// The sink failed. Nothing was appended.
    Failed,
}

/// Bytes that go out. It counts its faults.
pub trait Sink {
    ghost target: { Self → Target };

    /// Writes some of the first bytes, of which there is at least one.
    fn write(&mut self, bytes: &[u8]) -> Gave
        requires { 0 < length bytes.now }
        ensures { Writes result (target self.old) (target self.new) bytes.now };
}
