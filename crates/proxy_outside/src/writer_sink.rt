//! A sink over a writer.

ghost use Rattle.std.specs.Prelude.{◌≡◌, None};

use crate::sink::{Gave, Sink};
use std::io::Write;
use std::marker::Model;

/// Gives to a writer, as a file or standard output. It tells no contents. A write that takes nothing is
/// a failure.
#[derive(Drop)]
pub struct WriterSink<W: Write + Drop> {
    writer: W,
    faults: u64,
}

impl<W: Write + Drop> Model for WriterSink<W> {
    ghost use Rattle.std.specs.Prelude.{None};
    ghost use Rattle.proxy_outside.specs.Writing.{Target};

    ghost Value = { Target };

    ghost view = { λ s. record { contents = None; faults = s.faults; link = 0 } };
}

impl<W: Write + Drop> WriterSink<W> {
    pub fn new(writer: W) -> WriterSink<W>
        ensures { result ≡ record { contents = None; faults = 0; link = 0 } }
    {
        WriterSink { writer, faults: 0 }
    }
}

impl<W: Write + Drop> Sink for WriterSink<W> {
    ghost target = { λ s. s };

    fn write(&mut self, bytes: &[u8]) -> Gave {
        match self.writer.write(bytes) {
            Ok(0) => {
                self.faults = self.faults.saturating_add(1);
                Gave::Failed
            }
            Ok(n) => Gave::Took(n),
            Err(_) => {
                self.faults = self.faults.saturating_add(1);
                Gave::Failed
            }
        }
    }
}
