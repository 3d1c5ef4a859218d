//! A sink in memory.

ghost use Rattle.std.specs.Prelude.{◌≡◌, ◌≤◌, ◌<◌, [], length, IfOk};
ghost use Rattle.proxy_outside.specs.Writing.{Writes};
ghost use Rattle.proxy_outside.specs.MemSink.{target_of, after_write, WritesAsListed};

use crate::sink::{Gave, Sink};
use pgw_frames::{Bytes, NoMemory};
use std::alloc::Global;
use std::marker::Model;

/// Keeps what it is given, at most `piece` bytes in a call. The listed calls, counted from 1, fail; so
/// does one that finds no memory.
#[derive(Debug, Drop)]
pub struct MemSink {
    bytes: Bytes,
    piece: usize,
    failing: Vec<u64>,
    calls: u64,
    faults: u64,
}

impl Model for MemSink {
    ghost use Rattle.std.specs.Prelude.{◌≤◌};
    ghost use Rattle.proxy_outside.specs.Supply.{Store};

    ghost Value = { Store };

    ghost view = { λ s. record { bytes = s.bytes; piece = s.piece; failing = s.failing.items; calls = s.calls; faults = s.faults } };

    ghost invariant = { λ s. 1 ≤ s.piece };
}

impl MemSink {
    pub fn make(alloc: Global, piece: usize, failing: &[u64]) -> Result<MemSink, NoMemory>
        requires { 1 ≤ piece }
        ensures { IfOk result (λ s. s ≡ record { bytes = []; piece = piece; failing = failing.now; calls = 0; faults = 0 }) }
    {
        Ok(MemSink {
            bytes: Bytes::new(alloc),
            piece,
            failing: Vec::from_slice(alloc, failing)?,
            calls: 0,
            faults: 0,
        })
    }

    /// All bytes that were appended.
    pub fn contents(&self) -> &[u8]
        ensures { result.now ≡ self.now.bytes }
    {
        self.bytes.as_slice()
    }
}

impl Sink for MemSink {
    ghost target = { target_of };

    fn write(&mut self, bytes: &[u8]) -> Gave
        requires { 0 < length bytes.now }
        ensures writes { Writes result (target_of self.old) (target_of self.new) bytes.now }
        ensures listed { WritesAsListed result self.old bytes.now }
        ensures next { self.new ≡ after_write result self.old bytes.now }
    {
        self.calls = self.calls.saturating_add(1);
        if self.failing.as_slice().contains(&self.calls) {
            self.faults = self.faults.saturating_add(1);
            return Gave::Failed;
        }
        let count = self.piece.min(bytes.len());
        match self.bytes.extend(&bytes[..count]) {
            Ok(()) => Gave::Took(count),
            Err(_) => {
                self.faults = self.faults.saturating_add(1);
                Gave::Failed
            }
        }
    }
}
