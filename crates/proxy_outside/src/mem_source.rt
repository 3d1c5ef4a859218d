//! A source in memory.

ghost use Rattle.std.specs.Prelude.{◌≡◌, ◌≤◌, ◌<◌, ◌+◌, take, drop, length, IfOk, false};
ghost use Rattle.proxy_outside.specs.Reading.{Reads};
ghost use Rattle.proxy_outside.specs.MemSource.{origin_of, after_read, ReadsAsListed};

use crate::source::{Source, Took};
use pgw_frames::{Bytes, NoMemory};
use std::alloc::Global;
use std::marker::Model;

/// Gives these bytes, at most `piece` of them in a call. The listed calls, counted from 1, are idle or
/// fail; one that stands in both lists fails.
#[derive(Debug, Drop)]
pub struct MemSource {
    bytes: Bytes,
    at: usize,
    piece: usize,
    idle: Vec<u64>,
    failing: Vec<u64>,
    calls: u64,
    faults: u64,
    waits: u64,
    ended: bool,
}

impl Model for MemSource {
    ghost use Rattle.std.specs.Prelude.{◌≡◌, ◌≤◌, length, IsTrue};
    ghost use Rattle.proxy_outside.specs.Supply.{Supply};

    ghost Value = { Supply };

    ghost view = { λ s. record { bytes = s.bytes; at = s.at; piece = s.piece; idle = s.idle.items; failing = s.failing.items; calls = s.calls; faults = s.faults; waits = s.waits; ended = s.ended } };

    ghost invariant = { λ s. record { within : s.at ≤ length s.bytes; at_end : IsTrue s.ended → length s.bytes ≤ s.at; some : 1 ≤ s.piece } };
}

/// Copies the bytes from a place on to the front.
fn copy_part(from: &[u8], at: usize, count: usize, to: &mut [u8])
    requires there { at + count ≤ length from.now }
    requires room { count ≤ length to.old }
    ensures front { take count to.new ≡ take count (drop at from.now) }
    ensures others { drop count to.new ≡ drop count to.old }
{
    to[..count].copy_from_slice(&from[at..at + count]);
}

impl MemSource {
    pub fn make(
        alloc: Global,
        bytes: &[u8],
        piece: usize,
        idle: &[u64],
        failing: &[u64],
    ) -> Result<MemSource, NoMemory>
        requires { 1 ≤ piece }
        ensures { IfOk result (λ s. s ≡ record { bytes = bytes.now; at = 0; piece = piece; idle = idle.now; failing = failing.now; calls = 0; faults = 0; waits = 0; ended = false }) }
    {
        Ok(MemSource {
            bytes: Bytes::of(alloc, bytes)?,
            at: 0,
            piece,
            idle: Vec::from_slice(alloc, idle)?,
            failing: Vec::from_slice(alloc, failing)?,
            calls: 0,
            faults: 0,
            waits: 0,
            ended: false,
        })
    }
}

impl Source for MemSource {
    ghost origin = { origin_of };

    fn read(&mut self, buf: &mut [u8]) -> Took
        requires { 0 < length buf.old }
        ensures reads { Reads result (origin_of self.old) (origin_of self.new) buf.old buf.new }
        ensures listed { ReadsAsListed result self.old buf.old }
        ensures next { self.new ≡ after_read result self.old }
    {
        if self.ended {
            return Took::End;
        }
        self.calls = self.calls.saturating_add(1);
        if self.failing.as_slice().contains(&self.calls) {
            self.faults = self.faults.saturating_add(1);
            return Took::Failed;
        }
        if self.idle.as_slice().contains(&self.calls) {
            self.waits = self.waits.saturating_add(1);
            return Took::Idle;
        }
        let count = self.piece.min(buf.len()).min(self.bytes.len() - self.at);
        if count == 0 {
            self.ended = true;
            return Took::End;
        }
        copy_part(self.bytes.as_slice(), self.at, count, buf);
        self.at += count;
        Took::Got(count)
    }
}
