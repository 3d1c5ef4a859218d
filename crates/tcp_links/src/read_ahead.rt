//! Bytes that were read and not handed on yet.

ghost use Rattle.std.specs.Prelude.{◌≡◌, ◌≤◌, ◌<◌, ◌+◌, ◌-◌, [], length, take, drop, min, vec_len, IfOk, OnOk, OnErr, IsTrue, ◌↔◌};
ghost use Rattle.std.specs.Io.KnownBytes.{ReadConsumes, Consumes};
ghost use Rattle.tcp_links.specs.Part.{part};

use std::alloc::{AllocError, Global};
use std::io;
use std::io::Read;

/// The least and the most bytes of one read.
const LEAST: usize = 1024;

const MOST: usize = 65_536;

/// By how much the next read is longer where one filled the buffer.
const STEP: usize = 8;

/// A buffer, and which part of it is still to be handed on. It grows while reads fill it.
#[derive(Drop)]
pub(crate) struct ReadAhead {
    alloc: Global,
    buffer: Vec<u8>,
    at: usize,
    end: usize,
    ghost order: { at ≤ end },
    ghost room: { end ≤ vec_len buffer },
    ghost some: { 1 ≤ vec_len buffer },
}

impl ReadAhead {
    pub(crate) fn make(alloc: Global) -> Result<ReadAhead, AllocError>
        ensures { IfOk result (λ a. part a.at a.end a.buffer.items ≡ []) }
    {
        Ok(ReadAhead {
            alloc,
            buffer: vec![in alloc; 0; LEAST]?,
            at: 0,
            end: 0,
        })
    }

    /// Whether nothing is held.
    pub(crate) fn is_empty(&self) -> bool
        ensures { IsTrue result ↔ (length (part self.now.at self.now.end self.now.buffer.items) ≡ 0) }
    {
        self.at == self.end
    }

    /// Hands on as many bytes as are held and have room.
    pub(crate) fn hand(&mut self, buf: &mut [u8]) -> usize
        ensures count { result ≡ min (length buf.old) (length (part self.old.at self.old.end self.old.buffer.items)) }
        ensures front { take result buf.new ≡ take result (part self.old.at self.old.end self.old.buffer.items) }
        ensures others { drop result buf.new ≡ drop result buf.old }
        ensures rest { part self.new.at self.new.end self.new.buffer.items ≡ drop result (part self.old.at self.old.end self.old.buffer.items) }
    {
        let held = &self.buffer.as_slice()[self.at..self.end];
        let count = held.len().min(buf.len());
        buf[..count].copy_from_slice(&held[..count]);
        self.at += count;
        count
    }

    /// Reads once, where nothing is held, and says how many bytes came.
    pub(crate) fn fill<R: Read>(&mut self, reader: &mut R) -> io::Result<usize>
        requires { length (part self.old.at self.old.end self.old.buffer.items) ≡ 0 }
        ensures count { IfOk result (λ n. length (part self.new.at self.new.end self.new.buffer.items) ≡ n) }
        ensures bytes { OnOk result (Consumes (R.remaining reader.old) (R.remaining reader.new) (part self.new.at self.new.end self.new.buffer.items)) }
        ensures err { OnErr result (part self.new.at self.new.end self.new.buffer.items ≡ []) }
    {
        self.at = 0;
        self.end = 0;
        let count = reader.read(self.buffer.as_mut_slice())?;
        self.end = count;
        Ok(count)
    }

    /// Makes the buffer so long, where there is memory and nothing is held.
    fn resize(&mut self, len: usize)
        requires some { 1 ≤ len }
        requires empty { length (part self.old.at self.old.end self.old.buffer.items) ≡ 0 }
        ensures { part self.new.at self.new.end self.new.buffer.items ≡ [] }
    {
        self.at = 0;
        self.end = 0;
        if let Ok(buffer) = vec![in self.alloc; 0; len] {
            self.buffer = buffer;
        }
    }

    /// Reads more at once from now on, where the last read filled the buffer and all of it was handed on.
    pub(crate) fn grow(&mut self)
        ensures { part self.new.at self.new.end self.new.buffer.items ≡ part self.old.at self.old.end self.old.buffer.items }
    {
        let len = self.buffer.len();
        if self.at == self.end && self.end == len && len < MOST {
            self.resize(len.saturating_mul(STEP).min(MOST));
        }
    }

    /// Gives memory back, where nothing is held.
    pub(crate) fn rest(&mut self)
        ensures { part self.new.at self.new.end self.new.buffer.items ≡ part self.old.at self.old.end self.old.buffer.items }
    {
        if self.at == self.end && self.buffer.len() > LEAST {
            self.resize(LEAST);
        }
    }
}
