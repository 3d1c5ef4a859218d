//! A source over a reader.

ghost use Rattle.std.specs.Prelude.{◌≡◌, ◌≤◌, drop, length, vec_len, None, false, IfOk};

use crate::source::{Source, Took};
use pgw_frames::NoMemory;
use std::alloc::Global;
use std::io::{self, ErrorKind, Read};
use std::marker::Model;

/// Gives what a reader gives, as a file or standard input. It tells no contents. A read that was
/// interrupted, or that found nothing in its time, is idle.
#[derive(Drop)]
pub struct ReaderSource<R: Read + Drop> {
    reader: R,
    buffer: Vec<u8>,
    faults: u64,
    waits: u64,
    ended: bool,
}

impl<R: Read + Drop> Model for ReaderSource<R> {
    ghost use Rattle.std.specs.Prelude.{◌≤◌, vec_len, None};
    ghost use Rattle.proxy_outside.specs.Reading.{Origin};

    ghost Value = { Origin };

    ghost view = { λ s. record { taken = None; left = None; faults = s.faults; waits = s.waits; ended = s.ended; link = 0 } };

    ghost invariant = { λ s. 1 ≤ vec_len s.buffer };
}

/// Copies the first bytes on to the front.
fn copy_front(from: &[u8], count: usize, to: &mut [u8])
    requires there { count ≤ length from.now }
    requires room { count ≤ length to.old }
    ensures others { drop count to.new ≡ drop count to.old }
{
    to[..count].copy_from_slice(&from[..count]);
}

/// Reads at most so many bytes to the front of the buffer.
fn read_some<R: Read>(reader: &mut R, buffer: &mut Vec<u8>, most: usize) -> io::Result<usize>
    ensures room { vec_len buffer.new ≡ vec_len buffer.old }
    ensures within { IfOk result (λ n. n ≤ vec_len buffer.old) }
    ensures count { IfOk result (λ n. n ≤ most) }
{
    let count = buffer.len().min(most);
    reader.read(&mut buffer[..count])
}

/// Whether a read that failed so may be tried again.
fn is_idle(kind: ErrorKind) -> bool {
    matches!(
        kind,
        ErrorKind::Interrupted | ErrorKind::WouldBlock | ErrorKind::TimedOut
    )
}

impl<R: Read + Drop> ReaderSource<R> {
    /// A source that reads at most `room` bytes at once.
    pub fn make(alloc: Global, reader: R, room: usize) -> Result<ReaderSource<R>, NoMemory>
        requires { 1 ≤ room }
        ensures { IfOk result (λ s. s ≡ record { taken = None; left = None; faults = 0; waits = 0; ended = false; link = 0 }) }
    {
        Ok(ReaderSource {
            reader,
            buffer: vec![in alloc; 0; room]?,
            faults: 0,
            waits: 0,
            ended: false,
        })
    }
}

impl<R: Read + Drop> Source for ReaderSource<R> {
    ghost origin = { λ s. s };

    fn read(&mut self, buf: &mut [u8]) -> Took {
        if self.ended {
            return Took::End;
        }
        match read_some(&mut self.reader, &mut self.buffer, buf.len()) {
            Ok(0) => {
                self.ended = true;
                Took::End
            }
            Ok(n) => {
                copy_front(self.buffer.as_slice(), n, buf);
                Took::Got(n)
            }
            Err(e) => {
                if is_idle(e.kind()) {
                    self.waits = self.waits.saturating_add(1);
                    return Took::Idle;
                }
                self.faults = self.faults.saturating_add(1);
                Took::Failed
            }
        }
    }
}
