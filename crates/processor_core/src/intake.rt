//! Bytes that are read straight into the memory in which they are cut.

ghost use Rattle.std.specs.Prelude.{◌≡◌, ◌≤◌, ◌+◌, ℕ, List, [], ◌++◌, length, take, vec_len, OnOk, OnErr, IfOk};
ghost use Rattle.pgw_frames.specs.Frames.{front};
ghost use Rattle.pgw_frames.specs.Cutting.{Answers, Advances, HasGoodFrame, HasFrame, Shows};
ghost use Rattle.processor_core.specs.Intakes.{ReadsSome, ReadsBehind, count_of};

use pgw_frames::{Ahead, Cutter, Next, NoMemory, ahead_of, next_of};
use proxy_outside::{Source, Took};
use std::alloc::Global;
use std::marker::Model;

/// The most bytes that are read at once.
const PIECE: usize = 8192;

/// What is held of a stream, and behind it memory that can be read into. Contracts see what is held. Over its
/// life each byte is moved a bounded number of times, and memory is cleared once, when it is first wanted.
#[derive(Debug, Drop)]
pub(crate) struct Intake {
    bytes: Vec<u8>,
    start: usize,
    end: usize,
}

impl Model for Intake {
    ghost use Rattle.std.specs.Prelude.{List, ℕ, drop, take, ◌≤◌, vec_len};

    ghost Value = { List ℕ };

    ghost view = { λ i. drop i.start (take i.end i.bytes.items) };

    ghost invariant = { λ i. (i.start ≤ i.end) × (i.end ≤ vec_len i.bytes) };
}

/// Makes room for a read behind so many bytes, which stay.
fn make_room(bytes: &mut Vec<u8>, end: usize) -> Result<(), NoMemory>
    requires { end ≤ vec_len bytes.old }
    ensures room { OnOk result (end + 8192 ≤ vec_len bytes.new) }
    ensures within { end ≤ vec_len bytes.new }
    ensures kept { take end bytes.new.items ≡ take end bytes.old.items }
{
    let Some(wanted) = end.checked_add(PIECE) else {
        return Err(NoMemory);
    };
    if bytes.len() < wanted {
        bytes.resize(wanted, 0)?;
    }
    Ok(())
}

/// Reads behind so many bytes, which stay.
fn read_behind<S: Source>(bytes: &mut [u8], end: usize, source: &mut S) -> Took
    requires { end + 8192 ≤ length bytes.old }
    ensures { ReadsBehind result (S.origin source.old) (S.origin source.new) end bytes.old bytes.new }
{
    source.read(&mut bytes[end..end + PIECE])
}

/// How many bytes a read took.
fn count_of(took: Took) -> usize
    ensures { result ≡ count_of took }
{
    match took {
        Took::Got(count) => count,
        Took::End | Took::Idle | Took::Failed => 0,
    }
}

impl Intake {
    /// One that holds nothing. It takes no memory.
    pub fn new(alloc: Global) -> Intake
        ensures { result ≡ [] }
    {
        Intake {
            bytes: Vec::new(alloc),
            start: 0,
            end: 0,
        }
    }

    /// One that holds what a cutter holds. It takes no memory.
    pub fn behind(cutter: Cutter) -> Intake
        ensures { result ≡ cutter }
    {
        let bytes = cutter.into_bytes().into_vec();
        let end = bytes.len();
        Intake {
            bytes,
            start: 0,
            end,
        }
    }

    /// Moves what is held to the front, once more than half of what came was dropped.
    fn move_up(&mut self)
        ensures { self.new ≡ self.old }
    {
        if self.start > self.end / 2 {
            self.bytes
                .as_mut_slice()
                .copy_within(self.start..self.end, 0);
            self.end -= self.start;
            self.start = 0;
        }
    }

    /// Appends to what is held. An `Err` changes nothing.
    pub fn feed(&mut self, piece: &[u8]) -> Result<(), NoMemory>
        ensures ok { OnOk result (self.new ≡ self.old ++ piece.now) }
        ensures err { OnErr result (self.new ≡ self.old) }
    {
        self.move_up();
        self.bytes.truncate(self.end);
        self.bytes.extend_from_slice(piece)?;
        self.end = self.bytes.len();
        Ok(())
    }

    /// Reads once, at most 8,192 bytes, and appends them to what is held. A want of memory is answered before
    /// anything is read.
    pub fn read<S: Source>(&mut self, source: &mut S) -> Result<Took, NoMemory>
        ensures ok { IfOk result (λ t. (bytes : List ℕ) × ReadsSome t (S.origin source.old) (S.origin source.new) bytes × (self.new ≡ self.old ++ bytes)) }
        ensures err { OnErr result (self.new ≡ self.old) }
        ensures unread { OnErr result (source.new ≡ source.old) }
    {
        self.move_up();
        make_room(&mut self.bytes, self.end)?;
        let took = read_behind(self.bytes.as_mut_slice(), self.end, source);
        self.end += count_of(took);
        Ok(took)
    }

    /// Takes off the frame at the front, where a whole one stands there. Only a frame takes memory.
    pub fn next(&mut self) -> Result<Next, NoMemory>
        ensures ok { IfOk result (λ r. Answers r self.old self.new) }
        ensures good { IfOk result HasGoodFrame }
        ensures no_memory { OnErr result (HasFrame (front self.old)) }
        ensures err { OnErr result (self.new ≡ self.old) }
    {
        let (next, count) = next_of(*self.bytes.allocator(), self.as_slice())?;
        self.start += count;
        Ok(next)
    }

    /// Lends the frame at the front, where a whole one stands there. It takes no memory.
    pub fn ahead(&self) -> Ahead<'_>
        ensures { Shows result self.now }
    {
        ahead_of(self.as_slice())
    }

    /// Drops the frame at the front, where a whole one stands there, and says its type. It takes no memory.
    pub fn advance(&mut self) -> Option<u8>
        ensures { Advances result self.old self.new }
    {
        match self.ahead() {
            Ahead::Frame(bytes) => {
                let tag = bytes[0];
                let count = bytes.len();
                self.start += count;
                Some(tag)
            }
            Ahead::Need | Ahead::BadLength(_) => None,
        }
    }

    /// How many bytes are held.
    pub fn held(&self) -> usize
        ensures { result ≡ length self.now }
    {
        self.end - self.start
    }

    fn as_slice(&self) -> &[u8]
        ensures { result.now ≡ self.now }
    {
        let (came, _spare) = self.bytes.as_slice().split_at(self.end);
        came.split_at(self.start).1
    }
}
