//! A source and a sink that wait for each other, once.

ghost use Rattle.std.specs.Prelude.{◌≡◌, ◌≤◌, ◌<◌, drop, length, IfOk, [], Some};
ghost use Rattle.memory_links.specs.Gates.{meet_origin, meet_target};

use crate::gates::copy_some;
use pgw_frames::{Bytes, NoMemory};
use proxy_outside::{Gave, Sink, Source, Took};
use std::alloc::Global;
use std::sync::Arc;
use std::sync::atomic::{AtomicBool, Ordering};

/// Who has come to the meeting.
#[derive(Drop)]
struct Flags {
    source: AtomicBool,
    sink: AtomicBool,
}

/// Raises a flag, and looks so often whether the other is raised.
fn meet(mine: &AtomicBool, other: &AtomicBool, turns: u64) -> bool {
    mine.store(true, Ordering::SeqCst);
    for _ in 0..turns {
        if other.load(Ordering::SeqCst) {
            return true;
        }
    }
    false
}

/// Gives the first bytes, and then, once it has met, the others. No read gives bytes of both. It tells no contents.
#[derive(Drop)]
pub struct MeetSource {
    flags: Arc<Flags>,
    first: Bytes,
    then: Bytes,
    at: usize,
    has_met: bool,
    turns: u64,
    faults: u64,
    ended: bool,
}

/// Takes all that it is given; it meets before the first write where it holds enough.
#[derive(Drop)]
pub struct MeetSink {
    flags: Arc<Flags>,
    bytes: Bytes,
    after: usize,
    has_met: bool,
    turns: u64,
    faults: u64,
}

impl MeetSink {
    /// All bytes that were taken.
    pub fn contents(&self) -> &[u8] {
        self.bytes.as_slice()
    }
}

/// A source and a sink. The source meets at its first read after the bytes `first` were taken, the sink at the
/// first write before which it holds at least `after` bytes. Each raises its flag and then looks at most `turns`
/// times whether the other's is raised; where it isn't, the call fails.
pub fn meeting(
    alloc: Global,
    first: &[u8],
    then: &[u8],
    after: usize,
    turns: u64,
) -> Result<(MeetSource, MeetSink), NoMemory>
    ensures sink { IfOk result (λ r. meet_target r.1 ≡ record { contents = Some []; faults = 0; link = 0 }) }
{
    let flags = Arc::new(
        alloc,
        Flags {
            source: AtomicBool::new(false),
            sink: AtomicBool::new(false),
        },
    )?;
    let sink = MeetSink {
        flags: Arc::try_clone(&flags)?,
        bytes: Bytes::new(alloc),
        after,
        has_met: false,
        turns,
        faults: 0,
    };
    let source = MeetSource {
        flags,
        first: Bytes::of(alloc, first)?,
        then: Bytes::of(alloc, then)?,
        at: 0,
        has_met: false,
        turns,
        faults: 0,
        ended: false,
    };
    Ok((source, sink))
}

impl MeetSource {
    /// Some of the bytes that are given now.
    fn give(&mut self, buf: &mut [u8]) -> usize
        requires { 0 < length buf.old }
        ensures within { result ≤ length buf.old }
        ensures others { drop result buf.new ≡ drop result buf.old }
        ensures same { meet_origin self.new ≡ meet_origin self.old }
    {
        let bytes = if self.has_met {
            self.then.as_slice()
        } else {
            self.first.as_slice()
        };
        let count = copy_some(bytes, self.at, buf);
        self.at = self.at.saturating_add(count);
        count
    }
}

impl Source for MeetSource {
    ghost origin = { meet_origin };

    fn read(&mut self, buf: &mut [u8]) -> Took {
        if self.ended {
            return Took::End;
        }
        let count = self.give(buf);
        if count > 0 {
            return Took::Got(count);
        }
        if self.has_met {
            self.ended = true;
            return Took::End;
        }
        self.has_met = true;
        self.at = 0;
        if !meet(&self.flags.source, &self.flags.sink, self.turns) {
            self.faults = self.faults.saturating_add(1);
            return Took::Failed;
        }
        let count = self.give(buf);
        if count > 0 {
            return Took::Got(count);
        }
        self.ended = true;
        Took::End
    }
}

impl MeetSink {
    /// Meets where it is time, and says whether all went well.
    fn is_met(&mut self) -> bool
        ensures { meet_target self.new ≡ meet_target self.old }
    {
        if self.has_met || self.bytes.len() < self.after {
            return true;
        }
        self.has_met = true;
        meet(&self.flags.sink, &self.flags.source, self.turns)
    }
}

impl Sink for MeetSink {
    ghost target = { meet_target };

    fn write(&mut self, bytes: &[u8]) -> Gave {
        if !self.is_met() {
            self.faults = self.faults.saturating_add(1);
            return Gave::Failed;
        }
        match self.bytes.extend(bytes) {
            Ok(()) => Gave::Took(bytes.len()),
            Err(_) => {
                self.faults = self.faults.saturating_add(1);
                Gave::Failed
            }
        }
    }
}
