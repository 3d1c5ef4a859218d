//! A source that waits for what a sink took.

ghost use Rattle.std.specs.Prelude.{◌≡◌, ◌≤◌, ◌<◌, drop, length, vec_len, IfOk, IsTrue, [], Some};
ghost use Rattle.memory_links.specs.Gates.{gated_origin, watched_target};

use pgw_frames::{Bytes, NoMemory};
use proxy_outside::{Gave, MemSink, Sink, Source, Took};
use std::alloc::Global;
use std::sync::Arc;
use std::sync::atomic::{AtomicU64, Ordering};

/// Bytes that are given once the sink has taken `after` bytes.
#[derive(Drop)]
pub struct GatedPiece {
    pub after: u64,
    pub bytes: Bytes,
}

/// Gives its pieces in turn, each once the sink has taken enough, and is idle until then. No read gives bytes of
/// two pieces. It tells no contents.
#[derive(Drop)]
pub struct GatedSource {
    taken: Arc<AtomicU64>,
    /// The last one is given first.
    pieces: Vec<GatedPiece>,
    at: usize,
    waits: u64,
    ended: bool,
}

/// A sink in memory that tells the source how many bytes it took.
#[derive(Drop)]
pub struct WatchedSink {
    taken: Arc<AtomicU64>,
    sink: MemSink,
}

impl WatchedSink {
    /// All bytes that were taken.
    pub fn contents(&self) -> &[u8] {
        self.sink.contents()
    }
}

/// A source of these pieces, and the sink that they wait for, whose listed calls, counted from 1, fail.
pub fn gated(
    alloc: Global,
    pieces: Vec<GatedPiece>,
    failing: &[u64],
) -> Result<(GatedSource, WatchedSink), NoMemory>
    ensures sink { IfOk result (λ r. watched_target r.1 ≡ record { contents = Some []; faults = 0; link = 0 }) }
{
    let mut pieces = pieces;
    pieces.as_mut_slice().reverse();
    let taken = Arc::new(alloc, AtomicU64::new(0))?;
    let sink = WatchedSink {
        taken: Arc::try_clone(&taken)?,
        sink: MemSink::make(alloc, usize::MAX, failing)?,
    };
    let source = GatedSource {
        taken,
        pieces,
        at: 0,
        waits: 0,
        ended: false,
    };
    Ok((source, sink))
}

/// Copies some of the bytes from a place on to the front, and says how many.
pub(crate) fn copy_some(from: &[u8], at: usize, to: &mut [u8]) -> usize
    requires { 0 < length to.old }
    ensures some { at < length from.now → 1 ≤ result }
    ensures within { result ≤ length to.old }
    ensures others { drop result to.new ≡ drop result to.old }
{
    if at > from.len() {
        return 0;
    }
    let count = to.len().min(from.len() - at);
    to[..count].copy_from_slice(&from[at..at + count]);
    count
}

impl GatedSource {
    /// Whether the piece that is next was given whole.
    fn is_given(&self) -> bool
        ensures { IsTrue result → 0 < vec_len self.now.pieces }
    {
        match self.pieces.as_slice().last() {
            Some(piece) => piece.bytes.len() <= self.at,
            None => false,
        }
    }

    /// Lets go of the pieces that were given whole.
    fn skip(&mut self)
        ensures { gated_origin self.new ≡ gated_origin self.old }
    {
        while self.is_given() {
            let _piece = self.pieces.pop();
            self.at = 0;
        }
    }
}

impl Source for GatedSource {
    ghost origin = { gated_origin };

    fn read(&mut self, buf: &mut [u8]) -> Took {
        if self.ended {
            return Took::End;
        }
        self.skip();
        let Some(piece) = self.pieces.as_slice().last() else {
            self.ended = true;
            return Took::End;
        };
        if piece.after <= self.taken.load(Ordering::SeqCst) {
            let count = copy_some(piece.bytes.as_slice(), self.at, buf);
            if count > 0 {
                self.at = self.at.saturating_add(count);
                return Took::Got(count);
            }
        }
        self.waits = self.waits.saturating_add(1);
        Took::Idle
    }
}

impl Sink for WatchedSink {
    ghost target = { watched_target };

    fn write(&mut self, bytes: &[u8]) -> Gave {
        let gave = self.sink.write(bytes);
        if let Gave::Took(n) = gave {
            self.taken.fetch_add(n as u64, Ordering::SeqCst);
        }
        gave
    }
}
