//! Bytes that were written and not sent yet.

ghost use Rattle.std.specs.Prelude.{◌≡◌, ◌↔◌, ◌≤◌, ◌<◌, [], length, vec_len, max, true, false, IsTrue};
ghost use Rattle.std.specs.Io.KnownBytes.{Appends};
ghost use Rattle.tcp_links.specs.Gathering.{all_bytes};

use std::alloc::Global;
use std::io::Write;

/// Room that is kept while nothing is written, in bytes.
const KEPT: usize = 1024;

/// A writer, and bytes for it that were not sent yet. Once a send has failed, nothing more is sent.
#[derive(Drop)]
pub(crate) struct Gather<W: Write + Drop> {
    writer: W,
    bytes: Vec<u8>,
    has_failed: bool,
}

impl<W: Write + Drop> Gather<W> {
    pub(crate) fn new(alloc: Global, writer: W) -> Gather<W>
        ensures writer { result.writer ≡ writer }
        ensures bytes { result.bytes.items ≡ [] }
        ensures failed { result.has_failed ≡ false }
    {
        Gather {
            writer,
            bytes: Vec::new(alloc),
            has_failed: false,
        }
    }

    /// Sends what is held. False says that a send has failed, now or before.
    pub(crate) fn flush(&mut self) -> bool
        ensures ok { IsTrue result → Appends (W.contents self.old.writer) (W.contents self.new.writer) self.old.bytes.items }
        ensures empty { self.new.bytes.items ≡ [] }
        ensures well { IsTrue result ↔ (self.new.has_failed ≡ false) }
        ensures still { IsTrue self.old.has_failed → IsTrue self.new.has_failed }
    {
        if !self.has_failed && !self.bytes.is_empty() {
            self.has_failed = self.writer.write_all(self.bytes.as_slice()).is_err();
        }
        self.bytes.clear();
        !self.has_failed
    }

    /// Sends these bytes, where nothing is held.
    fn send(&mut self, bytes: &[u8]) -> bool
        requires empty { self.old.bytes.items ≡ [] }
        ensures ok { IsTrue result → Appends (W.contents self.old.writer) (W.contents self.new.writer) bytes.now }
        ensures empty { self.new.bytes.items ≡ [] }
        ensures well { IsTrue result ↔ (self.new.has_failed ≡ false) }
    {
        self.has_failed = self.writer.write_all(bytes).is_err();
        !self.has_failed
    }

    /// Sends what is held, and then takes these bytes.
    #[cold]
    #[inline(never)]
    fn push_through(&mut self, bytes: &[u8], limit: usize) -> bool
        ensures ok { IsTrue result → Appends (all_bytes (W.contents self.old.writer) self.old.bytes.items) (all_bytes (W.contents self.new.writer) self.new.bytes.items) bytes.now }
        ensures within { vec_len self.new.bytes ≤ limit }
        ensures well { IsTrue result ↔ (self.new.has_failed ≡ false) }
        ensures still { IsTrue self.old.has_failed → IsTrue self.new.has_failed }
    {
        if !self.flush() {
            return false;
        }
        if bytes.len() < limit && self.bytes.extend_from_slice(bytes).is_ok() {
            return true;
        }
        self.send(bytes)
    }

    /// Takes all of these bytes behind the others, and sends where more than `limit` would be held. False says that a
    /// send has failed, now or before.
    #[inline]
    pub(crate) fn push(&mut self, bytes: &[u8], limit: usize) -> bool
        ensures ok { IsTrue result → Appends (all_bytes (W.contents self.old.writer) self.old.bytes.items) (all_bytes (W.contents self.new.writer) self.new.bytes.items) bytes.now }
        ensures within { vec_len self.new.bytes ≤ max limit (vec_len self.old.bytes) }
        ensures well { IsTrue result ↔ (self.new.has_failed ≡ false) }
        ensures still { IsTrue self.old.has_failed → IsTrue self.new.has_failed }
    {
        if self.has_failed {
            return false;
        }
        if bytes.len() <= limit.saturating_sub(self.bytes.len())
            && self.bytes.extend_from_slice(bytes).is_ok()
        {
            return true;
        }
        self.push_through(bytes, limit)
    }

    /// Whether anything is held.
    pub(crate) fn has_bytes(&self) -> bool
        ensures { IsTrue result ↔ (0 < vec_len self.now.bytes) }
    {
        !self.bytes.is_empty()
    }

    /// Gives memory back, where nothing is held.
    pub(crate) fn rest(&mut self, alloc: Global)
        ensures writer { self.new.writer ≡ self.old.writer }
        ensures bytes { self.new.bytes.items ≡ self.old.bytes.items }
        ensures failed { self.new.has_failed ≡ self.old.has_failed }
    {
        if self.bytes.is_empty() && self.bytes.capacity() > KEPT {
            self.bytes = Vec::new(alloc);
        }
    }
}
