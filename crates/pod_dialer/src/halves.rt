//! The halves of a link to a session.

ghost use Rattle.std.specs.Prelude.{◌≡◌, ◌≤◌, Some, None, [], false, IfOk};
ghost use Rattle.pod_dialer.specs.Giving.{Gives, Sends, IsUnused};

use crate::pod::Pod;
use pgw_frames::{Bytes, NoMemory};
use proxy_outside::{Gave, Sink, Source, Took};
use session_model::Session;
use std::alloc::Global;
use std::sync::{Arc, Mutex, Wait};

/// The half to which bytes are sent. It tells them.
#[derive(Drop)]
pub struct PodSink<'a, R: Wait, S: Session> {
    rt: &'a R,
    pod: Arc<Mutex<Pod<S>>>,
    store: Arc<Mutex<S::Store>>,
    piece: usize,
    pub(crate) sent: Bytes,
    pub(crate) faults: u64,
    pub(crate) link: u64,
    ghost some: { 1 ≤ piece },
}

/// The half that gives replies. It is idle where none is ready, and tells what it gave.
#[derive(Drop)]
pub struct PodSource<'a, R: Wait, S: Session> {
    rt: &'a R,
    pod: Arc<Mutex<Pod<S>>>,
    piece: usize,
    pub(crate) got: Bytes,
    pub(crate) waits: u64,
    pub(crate) faults: u64,
    pub(crate) link: u64,
    ghost some: { 1 ≤ piece },
}

impl<'a, R: Wait, S: Session> PodSink<'a, R, S> {
    /// All bytes that were sent.
    pub fn contents(&self) -> &[u8]
        ensures { result.now ≡ self.now.sent }
    {
        self.sent.as_slice()
    }

    /// Hands bytes to the session, and says whether there was memory.
    fn pass(&self, bytes: &[u8]) -> bool {
        let mut store = self.store.lock(self.rt);
        let mut pod = self.pod.lock(self.rt);
        pod.take(&mut store, bytes).is_ok()
    }

    /// Sends all of the bytes, or, where there is no memory, none.
    fn send(&mut self, bytes: &[u8]) -> bool
        ensures sent { Sends result self.old.sent self.new.sent bytes.now }
        ensures faults { self.new.faults ≡ self.old.faults }
        ensures link { self.new.link ≡ self.old.link }
    {
        let before = self.sent.len();
        if self.sent.extend(bytes).is_err() {
            return false;
        }
        if self.pass(bytes) {
            return true;
        }
        self.sent.truncate(before);
        false
    }
}

impl<'a, R: Wait, S: Session> Sink for PodSink<'a, R, S> {
    ghost target = { λ k. record { contents = Some k.sent; faults = k.faults; link = k.link } };

    fn write(&mut self, bytes: &[u8]) -> Gave {
        let count = self.piece.min(bytes.len());
        if self.send(&bytes[..count]) {
            return Gave::Took(count);
        }
        self.faults = self.faults.saturating_add(1);
        Gave::Failed
    }
}

impl<'a, R: Wait, S: Session> PodSource<'a, R, S> {
    /// Takes replies that are ready.
    fn take(&mut self, buf: &mut [u8]) -> Result<usize, NoMemory>
        ensures gives { Gives result self.old.got self.new.got buf.old buf.new }
        ensures faults { self.new.faults ≡ self.old.faults }
        ensures waits { self.new.waits ≡ self.old.waits }
        ensures link { self.new.link ≡ self.old.link }
    {
        self.pod.lock(self.rt).give(&mut self.got, buf, self.piece)
    }
}

impl<'a, R: Wait, S: Session> Source for PodSource<'a, R, S> {
    ghost origin = { λ r. record { taken = Some r.got; left = None; faults = r.faults; waits = r.waits; ended = false; link = r.link } };

    fn read(&mut self, buf: &mut [u8]) -> Took {
        match self.take(buf) {
            Ok(0) => {
                self.waits = self.waits.saturating_add(1);
                Took::Idle
            }
            Ok(n) => Took::Got(n),
            Err(_) => {
                self.faults = self.faults.saturating_add(1);
                Took::Failed
            }
        }
    }
}

/// What a dialer gives to each link.
#[derive(Drop)]
pub(crate) struct Making<'a, R: Wait, S: Session> {
    pub alloc: Global,
    pub rt: &'a R,
    pub store: Arc<Mutex<S::Store>>,
    pub piece: usize,
    ghost some: { 1 ≤ piece },
}

impl<'a, R: Wait, S: Session> Making<'a, R, S> {
    /// The halves of the link with this number.
    pub(crate) fn halves(
        &self,
        link: u64,
    ) -> Result<(PodSink<'a, R, S>, PodSource<'a, R, S>), NoMemory>
        ensures tx { IfOk result (λ h. IsUnused h.0.sent h.0.faults h.0.link link) }
        ensures rx { IfOk result (λ h. IsUnused h.1.got h.1.faults h.1.link link × (h.1.waits ≡ 0)) }
    {
        let pod = Arc::new(self.alloc, Mutex::new(Pod::new(self.alloc)))?;
        let tx = PodSink {
            rt: self.rt,
            pod: Arc::try_clone(&pod)?,
            store: Arc::try_clone(&self.store)?,
            piece: self.piece,
            sent: Bytes::new(self.alloc),
            faults: 0,
            link,
        };
        let rx = PodSource {
            rt: self.rt,
            pod,
            piece: self.piece,
            got: Bytes::new(self.alloc),
            waits: 0,
            faults: 0,
            link,
        };
        Ok((tx, rx))
    }
}
