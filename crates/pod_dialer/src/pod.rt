//! A session at the other end of a link.

ghost use Rattle.std.specs.Prelude.{◌≡◌, ◌≤◌, ◌+◌, ◌++◌, length, IfOk, OnOk};
ghost use Rattle.pgw_frames.specs.Frames.{render};
ghost use Rattle.pod_dialer.specs.Giving.{Gives, Tells};

use pgw_frames::{ByteQueue, Bytes, Cutter, Frame, Frames, MOST_BODY, Next, NoMemory};
use pgw_messages::{MsgFault, Params, read_params};
use session_model::{Session, answer_of};
use std::alloc::Global;

/// The longest startup packet, in bytes.
const MOST_PACKET: usize = 11_900_000;

/// The code of a StartupMessage.
const VERSION: u32 = 196_608;

/// What the first bytes are.
#[derive(Drop)]
enum Opening {
    /// The front of a packet.
    Part,
    /// A StartupMessage of so many bytes.
    Startup(Params, usize),
    /// Another packet, or one that is too long.
    Other,
}

/// A session, and those of its replies that were not given yet.
#[derive(Drop)]
pub(crate) struct Pod<S: Session> {
    alloc: Global,
    /// The bytes that came before there was a session.
    first: Bytes,
    session: Option<S>,
    cutter: Cutter,
    /// It takes nothing in any more.
    is_deaf: bool,
    replies: ByteQueue,
}

/// The big-endian number of these four bytes.
fn word_at(bytes: &[u8], at: usize) -> u32
    requires { at + 4 ≤ length bytes.now }
{
    u32::from_be_bytes([bytes[at], bytes[at + 1], bytes[at + 2], bytes[at + 3]])
}

/// What these bytes, which came first, begin.
fn opening_of(alloc: Global, bytes: &[u8]) -> Result<Opening, NoMemory> {
    if bytes.len() < 8 {
        return Ok(Opening::Part);
    }
    let len = word_at(bytes, 0) as usize;
    if len < 8 || len > MOST_PACKET || word_at(bytes, 4) != VERSION {
        return Ok(Opening::Other);
    }
    if bytes.len() < len {
        return Ok(Opening::Part);
    }
    match read_params(alloc, &bytes[8..len]) {
        Ok(params) => Ok(Opening::Startup(params, len)),
        Err(MsgFault::NoMemory) => Err(NoMemory),
        Err(_) => Ok(Opening::Other),
    }
}

/// Appends messages. One that is too long for a message is an error.
fn write_all(replies: &mut ByteQueue, messages: &Frames) -> Result<(), NoMemory>
    ensures { OnOk result (replies.new ≡ replies.old ++ render messages.now) }
{
    for f in messages.as_slice() {
        if f.body.len() > MOST_BODY {
            return Err(NoMemory);
        }
        replies.write_frame(f)?;
    }
    Ok(())
}

/// Tells the session a message, and appends its replies.
fn tell<S: Session>(
    alloc: Global,
    session: &mut S,
    store: &mut S::Store,
    f: &Frame,
    replies: &mut ByteQueue,
) -> Result<(), NoMemory>
    ensures { OnOk result ((t : S.Store.State) → S.Store.stands_for store.old t → Tells S.kind S.Store.rules (S.state session.old) t f.now (S.state session.new) (S.Store.stands_for store.new) replies.old replies.new) }
{
    let command = session.ask(alloc, f)?;
    let answer = answer_of(store, &command)?;
    let messages = session.tell(alloc, f, answer.as_ref())?;
    write_all(replies, &messages)?;
    Ok(())
}

/// Tells the session the whole messages that are held. False says that no message begins there, now and for good.
fn tell_held<S: Session>(
    alloc: Global,
    session: &mut S,
    cutter: &mut Cutter,
    store: &mut S::Store,
    replies: &mut ByteQueue,
) -> Result<bool, NoMemory> {
    for _ in 0..cutter.held() {
        match cutter.next()? {
            Next::Frame(f) => tell(alloc, session, store, &f, replies)?,
            Next::Need => return Ok(true),
            Next::BadLength(_) => return Ok(false),
        }
    }
    Ok(true)
}

/// Begins a session, and appends its greeting.
fn begin<S: Session>(alloc: Global, params: &Params, replies: &mut ByteQueue) -> Result<S, NoMemory>
    ensures state { IfOk result (λ s. S.state s ≡ (S.kind.begins params.now).0) }
    ensures greets { OnOk result (replies.new ≡ replies.old ++ render (S.kind.begins params.now).1) }
{
    let (session, greeting) = S::begin(alloc, params)?;
    write_all(replies, &greeting)?;
    Ok(session)
}

impl<S: Session> Pod<S> {
    /// A pod that was sent nothing yet.
    pub(crate) fn new(alloc: Global) -> Pod<S> {
        Pod {
            alloc,
            first: Bytes::new(alloc),
            session: None,
            cutter: Cutter::new(alloc),
            is_deaf: false,
            replies: ByteQueue::new(alloc),
        }
    }

    /// Begins the session, once a StartupMessage came whole.
    fn open(&mut self) -> Result<(), NoMemory> {
        match opening_of(self.alloc, self.first.as_slice())? {
            Opening::Part => {}
            Opening::Other => self.is_deaf = true,
            Opening::Startup(params, len) => {
                let held = self.first.as_slice();
                self.cutter.feed(held.split_at(len.min(held.len())).1)?;
                self.session = Some(begin(self.alloc, &params, &mut self.replies)?);
            }
        }
        Ok(())
    }

    /// Tells the session, where there is one, the whole messages that came.
    fn serve(&mut self, store: &mut S::Store) -> Result<(), NoMemory> {
        if let Some(session) = &mut self.session {
            if !tell_held(
                self.alloc,
                session,
                &mut self.cutter,
                store,
                &mut self.replies,
            )? {
                self.is_deaf = true;
            }
        }
        Ok(())
    }

    fn hear(&mut self, store: &mut S::Store, bytes: &[u8]) -> Result<(), NoMemory> {
        if self.session.is_some() {
            self.cutter.feed(bytes)?;
        } else {
            self.first.extend(bytes)?;
            self.open()?;
        }
        self.serve(store)
    }

    /// Takes bytes in, and says whether there was memory. After an `Err` it takes nothing in any more.
    pub(crate) fn take(&mut self, store: &mut S::Store, bytes: &[u8]) -> Result<(), NoMemory> {
        if self.is_deaf {
            return Ok(());
        }
        let heard = self.hear(store, bytes);
        if heard.is_err() {
            self.is_deaf = true;
        }
        heard
    }

    /// Gives replies, as many bytes as there are and as fit in, but at most so many, and appends them to the others
    /// that were given. An `Err` gives none.
    pub(crate) fn give(
        &mut self,
        got: &mut Bytes,
        buf: &mut [u8],
        most: usize,
    ) -> Result<usize, NoMemory>
        ensures { Gives result got.old got.new buf.old buf.new }
    {
        let count = self.replies.len().min(buf.len()).min(most);
        got.extend(&self.replies.as_slice()[..count])?;
        buf[..count].copy_from_slice(&self.replies.as_slice()[..count]);
        self.replies.drop_front(count);
        Ok(count)
    }
}
