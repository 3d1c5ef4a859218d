//! A link to a pod, with the session at its end.

ghost use Rattle.std.specs.Prelude.{◌≡◌, ◌==◌, ◌&&◌, ◌++◌, ◌≤◌, [], length, min, take, List, ℕ, Bool, Option, Some, OnOk, IfOk, IfSome, drop};
ghost use Rattle.std.specs.List.{AllByRecursion};
ghost use Rattle.pgw_frames.specs.Frames.{front, Whole, IsGood, render};
ghost use Rattle.pgw_messages.specs.Startup.{startup_packet};

use crate::channel::{Channel, whole};
use crate::startup::Startup;
use pgw_frames::{ByteQueue, Frame, Frames, NoMemory};
use session_model::{PodSession, Session, SharedStore};
use std::alloc::Global;

/// A link to a pod.
#[derive(Drop)]
pub(crate) struct Link<S: Session> {
    /// Whether a startup packet was sent.
    startup: bool,
    /// How many bytes of it did not reach the pod yet.
    unopened: usize,
    /// What is sent to the pod behind the startup packet.
    pod: Channel,
    /// What the pod sent and nobody read.
    replies: ByteQueue,
    /// None until the pod took the startup packet.
    session: Option<PodSession<S>>,
    cut: bool,
}

/// Adds these messages at the end.
fn write_frames(queue: &mut ByteQueue, fs: &Frames) -> Result<(), NoMemory>
    requires { AllByRecursion IsGood fs.now }
    ensures { OnOk result (queue.new ≡ queue.old ++ render fs.now) }
{
    let items = fs.as_slice();
    for f in items {
        queue.write_frame(f)?;
    }
    Ok(())
}

impl<S: Session> Link<S> {
    ghost use Rattle.forwarder_world.specs.Link.{Link as model, dialed, opened, opens, delivers, sends, begins, cuts, next_of_got};
    ghost use Rattle.forwarder_core.specs.LinkStands.{LinkStands, LinkLeads, IsUnsent, unless_cut, hearing, turn, taken_by};

    /// A link that was just dialed. It takes no memory.
    pub fn dialed(alloc: Global) -> Link<S>
        ensures { LinkStands S.state result dialed [] }
    {
        Link {
            startup: false,
            unopened: 0,
            pod: Channel::new(alloc),
            replies: ByteQueue::new(alloc),
            session: None,
            cut: false,
        }
    }

    /// A link whose pod has taken the startup packet, and greets.
    pub fn opened(alloc: Global, startup: &Startup) -> Result<Link<S>, NoMemory>
        ensures { IfOk result (λ l. LinkStands S.state l (opened S.kind startup.now (startup_packet startup.now)) []) }
    {
        let (session, greeting) = PodSession::begin(alloc, startup.params())?;
        let mut replies = ByteQueue::new(alloc);
        write_frames(&mut replies, &greeting)?;
        Ok(Link {
            startup: true,
            unopened: 0,
            pod: Channel::new(alloc),
            replies,
            session: Some(session),
            cut: false,
        })
    }

    pub fn is_cut(&self) -> bool
        ensures { (m : model S.State) (held : List ℕ) → LinkStands S.state self.now m held → result ≡ m.cut }
    {
        self.cut
    }

    /// Whether it is cut and all that the pod sent was read.
    pub fn has_ended(&self) -> bool
        ensures { (m : model S.State) (held : List ℕ) → LinkStands S.state self.now m held → result ≡ (m.cut && (m.back == length m.got)) }
    {
        self.cut && self.replies.is_empty()
    }

    /// Sends the pod a message.
    pub fn send(&mut self, f: &Frame) -> Result<(), NoMemory>
        requires { IsGood f.now }
        ensures { OnOk result (LinkLeads S.state self.old self.new (λ m. sends m f.now)) }
    {
        self.pod.give_frame(f)?;
        Ok(())
    }

    /// Sends the pod the bytes of messages.
    pub fn send_bytes(&mut self, bytes: &[u8]) -> Result<(), NoMemory>
        ensures { OnOk result (LinkLeads S.state self.old self.new (λ m. record m { sent = m.sent ++ bytes.now })) }
    {
        self.pod.give(bytes)?;
        Ok(())
    }

    /// Sends the startup packet. Nothing was sent before it.
    pub fn send_startup(&mut self, packet: &[u8])
        ensures { (m : model S.State) (held : List ℕ) → IsUnsent m → LinkStands S.state self.old m held → LinkStands S.state self.new (opens m packet.now) held }
    {
        self.startup = !packet.is_empty();
        self.unopened = packet.len();
    }

    /// Lets up to so many further bytes reach the pod.
    pub fn deliver(&mut self, count: usize) -> Result<(), NoMemory>
        ensures { OnOk result (LinkLeads S.state self.old self.new (unless_cut (λ m. delivers m count))) }
    {
        if self.cut {
            return Ok(());
        }
        let first = count.min(self.unopened);
        let _come = self.pod.advance(count - first)?;
        self.unopened -= first;
        Ok(())
    }

    /// The pod takes the next message that was delivered whole, and replies.
    pub fn hear(&mut self, alloc: Global, store: &mut SharedStore<S::Store>) -> Result<(), NoMemory>
        ensures link { OnOk result ((m : model S.State) (held : List ℕ) (t : S.Store.State) → LinkStands S.state self.old m held → S.Store.stands_for store.old t → LinkStands S.state self.new (hearing S.kind S.Store.rules m t).0 held) }
        ensures store { OnOk result ((m : model S.State) (held : List ℕ) (t : S.Store.State) → LinkStands S.state self.old m held → S.Store.stands_for store.old t → S.Store.stands_for store.new (hearing S.kind S.Store.rules m t).1) }
    {
        let Some(session) = &mut self.session else {
            return Ok(());
        };
        match self.pod.next()? {
            Some(f) => {
                let replies = session.hear(alloc, store, &f)?;
                write_frames(&mut self.replies, &replies)?;
                Ok(())
            }
            None => Ok(()),
        }
    }

    /// The pod takes the startup packet, where it was delivered whole, and greets.
    pub fn begin(&mut self, alloc: Global, startup: &Startup) -> Result<(), NoMemory>
        ensures { OnOk result (LinkLeads S.state self.old self.new (λ m. begins S.kind startup.now m)) }
    {
        if !self.startup || self.unopened > 0 {
            return Ok(());
        }
        let (session, greeting) = PodSession::begin(alloc, startup.params())?;
        write_frames(&mut self.replies, &greeting)?;
        self.session = Some(session);
        Ok(())
    }

    /// A pod that is not cut off takes the startup packet, or behind it the next message.
    pub fn take_turn(
        &mut self,
        alloc: Global,
        startup: &Startup,
        store: &mut SharedStore<S::Store>,
    ) -> Result<(), NoMemory>
        ensures link { OnOk result ((m : model S.State) (held : List ℕ) (t : S.Store.State) → LinkStands S.state self.old m held → S.Store.stands_for store.old t → LinkStands S.state self.new (turn S.kind S.Store.rules startup.now m t).0 held) }
        ensures store { OnOk result ((m : model S.State) (held : List ℕ) (t : S.Store.State) → LinkStands S.state self.old m held → S.Store.stands_for store.old t → S.Store.stands_for store.new (turn S.kind S.Store.rules startup.now m t).1) }
    {
        if self.cut {
            return Ok(());
        }
        if self.session.is_none() {
            self.begin(alloc, startup)?;
            return Ok(());
        }
        self.hear(alloc, store)?;
        Ok(())
    }

    /// How many bytes of up to so many the pod sent and nobody read.
    pub fn unread_len(&self, count: usize) -> usize
        ensures { result ≡ min count (length self.now.replies) }
    {
        count.min(self.replies.len())
    }

    /// The first of the bytes that the pod sent and nobody read.
    pub fn unread(&self, count: usize) -> &[u8]
        requires { count ≤ length self.now.replies }
        ensures { result.now ≡ take count self.now.replies }
    {
        self.replies.as_slice().split_at(count).0
    }

    /// So many of them were read.
    pub fn read(&mut self, count: usize)
        requires { count ≤ length self.old.replies }
        ensures { self.new ≡ record self.old { replies = drop count self.old.replies } }
    {
        self.replies.drop_front(count);
    }

    /// Takes the next message that the pod sent whole, and no byte behind it.
    pub fn take_frame(&mut self) -> Result<Option<Frame>, NoMemory>
        ensures next { IfOk result (λ r. (m : model S.State) → LinkStands S.state self.old m [] → r ≡ next_of_got m) }
        ensures link { IfOk result (λ r. (m : model S.State) → LinkStands S.state self.old m [] → LinkStands S.state self.new (taken_by m r) []) }
    {
        let next = self.replies.next_frame()?;
        Ok(whole(next))
    }

    /// Cuts the link, with at most so many bytes still to be read.
    pub fn cut(&mut self, count: usize)
        ensures { LinkLeads S.state self.old self.new (unless_cut (λ m. cuts m count)) }
    {
        if self.cut {
            return;
        }
        self.replies.truncate(count);
        self.cut = true;
    }
}
