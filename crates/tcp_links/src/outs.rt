//! What is gathered for the sockets of a connection.

use crate::gather::Gather;
use crate::stream::Stream;
use std::alloc::Global;
use std::sync::{Mutex, Wait};

/// A socket's place, where nothing stands while there is no link.
type Slot = Mutex<Option<Gather<Stream>>>;

/// A socket of a connection. A session that moves has two pods for a while.
#[derive(Clone, Copy, Debug, PartialEq, Eq)]
pub(crate) enum Socket {
    Client,
    PodA,
    PodB,
}

/// What is gathered for the client and for up to two pods.
#[derive(Drop)]
pub(crate) struct Outs {
    alloc: Global,
    client: Slot,
    pod_a: Slot,
    pod_b: Slot,
}

/// Sends what a slot holds, and says whether there was anything.
fn flush_slot(slot: &Slot) -> bool {
    if let Some(mut held) = slot.try_lock() {
        if let Some(gather) = &mut *held {
            if gather.has_bytes() {
                let _ = gather.flush();
                return true;
            }
        }
    }
    false
}

fn rest_slot(slot: &Slot, alloc: Global) {
    if let Some(mut held) = slot.try_lock() {
        if let Some(gather) = &mut *held {
            gather.rest(alloc);
        }
    }
}

impl Outs {
    pub(crate) fn new(alloc: Global, client: Stream) -> Outs {
        Outs {
            alloc,
            client: Mutex::new(Some(Gather::new(alloc, client))),
            pod_a: Mutex::new(None),
            pod_b: Mutex::new(None),
        }
    }

    fn slot(&self, socket: Socket) -> &Slot {
        match socket {
            Socket::Client => &self.client,
            Socket::PodA => &self.pod_a,
            Socket::PodB => &self.pod_b,
        }
    }

    /// Takes bytes for a socket. False says that it has failed.
    pub(crate) fn push<R: Wait>(&self, rt: &R, socket: Socket, bytes: &[u8], limit: usize) -> bool {
        let mut held = self.slot(socket).lock(rt);
        match &mut *held {
            Some(gather) => gather.push(bytes, limit),
            None => false,
        }
    }

    /// Sends what is held for a socket. False says that it has failed.
    pub(crate) fn send<R: Wait>(&self, rt: &R, socket: Socket) -> bool {
        let mut held = self.slot(socket).lock(rt);
        match &mut *held {
            Some(gather) => gather.flush(),
            None => false,
        }
    }

    /// Sends what is held for any socket, and says whether there was anything. What another thread is about to add to
    /// or to send is left to that thread, which sends before it waits itself.
    pub(crate) fn flush(&self) -> bool {
        let client = flush_slot(&self.client);
        let pod_a = flush_slot(&self.pod_a);
        let pod_b = flush_slot(&self.pod_b);
        client || pod_a || pod_b
    }

    /// Gives memory back, where nothing is held.
    pub(crate) fn rest(&self) {
        rest_slot(&self.client, self.alloc);
        rest_slot(&self.pod_a, self.alloc);
        rest_slot(&self.pod_b, self.alloc);
    }

    /// A pod's place that is free.
    pub(crate) fn free_pod<R: Wait>(&self, rt: &R) -> Option<Socket> {
        if self.pod_a.lock(rt).is_none() {
            return Some(Socket::PodA);
        }
        if self.pod_b.lock(rt).is_none() {
            return Some(Socket::PodB);
        }
        None
    }

    /// Puts a link's stream into a place.
    pub(crate) fn put<R: Wait>(&self, rt: &R, socket: Socket, stream: Stream) {
        let gather = Gather::new(self.alloc, stream);
        *self.slot(socket).lock(rt) = Some(gather);
    }

    /// Sends what is held for a socket, and frees its place. False says that it has failed.
    pub(crate) fn remove<R: Wait>(&self, rt: &R, socket: Socket) -> bool {
        let is_sent = self.send(rt, socket);
        *self.slot(socket).lock(rt) = None;
        is_sent
    }
}
