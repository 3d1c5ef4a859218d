//! Sinks over sockets.

ghost use Rattle.std.specs.Prelude.{◌≡◌};
ghost use Rattle.tcp_links.specs.Untold.{new_target};

use crate::outs::{Outs, Socket};
use proxy_outside::{Gave, Sink};
use std::marker::Model;
use std::sync::{Arc, Wait};

/// The bytes of a Terminate, behind which nothing is read any more.
const TERMINATE: [u8; 5] = [b'X', 0, 0, 0, 4];

/// Gathers what it is given, and sends it before the connection's next read waits, or once it is much. It tells no
/// contents. A send that failed is told by each write that follows.
#[derive(Drop)]
pub struct TcpSink<R: Wait + Drop> {
    rt: R,
    outs: Arc<Outs>,
    pub(crate) socket: Socket,
    /// The most bytes that are gathered. At 0 each write is sent at once.
    limit: usize,
    pub(crate) faults: u64,
    pub(crate) link: u64,
}

impl<R: Wait + Drop> Model for TcpSink<R> {
    ghost use Rattle.std.specs.Prelude.{None};
    ghost use Rattle.proxy_outside.specs.Writing.{Target};

    ghost Value = { Target };

    ghost view = { λ s. record { contents = None; faults = s.faults; link = s.link } };
}

impl<R: Wait + Drop> TcpSink<R> {
    pub(crate) fn new(rt: R, outs: Arc<Outs>, socket: Socket, limit: usize, link: u64) -> TcpSink<R>
        ensures { result ≡ new_target link }
    {
        TcpSink {
            rt,
            outs,
            socket,
            limit,
            faults: 0,
            link,
        }
    }

    /// Sends what is gathered, as at the end of a connection. False says that a send has failed.
    pub fn finish(&self) -> bool {
        self.outs.send(&self.rt, self.socket)
    }

    /// Takes all of the bytes. A Terminate is sent at once.
    fn push(&self, bytes: &[u8]) -> bool {
        let is_well = self.outs.push(&self.rt, self.socket, bytes, self.limit);
        if bytes == TERMINATE.as_slice() {
            return self.finish();
        }
        is_well
    }
}

impl<R: Wait + Drop> Sink for TcpSink<R> {
    ghost target = { λ s. s };

    fn write(&mut self, bytes: &[u8]) -> Gave {
        if self.push(bytes) {
            return Gave::Took(bytes.len());
        }
        self.faults = self.faults.saturating_add(1);
        Gave::Failed
    }
}
