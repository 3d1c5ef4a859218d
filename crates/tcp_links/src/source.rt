//! Sources over sockets.

ghost use Rattle.std.specs.Prelude.{◌≡◌, IfOk};
ghost use Rattle.tcp_links.specs.Untold.{new_origin};

use crate::inflow::{Came, Inflow};
use crate::limits::Pace;
use crate::outs::Outs;
use crate::stream::Stream;
use proxy_outside::{Source, Took};
use std::alloc::{AllocError, Global};
use std::marker::Model;
use std::sync::Arc;

/// Sends what the connection has gathered, and then gives what the socket gives. It reads ahead, and tells no contents.
/// A read that found nothing in its time, or was interrupted, is idle.
#[derive(Drop)]
pub struct TcpSource {
    inflow: Inflow,
    pub(crate) faults: u64,
    pub(crate) waits: u64,
    pub(crate) ended: bool,
    pub(crate) link: u64,
}

impl Model for TcpSource {
    ghost use Rattle.std.specs.Prelude.{None};
    ghost use Rattle.proxy_outside.specs.Reading.{Origin};

    ghost Value = { Origin };

    ghost view = { λ s. record { taken = None; left = None; faults = s.faults; waits = s.waits; ended = s.ended; link = s.link } };
}

impl TcpSource {
    pub(crate) fn make(
        alloc: Global,
        stream: Stream,
        outs: Arc<Outs>,
        pace: Pace,
        link: u64,
    ) -> Result<TcpSource, AllocError>
        ensures { IfOk result (λ s. s ≡ new_origin link) }
    {
        Ok(TcpSource {
            inflow: Inflow::make(alloc, stream, outs, pace)?,
            faults: 0,
            waits: 0,
            ended: false,
            link,
        })
    }
}

impl Source for TcpSource {
    ghost origin = { λ s. s };

    fn read(&mut self, buf: &mut [u8]) -> Took {
        if self.ended {
            return Took::End;
        }
        match self.inflow.read(buf) {
            Came::Bytes(n) => Took::Got(n),
            Came::End => {
                self.ended = true;
                Took::End
            }
            Came::Nothing => {
                self.waits = self.waits.saturating_add(1);
                Took::Idle
            }
            Came::Fault => {
                self.faults = self.faults.saturating_add(1);
                Took::Failed
            }
        }
    }
}
