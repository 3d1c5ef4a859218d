//! A dialer over sockets.

ghost use Rattle.std.specs.Prelude.{◌≡◌, ◌≤◌, ◌-◌, IfOk, IfSome};
ghost use Rattle.proxy_links.specs.Links.{no_counts};
ghost use Rattle.tcp_links.specs.Untold.{untold, new_target, new_origin};

use crate::address::socket_addr_of;
use crate::limits::Limits;
use crate::outs::{Outs, Socket};
use crate::sink::TcpSink;
use crate::source::TcpSource;
use crate::stream::Stream;
use proxy_links::{Dialed, Dialer};
use proxy_outside::Place;
use std::alloc::{AllocError, Global};
use std::io;
use std::marker::Model;
use std::net::{Net, TcpStream};
use std::sync::{Arc, Wait};

/// The counts of the link that was hung up last.
#[derive(Clone, Copy, Debug)]
struct Closed {
    tx_faults: u64,
    rx_faults: u64,
    waits: u64,
    ended: bool,
}

/// Opens the links of one connection, of which two may be open at a time. It tells neither its dials nor what went
/// over a link.
#[derive(Drop)]
pub struct TcpDialer<R: Wait + Net<Stream = TcpStream> + Copy + Drop> {
    rt: R,
    alloc: Global,
    outs: Arc<Outs>,
    limits: Limits,
    dialed: u64,
    live: u64,
    faults: u64,
    closed: Closed,
}

impl<R: Wait + Net<Stream = TcpStream> + Copy + Drop> Model for TcpDialer<R> {
    ghost use Rattle.std.specs.Prelude.{◌≤◌};
    ghost use Rattle.proxy_links.specs.Links.{Links};
    ghost use Rattle.tcp_links.specs.Untold.{untold};

    ghost Value = { Links };

    ghost view = { λ d. untold d.dialed d.live d.faults (record { tx_faults = d.closed.tx_faults; rx_faults = d.closed.rx_faults; waits = d.closed.waits; ended = d.closed.ended }) };

    ghost invariant = { λ d. d.live ≤ d.dialed };
}

impl<R: Wait + Net<Stream = TcpStream> + Copy + Drop> TcpDialer<R> {
    pub(crate) fn new(rt: R, alloc: Global, outs: Arc<Outs>, limits: Limits) -> TcpDialer<R>
        ensures { result ≡ untold 0 0 0 no_counts }
    {
        let closed = Closed {
            tx_faults: 0,
            rx_faults: 0,
            waits: 0,
            ended: false,
        };
        TcpDialer {
            rt,
            alloc,
            outs,
            limits,
            dialed: 0,
            live: 0,
            faults: 0,
            closed,
        }
    }

    fn connect(&self, at: Place) -> io::Result<Stream> {
        let addr = socket_addr_of(at.addr, at.port);
        let stream = TcpStream::connect_timeout(&self.rt, &addr, self.limits.dial)?;
        Stream::make(self.alloc, stream, &self.limits)
    }

    /// The halves of the next link.
    fn halves(&self, socket: Socket, stream: &Stream) -> Result<(TcpSink<R>, TcpSource), AllocError>
        ensures tx { IfOk result (λ h. h.0 ≡ new_target self.now.dialed) }
        ensures rx { IfOk result (λ h. h.1 ≡ new_origin self.now.dialed) }
    {
        let outs = Arc::try_clone(&self.outs)?;
        let tx = TcpSink::new(self.rt, outs, socket, self.limits.gathered, self.dialed);
        let outs = Arc::try_clone(&self.outs)?;
        let pace = self.limits.pace;
        let rx = TcpSource::make(self.alloc, stream.share()?, outs, pace, self.dialed)?;
        Ok((tx, rx))
    }

    /// Opens a link, where there is a place for it.
    fn open(&self, at: Place) -> Option<(TcpSink<R>, TcpSource)>
        ensures tx { IfSome result (λ h. h.0 ≡ new_target self.now.dialed) }
        ensures rx { IfSome result (λ h. h.1 ≡ new_origin self.now.dialed) }
    {
        let socket = self.outs.free_pod(&self.rt)?;
        let Ok(stream) = self.connect(at) else {
            return None;
        };
        match self.halves(socket, &stream) {
            Ok(halves) => {
                self.outs.put(&self.rt, socket, stream);
                Some(halves)
            }
            Err(_) => None,
        }
    }

    /// Notes that a link with these counts was hung up, and a fault where the end of its bytes wasn't sent.
    fn close(&mut self, closed: Closed, is_sent: bool)
        requires { 1 ≤ self.old.live }
        ensures faults { self.old.faults ≤ self.new.faults }
        ensures others { self.new ≡ record self.old { live = self.old.live - 1; faults = self.new.faults; closed = record { tx_faults = closed.tx_faults; rx_faults = closed.rx_faults; waits = closed.waits; ended = closed.ended } } }
    {
        if !is_sent {
            self.faults = self.faults.saturating_add(1);
        }
        self.closed = closed;
        self.live -= 1;
    }
}

impl<R: Wait + Net<Stream = TcpStream> + Copy + Drop + Send> Dialer for TcpDialer<R> {
    type Tx = TcpSink<R>;

    type Rx = TcpSource;

    ghost links = { λ d. d };

    fn dial(&mut self, at: Place) -> Dialed<TcpSink<R>, TcpSource> {
        if self.dialed < u64::MAX {
            if let Some((tx, rx)) = self.open(at) {
                self.dialed += 1;
                self.live += 1;
                return Dialed::Link(tx, rx);
            }
        }
        self.dialed = self.dialed.saturating_add(1);
        self.faults = self.faults.saturating_add(1);
        Dialed::Failed
    }

    fn hang_up(&mut self, tx: TcpSink<R>, rx: TcpSource) {
        let is_sent = self.outs.remove(&self.rt, tx.socket);
        let closed = Closed {
            tx_faults: tx.faults,
            rx_faults: rx.faults,
            waits: rx.waits,
            ended: rx.ended,
        };
        self.close(closed, is_sent);
    }
}
