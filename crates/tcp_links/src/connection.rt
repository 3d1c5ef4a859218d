//! A client's socket, and what it takes to serve it.

ghost use Rattle.std.specs.Prelude.{◌≡◌, IfOk};
ghost use Rattle.proxy_links.specs.Links.{no_counts};
ghost use Rattle.tcp_links.specs.Untold.{untold, new_target, new_origin};

use crate::dialer::TcpDialer;
use crate::limits::Limits;
use crate::outs::{Outs, Socket};
use crate::sink::TcpSink;
use crate::source::TcpSource;
use crate::stream::Stream;
use std::alloc::Global;
use std::io;
use std::net::{Net, TcpStream};
use std::sync::{Arc, Wait};

/// The two halves of a client's socket, and the dialer of its links. They share what is gathered.
#[derive(Drop)]
pub struct Connection<R: Wait + Net<Stream = TcpStream> + Copy + Drop> {
    pub source: TcpSource,
    pub sink: TcpSink<R>,
    pub dialer: TcpDialer<R>,
}

impl<R: Wait + Net<Stream = TcpStream> + Copy + Drop> Connection<R> {
    /// Begins with a socket that was accepted. An error is that of setting the socket up, or there is no memory.
    pub fn make(
        rt: R,
        alloc: Global,
        client: TcpStream,
        limits: Limits,
    ) -> io::Result<Connection<R>>
        ensures source { IfOk result (λ c. c.source ≡ new_origin 0) }
        ensures sink { IfOk result (λ c. c.sink ≡ new_target 0) }
        ensures dialer { IfOk result (λ c. c.dialer ≡ untold 0 0 0 no_counts) }
    {
        let stream = Stream::make(alloc, client, &limits)?;
        let outs = Arc::new(alloc, Outs::new(alloc, stream.share()?))?;
        let sink = TcpSink::new(
            rt,
            Arc::try_clone(&outs)?,
            Socket::Client,
            limits.gathered,
            0,
        );
        let source = TcpSource::make(alloc, stream, Arc::try_clone(&outs)?, limits.pace, 0)?;
        let dialer = TcpDialer::new(rt, alloc, outs, limits);
        Ok(Connection {
            source,
            sink,
            dialer,
        })
    }
}
