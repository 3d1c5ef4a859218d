//! Where clients come in.

use std::io;
use std::net::{Net, SocketAddr, TcpListener, TcpStream};
use std::os::fd::AsRawFd;

/// How many clients may wait to be accepted.
const BACKLOG: i32 = 4096;

/// Listens at a place, and says where: a port 0 becomes one that is free.
pub fn listen<R: Net<Listener = TcpListener, Stream = TcpStream>>(
    rt: &R,
    place: SocketAddr,
) -> io::Result<(TcpListener, SocketAddr)> {
    let listener = TcpListener::bind(rt, place)?;
    // The library's own queue of 128 is short for many clients at once.
    let _ = libc::net::listen(listener.as_raw_fd(), BACKLOG);
    let at = listener.local_addr()?;
    Ok((listener, at))
}
