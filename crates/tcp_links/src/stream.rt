//! A socket that several owners read and write.

use crate::limits::Limits;
use std::alloc::{AllocError, Global};
use std::io;
use std::io::{Read, Write};
use std::net::TcpStream;
use std::sync::Arc;
use std::time::Duration;

/// One of the owners of a socket, which is closed once all of them are gone.
#[derive(Drop)]
pub(crate) struct Stream(Arc<TcpStream>);

impl Stream {
    /// The first owner. What is sent goes out at once, and reads and sends wait as the limits say.
    pub(crate) fn make(alloc: Global, stream: TcpStream, limits: &Limits) -> io::Result<Stream> {
        stream.set_nodelay(true)?;
        stream.set_read_timeout(Some(limits.pace.fast))?;
        stream.set_write_timeout(Some(limits.send))?;
        Ok(Stream(Arc::new(alloc, stream)?))
    }

    /// Another owner of the same socket.
    pub(crate) fn share(&self) -> Result<Stream, AllocError> {
        Ok(Stream(Arc::try_clone(&self.0)?))
    }

    /// Sets how long a read waits, and says whether it could.
    pub(crate) fn set_wait(&self, wait: Duration) -> bool {
        self.0.set_read_timeout(Some(wait)).is_ok()
    }
}

impl Read for Stream {
    fn read(&mut self, buf: &mut [u8]) -> io::Result<usize> {
        let mut stream: &TcpStream = &self.0;
        stream.read(buf)
    }
}

impl Write for Stream {
    fn write(&mut self, buf: &[u8]) -> io::Result<usize> {
        let mut stream: &TcpStream = &self.0;
        stream.write(buf)
    }

    fn flush(&mut self) -> io::Result<()> {
        Ok(())
    }
}
