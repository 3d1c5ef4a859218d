//! What a server needs of the system.

use std::net::{Net, TcpListener, TcpStream};
use std::sync::Wait;
use std::thread::Threads;
use std::time::Clock;

/// The system, as the threads of a server use it: they wait, start threads, open sockets, look at the clock, and print.
/// Files are for the thread that the program begins with.
pub trait Host: Wait
    + Threads
    + Sync
    + Send
    + Copy
    + Drop
    + Net<Listener = TcpListener, Stream = TcpStream>
    + Clock
    + Print
    + Eprint {}

impl<
    R: Wait
        + Threads
        + Sync
        + Send
        + Copy
        + Drop
        + Net<Listener = TcpListener, Stream = TcpStream>
        + Clock
        + Print
        + Eprint,
> Host for R {}
