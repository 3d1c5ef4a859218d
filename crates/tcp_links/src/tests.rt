ghost use Rattle.std.specs.Prelude.{◌≡◌};

use super::*;
use proxy_links::{Clock, Dialed, Dialer, Spawner, StartBy, Started, Words};
use proxy_outside::{Addr, Gave, Place, PodNo, Sink, Source, Took};
use std::io::{self, Read, Write};
use std::net::{IpAddr, Ipv4Addr, Ipv6Addr, Net, SocketAddr, TcpListener, TcpStream};
use std::process::Abort;
use std::sync::Wait;
use std::test::*;
use std::time::Duration;

const STACK_LEN: usize = 262_144;

fn limits() -> Limits {
    Limits {
        gathered: 64,
        pace: Pace {
            fast: Duration::from_millis(200),
            waits: 1,
            slow: Duration::from_millis(300),
        },
        dial: Duration::from_secs(5),
        send: Duration::from_secs(5),
    }
}

fn listen<R: Net<Listener = TcpListener, Stream = TcpStream>>(
    rt: &R,
) -> io::Result<(TcpListener, u16)> {
    let listener = TcpListener::bind(rt, SocketAddr::from((Ipv4Addr::LOCALHOST, 0)))?;
    let port = listener.local_addr()?.port();
    Ok((listener, port))
}

/// Both ends of a connection.
fn pair<R: Net<Listener = TcpListener, Stream = TcpStream>>(
    rt: &R,
) -> io::Result<(TcpStream, TcpStream)> {
    let (listener, port) = listen(rt)?;
    let near = TcpStream::connect(rt, SocketAddr::from((Ipv4Addr::LOCALHOST, port)))?;
    let (far, _) = listener.accept()?;
    near.set_read_timeout(Some(Duration::from_secs(5)))?;
    Ok((near, far))
}

/// What a client and a connection see of each other.
fn talk<R: Wait + Abort + Drop>(
    rt: &R,
    client: &mut TcpStream,
    source: &mut TcpSource,
    sink: &mut TcpSink<R>,
) -> io::Result<()> {
    client.write_all(b"abc")?;
    let mut buf = [0; 2];
    assert_eq!(rt; source.read(&mut buf), Took::Got(2));
    assert_eq!(rt; (source.read(&mut buf), buf), (Took::Got(1), *b"cb"));
    assert_eq!(rt; sink.write(b"de"), Gave::Took(2));
    assert_eq!(rt; source.read(&mut buf), Took::Idle);
    client.read_exact(&mut buf)?;
    assert_eq!(rt; buf, *b"de");
    assert_eq!(rt; sink.write(b"fg"), Gave::Took(2));
    assert!(rt; sink.finish(), "the peer reads");
    client.read_exact(&mut buf)?;
    assert_eq!(rt; buf, *b"fg");
    Ok(())
}

#[test]
fn sends_before_a_read_waits(rt: HostRuntime) -> io::Result<()> {
    let (mut client, far) = pair(&rt)?;
    let mut ends = Connection::make(rt, rt.alloc(), far, limits())?;
    talk(&rt, &mut client, &mut ends.source, &mut ends.sink)?;
    drop(client);
    let mut buf = [0; 2];
    for _ in 0..2 {
        assert_eq!(rt; ends.source.read(&mut buf), Took::End);
    }
    Ok(())
}

/// What a pod and a link to it see of each other.
fn relay<R: Wait + Abort + Drop>(
    rt: &R,
    pod: &mut TcpStream,
    tx: &mut TcpSink<R>,
    rx: &mut TcpSource,
) -> io::Result<()>
    ensures tx { tx.new.link ≡ tx.old.link }
    ensures rx { rx.new.link ≡ rx.old.link }
{
    pod.write_all(b"hi")?;
    let mut buf = [0; 8];
    assert_eq!(rt; rx.read(&mut buf), Took::Got(2));
    assert_eq!(rt; tx.write(b"bye"), Gave::Took(3));
    Ok(())
}

#[test]
fn a_link_is_dialed_and_hung_up(rt: HostRuntime) -> io::Result<()> {
    let (_client, far) = pair(&rt)?;
    let mut ends = Connection::make(rt, rt.alloc(), far, limits())?;
    let (listener, port) = listen(&rt)?;
    let at = Place {
        pod: PodNo(1),
        addr: Addr::V4(0x7f00_0001),
        port,
    };
    let Dialed::Link(mut tx, mut rx) = ends.dialer.dial(at) else {
        panic!(rt; "no link");
    };
    let (mut pod, _) = listener.accept()?;
    relay(&rt, &mut pod, &mut tx, &mut rx)?;
    ends.dialer.hang_up(tx, rx);
    let mut buf = [0; 8];
    assert_eq!(rt; pod.read(&mut buf)?, 3);
    assert_eq!(rt; pod.read(&mut buf)?, 0);
    drop(listener);
    assert!(rt;
        matches!(ends.dialer.dial(at), Dialed::Failed),
        "nobody listens"
    );
    Ok(())
}

#[test]
fn addresses_are_those_of_the_system(rt: HostRuntime) {
    let mapped = Ipv6Addr::new(0, 0, 0, 0, 0, 0xffff, 0x0a01, 0x0203);
    let rows = [
        (IpAddr::V4(Ipv4Addr::LOCALHOST), Addr::V4(0x7f00_0001)),
        (IpAddr::V6(Ipv6Addr::LOCALHOST), Addr::V6(1)),
        (IpAddr::V6(mapped), Addr::V4(0x0a01_0203)),
    ];
    for (ip, addr) in rows {
        assert_eq!(rt; addr_of(ip), addr);
        assert_eq!(rt; addr_of(socket_addr_of(addr, 5432).ip()), addr);
    }
}

#[test]
fn moments_are_of_this_age(rt: HostRuntime) {
    let mut clock = SystemClock::new(rt);
    // The start of 2024, and of 2100.
    let now = clock.now();
    assert!(rt; 1_704_067_200 <= now && now < 4_102_444_800, "at {now}");
}

#[test]
fn words_are_those_of_the_cipher(rt: HostRuntime) -> io::Result<()> {
    // RFC 8439, appendix A.1, test vector 1: 76 b8 e0 ad a0 f1 3d 90, and then 40 5d 6a e5 53 86 bd 28.
    let zeros = [0; 40];
    let mut reader = zeros.as_slice();
    let mut words = RandomWords::from_reader(&mut reader)?;
    for word in [0x903d_f1a0_ade0_b876, 0x28bd_8653_e56a_5d40] {
        assert_eq!(rt; words.next(), word);
    }
    assert!(rt;
        RandomWords::from_reader(&mut reader).is_err(),
        "8 bytes are left"
    );
    Ok(())
}

#[test]
fn a_job_runs_on_a_thread(rt: HostRuntime) -> io::Result<()> {
    let (mut near, mut far) = pair(&rt)?;
    let job = move || {
        let _ = far.write_all(b"x");
    };
    let mut spawner = StartBy {
        start: |job| start_on_thread(&rt, STACK_LEN, job),
        faults: 0,
    };
    assert!(rt;
        matches!(spawner.start(job), Started::Started),
        "there are threads"
    );
    let mut buf = [0; 2];
    assert_eq!(rt; near.read(&mut buf)?, 1);
    Ok(())
}
