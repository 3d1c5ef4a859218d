//! The server as a whole.

ghost use Rattle.std.specs.Prelude.{◌≡◌, ◌≤◌};
ghost use Rattle.std.specs.Arc.{arc_value};

use crate::common::Common;
use crate::drain::{Plan, drain_all};
use crate::front::accept_all;
use crate::seated::Seated;
use crate::settings::first_settings;
use crate::supply::Supply;
use bell_hub::{BellRinger, Bells};
use counted_desk::{Desk, Seat};
use pgw_frames::{NoMemory, Text};
use pod_drain::{Watch, drain_round};
use proxy_config::Settings;
use proxy_hub::{DeskPort, Hub};
use proxy_links::Started;
use server_console::{ServeStatus, ServeWords, listening_line};
use server_host::{Console, Ends, Host, listen};
use session_greeting::Limits;
use settings_reread::LastText;
use std::alloc::Global;
use std::net::{Net, SocketAddr, TcpListener, TcpStream};
use std::rt::Files;
use std::sync::{Arc, Wait};
use std::{fs, io};
use tcp_links::{RandomWords, socket_addr_of, start_on_thread};

/// How many commands the hub takes.
const MOST_COMMANDS: u32 = 1_048_576;

/// The bytes of the stack of the thread that accepts.
const STACK_LEN: usize = 262_144;

/// The system's random bytes.
const RANDOM: &str = "/dev/urandom";

fn supply<R: Files>(rt: &R) -> io::Result<Supply> {
    let mut reader = fs::open(rt, RANDOM)?;
    let words = RandomWords::from_reader(&mut reader)?;
    drop(reader);
    Ok(Supply::new(words))
}

fn limits_of(settings: &Settings) -> Limits {
    Limits {
        patience: settings.patience,
        login_waits: settings.login_waits,
    }
}

/// What all connections share, at its beginning.
fn seated<R: Files>(rt: &R, alloc: Global, limits: Limits) -> Result<Seated, ServeStatus> {
    let Ok(supply) = supply(rt) else {
        return Err(ServeStatus::NoRandom);
    };
    let Ok((desk, seat)) = Desk::<Hub>::make(alloc, MOST_COMMANDS) else {
        return Err(ServeStatus::NoMemory);
    };
    let common = Common {
        desk,
        bells: Bells::new(alloc),
        supply,
        console: Console::new(),
        ends: Ends::new(),
        limits,
    };
    match Arc::new(alloc, common) {
        Ok(common) => Ok(Seated::new(common, seat)),
        Err(_) => Err(ServeStatus::NoMemory),
    }
}

/// Tells the hub the first settings.
fn begin<R: Wait>(
    rt: &R,
    alloc: Global,
    seated: &mut Seated,
    settings: &Settings,
    watch: &mut Watch,
) -> Result<(), NoMemory> {
    let (common, seat) = seated.another()?.parts();
    let mut hub = DeskPort::make(&common.desk, seat);
    let mut bells = BellRinger::new(rt, &common.bells);
    match drain_round(rt, alloc, Some(settings), watch, &mut hub, &mut bells) {
        Ok(_) => Ok(()),
        Err(_) => Err(NoMemory),
    }
}

fn listener<R: Net<Listener = TcpListener, Stream = TcpStream>>(
    rt: &R,
    alloc: Global,
    settings: &Settings,
) -> Result<(TcpListener, SocketAddr), ServeStatus> {
    let addr = socket_addr_of(settings.listen.addr, settings.listen.port);
    match listen(rt, addr) {
        Ok(both) => Ok(both),
        Err(e) => Err(match format!(in alloc; "{e}") {
            Ok(cause) => ServeStatus::NoListener(addr, Text::from_string(cause)),
            Err(_) => ServeStatus::NoMemory,
        }),
    }
}

/// Starts the thread that accepts.
fn start_front<R>(rt: &R, alloc: Global, seated: Seated, listener: TcpListener) -> bool
where
    R: Host + 'static,
{
    let mine = *rt;
    let job = move || accept_all(&mine, alloc, seated, listener);
    match start_on_thread(rt, STACK_LEN, job) {
        Started::Started => true,
        Started::Failed(job) => {
            drop(job);
            false
        }
    }
}

fn say_listening<R: Print>(rt: &R, alloc: Global, at: SocketAddr) -> Result<(), ServeStatus> {
    let Ok(line) = listening_line(alloc, at) else {
        return Err(ServeStatus::NoMemory);
    };
    match print!(rt; "{line}") {
        Ok(()) => Ok(()),
        Err(_) => Err(ServeStatus::WriteFault),
    }
}

/// Begins to serve: what all connections share, and what the drain controller goes by.
fn begun<R>(rt: &R, alloc: Global, words: &ServeWords) -> Result<(Seated, Plan), ServeStatus>
where
    R: Host + Files + 'static,
{
    let (text, settings) = first_settings(rt, alloc, words.config.as_str())?;
    let mut seated = seated(rt, alloc, limits_of(&settings))?;
    let mut watch = Watch::new(alloc);
    if begin(rt, alloc, &mut seated, &settings, &mut watch).is_err() {
        return Err(ServeStatus::NoMemory);
    }
    let (listener, at) = listener(rt, alloc, &settings)?;
    let period = settings.period;
    drop(settings);
    let Ok(file) = Text::of(alloc, words.config.as_str()) else {
        return Err(ServeStatus::NoMemory);
    };
    let plan = Plan {
        file,
        last: LastText::new(text),
        fresh: None,
        watch,
        period,
    };
    let Ok(front) = seated.another() else {
        return Err(ServeStatus::NoMemory);
    };
    say_listening(rt, alloc, at)?;
    if !start_front(rt, alloc, front, listener) {
        return Err(ServeStatus::NoThread);
    }
    Ok((seated, plan))
}

/// Serves clients by the settings in a file until so many connections have ended as the words say, or for as long as the
/// program runs. What happens is told on standard error, and on standard output where it listens.
pub fn serve<R>(rt: &R, alloc: Global, words: &ServeWords) -> ServeStatus
where
    R: Host + Files + 'static,
{
    match begun(rt, alloc, words) {
        Ok((seated, plan)) => {
            drain_all(rt, alloc, seated, plan, words.sessions);
            ServeStatus::Done
        }
        Err(status) => status,
    }
}
