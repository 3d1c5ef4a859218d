//! The lines that a server writes. Moments are in seconds.

ghost use Rattle.std.specs.Prelude.{◌≡◌, ◌++◌, IfOk, string_bytes, codes};
ghost use Rattle.server_console.specs.Telling.{named, tenant_number, session_number, who_line, end_line, listening_line, drain_line, at_moment};

use pgw_frames::NoMemory;
use proxy_outside::{SessionNo, TenantId};
use std::alloc::Global;
use std::net::SocketAddr;

/// A connection that has ended.
#[derive(Clone, Copy, Debug, PartialEq, Eq)]
pub struct Closed<'a> {
    pub peer: SocketAddr,
    /// Whom it wanted a session of, where it said so.
    pub tenant: Option<TenantId>,
    pub session: Option<SessionNo>,
    /// Why it ended, as a word.
    pub why: &'a str,
    /// How often the session was moved.
    pub moves: u64,
    /// How long it was open.
    pub seconds: u64,
}

/// The line on standard output where a server listens.
pub fn listening_line(alloc: Global, addr: SocketAddr) -> Result<String, NoMemory>
    ensures { IfOk result (λ s. string_bytes s ≡ listening_line addr) }
{
    Ok(format!(in alloc; "listening on {addr}\n")?)
}

fn tenant_number(tenant: Option<TenantId>) -> Option<u32>
    ensures { result ≡ tenant_number tenant }
{
    match tenant {
        Some(tenant) => Some(tenant.0),
        None => None,
    }
}

fn session_number(session: Option<SessionNo>) -> Option<u32>
    ensures { result ≡ session_number session }
{
    match session {
        Some(session) => Some(session.0),
        None => None,
    }
}

/// A name and its number, or a hyphen.
fn named(alloc: Global, name: &str, n: Option<u32>) -> Result<String, NoMemory>
    ensures { IfOk result (λ s. string_bytes s ≡ named name.now n) }
{
    match n {
        Some(n) => Ok(format!(in alloc; " {name} {n}")?),
        None => Ok(format!(in alloc; " {name} -")?),
    }
}

/// The front of the line of a connection that has ended.
fn who_line(alloc: Global, now: u64, closed: &Closed<'_>) -> Result<String, NoMemory>
    ensures { IfOk result (λ s. string_bytes s ≡ who_line now closed.now) }
{
    let peer = closed.peer;
    let mut line = format!(in alloc; "closed at {now}: peer {peer}")?;
    let tenant = named(alloc, "tenant", tenant_number(closed.tenant))?;
    line.push_str(tenant.as_str())?;
    let session = named(alloc, "session", session_number(closed.session))?;
    line.push_str(session.as_str())?;
    Ok(line)
}

/// The end of the line of a connection that has ended.
fn end_line(alloc: Global, closed: &Closed<'_>) -> Result<String, NoMemory>
    ensures { IfOk result (λ s. string_bytes s ≡ end_line closed.now) }
{
    let why = closed.why;
    let moves = closed.moves;
    let seconds = closed.seconds;
    Ok(format!(in alloc; " why {why} moves {moves} seconds {seconds}\n")?)
}

/// The line of a connection that has ended.
pub fn closed_line(alloc: Global, now: u64, closed: &Closed<'_>) -> Result<String, NoMemory>
    ensures { IfOk result (λ s. string_bytes s ≡ who_line now closed.now ++ end_line closed.now) }
{
    let mut line = who_line(alloc, now, closed)?;
    let end = end_line(alloc, closed)?;
    line.push_str(end.as_str())?;
    Ok(line)
}

/// The line of a round of draining that rang so many sessions.
pub fn drain_line(alloc: Global, now: u64, rung: u64) -> Result<String, NoMemory>
    ensures { IfOk result (λ s. string_bytes s ≡ drain_line now rung) }
{
    Ok(format!(in alloc; "drain at {now}: {rung} rung\n")?)
}

/// The line of settings that were read again: what is new, or what is wrong with them.
pub fn settings_line(alloc: Global, now: u64, news: &str) -> Result<String, NoMemory>
    ensures { IfOk result (λ s. string_bytes s ≡ at_moment (codes "settings") now news.now) }
{
    trouble_line(alloc, now, "settings", news)
}

/// The line of something that went wrong while serving, with its cause.
pub fn trouble_line(alloc: Global, now: u64, what: &str, cause: &str) -> Result<String, NoMemory>
    ensures { IfOk result (λ s. string_bytes s ≡ at_moment what.now now cause.now) }
{
    Ok(format!(in alloc; "{what} at {now}: {cause}\n")?)
}
