//! What a transfer between two pods comes to.

use crate::pods::{Pod, dialer};
use link_transfer::{Transferred, transfer};
use memory_links::{ScriptDialer, ScriptSink, ScriptSource};
use pgw_frames::NoMemory;
use pgw_messages::Params;
use proxy_links::{Dialed, Dialer};
use proxy_outside::{Addr, Place, PodNo, Source, Took};
use session_model::TransferKey;
use std::alloc::Global;
use transfer_stages::Cut;

const QUERY: &[u8] = b"Q\0\0\0\x40SHOW TRANSFER STATE WITH '0000000000000001000000000000000a'\0";

/// The startup packet of user `u` with the token, and the restore Query.
const SENT: &[u8] = b"\0\0\0\x37\0\x03\0\0user\0u\0crdb:session_revival_token_base64\0dG9r\0\0\
    Q\0\0\0\x46SELECT crdb_internal.deserialize_session(decode('AQ==','base64'))\0";

/// Why a link was left.
#[derive(Clone, Copy, Debug, PartialEq, Eq)]
pub(crate) enum Why {
    ReadFault,
    WriteFault,
    Ended,
    BadLength(u32),
    Unexpected(u8),
    Strayed(u8),
    Late(u64),
}

/// What a transfer came to.
#[derive(Clone, Copy, Debug, PartialEq, Eq)]
pub(crate) enum Told {
    /// With the key's two numbers.
    Moved(u32, u32),
    MovedWithoutKey,
    Refused,
    RevivalRefused,
    DialFault,
    NewCut(Why),
    OldCut(Why),
    NoMemory,
}

/// What a transfer did.
#[derive(Clone, Copy, Debug, PartialEq, Eq)]
pub(crate) struct Trial {
    pub told: Told,
    /// Whether the old pod got just the transfer Query.
    pub asked: bool,
    /// How many dials the transfer made.
    pub dials: usize,
    /// How many bytes of what a new pod is sent went on the link that was hung up, where there is one.
    pub sent: Option<usize>,
    /// The byte that the old pod's link gives next.
    pub next: Option<u8>,
}

fn cause_of(c: &Cut) -> Why {
    match c {
        Cut::ReadFault => Why::ReadFault,
        Cut::WriteFault => Why::WriteFault,
        Cut::Ended => Why::Ended,
        Cut::BadLength(n) => Why::BadLength(*n),
        Cut::Unexpected(f) => Why::Unexpected(f.tag),
        Cut::Strayed(tag) => Why::Strayed(*tag),
        Cut::Late(n) => Why::Late(*n),
    }
}

fn answer_of(t: &Transferred<ScriptSink, ScriptSource>) -> Told {
    match t {
        Transferred::Moved(_, _, Some(key)) => Told::Moved(key.process, key.secret),
        Transferred::Moved(_, _, None) => Told::MovedWithoutKey,
        Transferred::Refused(_) => Told::Refused,
        Transferred::RevivalRefused(_) => Told::RevivalRefused,
        Transferred::DialFault => Told::DialFault,
        Transferred::NewCut(c) => Told::NewCut(cause_of(c)),
        Transferred::OldCut(c) => Told::OldCut(cause_of(c)),
        Transferred::NoMemory => Told::NoMemory,
    }
}

fn next_of(rx: &mut ScriptSource) -> Option<u8> {
    let mut buf = [0u8; 1];
    match rx.read(&mut buf) {
        Took::Got(_) => Some(buf[0]),
        Took::End | Took::Idle | Took::Failed => None,
    }
}

/// How many bytes went on the first link that was hung up, where they begin what a new pod is sent.
fn sent_of(dialer: &ScriptDialer) -> Option<usize> {
    let sent = dialer.hung_up().first()?.tx.contents();
    if SENT.starts_with(sent) {
        Some(sent.len())
    } else {
        None
    }
}

fn place_of(number: u32) -> Place {
    Place {
        pod: PodNo(number),
        addr: Addr::V4(1),
        port: 1,
    }
}

/// A transfer with the key 1 and this number, and with patience 2.
fn moved(
    alloc: Global,
    dialer: &mut ScriptDialer,
    tx: &mut ScriptSink,
    rx: &mut ScriptSource,
    params: &Params,
    low: u64,
) -> Told {
    if params.value("crdb:session_revival_token_base64").is_some() {
        return Told::NoMemory;
    }
    let key = TransferKey { high: 1, low };
    let t = transfer(alloc, dialer, tx, rx, place_of(1), params, &key, 2);
    let told = answer_of(&t);
    drop(t);
    told
}

fn tried_between(
    alloc: Global,
    dialer: &mut ScriptDialer,
    tx: &mut ScriptSink,
    rx: &mut ScriptSource,
    low: u64,
) -> Result<Trial, NoMemory> {
    let mut params = Params::new(alloc);
    params.put("user", "u")?;
    let told = moved(alloc, dialer, tx, rx, &params, low);
    Ok(Trial {
        told,
        asked: tx.contents() == QUERY,
        dials: dialer.dials().len().saturating_sub(1),
        sent: sent_of(dialer),
        next: next_of(rx),
    })
}

fn tried_by(alloc: Global, dialer: &mut ScriptDialer, low: u64) -> Result<Trial, NoMemory> {
    match dialer.dial(place_of(0)) {
        Dialed::Link(tx, rx) => {
            let mut tx = tx;
            let mut rx = rx;
            let trial = tried_between(alloc, dialer, &mut tx, &mut rx, low);
            drop(tx);
            drop(rx);
            trial
        }
        Dialed::Failed => Err(NoMemory),
    }
}

/// A transfer from one pod to the other, where there is one.
pub(crate) fn tried(
    alloc: Global,
    old: Pod,
    new: Option<Pod>,
    low: u64,
) -> Result<Trial, NoMemory> {
    let mut dialer = dialer(alloc, old, new)?;
    let trial = tried_by(alloc, &mut dialer, low);
    drop(dialer);
    trial
}
