//! What the two pods of a trial send.

use memory_links::{ScriptDial, ScriptDialer, ScriptLink};
use pgw_frames::{Bytes, NoMemory};
use std::alloc::Global;

/// The old pod's reply to the Query with the key 1, 10: columns, a row with the state `01` and the token `dG9r`, which is base64, a
/// tag and a ready.
pub(crate) fn old_reply() -> [&'static [u8]; 4] {
    [
        b"T\0\0\0\x93\0\x04error\0\0\0\0\0\0\0\0\0\0\x19\xff\xff\xff\xff\xff\xff\0\0session_state_base64\0\0\0\0\0\0\0\0\0\0\x19\xff\xff\xff\xff\xff\xff\0\0session_revival_token_base64\0\0\0\0\0\0\0\0\0\0\x19\xff\xff\xff\xff\xff\xff\0\0transfer_key\0\0\0\0\0\0\0\0\0\0\x19\xff\xff\xff\xff\xff\xff\0\0",
        b"D\0\0\0\x3e\0\x04\0\0\0\0\0\0\0\x04AQ==\0\0\0\x04dG9r\0\0\0\x200000000000000001000000000000000a",
        b"C\0\0\0\x1aSHOW TRANSFER STATE 1\0",
        b"Z\0\0\0\x05I",
    ]
}

/// The new pod's greeting (AuthenticationOk, BackendKeyData, ReadyForQuery), and its reply to the restore Query.
pub(crate) fn new_pod() -> [&'static [u8]; 7] {
    [
        b"R\0\0\0\x08\0\0\0\0",
        b"K\0\0\0\x0c\0\0\0\x07\0\0\0\x09",
        b"Z\0\0\0\x05I",
        b"T\0\0\0\x3a\0\x01crdb_internal.deserialize_session\0\0\0\0\0\0\0\0\0\0\x10\0\x01\xff\xff\xff\xff\0\0",
        b"D\0\0\0\x0b\0\x01\0\0\0\x01t",
        b"C\0\0\0\x0dSELECT 1\0",
        b"Z\0\0\0\x05I",
    ]
}

/// What comes behind the messages that are expected.
#[derive(Clone, Copy, Debug, PartialEq, Eq)]
pub(crate) enum Then {
    /// A ParseComplete.
    Other,
    /// An ErrorResponse.
    Error,
    /// A length that is none.
    Bad,
    End,
    /// An end inside a message.
    Inside,
    /// A read that fails.
    Fault,
    /// Two reads that are idle.
    Idle,
}

fn bytes_of(then: Then) -> &'static [u8] {
    match then {
        Then::Other => b"1\0\0\0\x04",
        Then::Error => b"E\0\0\0\x13SFATAL\0C28000\0\0",
        Then::Bad => b"Z\0\0\0\x03",
        Then::Inside => b"Z\0\0\0",
        Then::End | Then::Fault | Then::Idle => b"",
    }
}

/// A pod that sends so many of these messages, and then this. It gives one byte in each read; further reads are
/// idle, and writes fail, at these numbers.
#[derive(Clone, Copy)]
pub(crate) struct Pod<'a> {
    pub messages: &'a [&'static [u8]],
    pub count: usize,
    pub then: Then,
    pub idle: &'a [u64],
    pub failing_writes: &'a [u64],
}

/// A pod whose link does as it should.
pub(crate) fn pod_of<'a>(messages: &'a [&'static [u8]], count: usize, then: Then) -> Pod<'a> {
    Pod {
        messages,
        count,
        then,
        idle: &[],
        failing_writes: &[],
    }
}

fn write(l: &mut ScriptLink, pod: Pod) -> Result<(), NoMemory> {
    for m in pod.messages.iter().take(pod.count) {
        l.bytes.extend(m)?;
    }
    let next = (l.bytes.len() as u64).saturating_add(1);
    l.bytes.extend(bytes_of(pod.then))?;
    l.idle.extend_from_slice(pod.idle)?;
    l.failing_writes.extend_from_slice(pod.failing_writes)?;
    if pod.then == Then::Idle {
        l.idle.push(next)?;
        l.idle.push(next.saturating_add(1))?;
    }
    if pod.then == Then::Fault {
        l.failing_reads.push(next)?;
    }
    Ok(())
}

fn add(alloc: Global, script: &mut Vec<ScriptDial>, pod: Pod) -> Result<(), NoMemory> {
    let mut l = ScriptLink {
        bytes: Bytes::new(alloc),
        idle: Vec::new(alloc),
        failing_reads: Vec::new(alloc),
        failing_writes: Vec::new(alloc),
    };
    let written = write(&mut l, pod);
    script.push(ScriptDial::Link(l))?;
    written
}

fn script(alloc: Global, old: Pod, new: Option<Pod>) -> Result<Vec<ScriptDial>, NoMemory> {
    let mut script = Vec::new(alloc);
    add(alloc, &mut script, old)?;
    if let Some(pod) = new {
        add(alloc, &mut script, pod)?;
    }
    Ok(script)
}

/// A dialer whose first link leads to the old pod, and its second one to the new pod, where there is one.
pub(crate) fn dialer(alloc: Global, old: Pod, new: Option<Pod>) -> Result<ScriptDialer, NoMemory> {
    ScriptDialer::make(alloc, script(alloc, old, new)?)
}
