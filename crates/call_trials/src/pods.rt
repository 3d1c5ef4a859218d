//! Pods whose words are written down before.

use memory_links::{ScriptDial, ScriptDialer, ScriptLink};
use pgw_frames::{Bytes, NoMemory};
use proxy_outside::PodNo;
use std::alloc::Global;

/// One link on which a pod says these bytes, one in each read, and what then; or none.
fn link(alloc: Global, bytes: &[u8]) -> Result<ScriptLink, NoMemory> {
    Ok(ScriptLink {
        bytes: Bytes::of(alloc, bytes)?,
        idle: Vec::new(alloc),
        failing_reads: Vec::new(alloc),
        failing_writes: Vec::new(alloc),
    })
}

/// A dialer whose links say these texts, and that fails then.
pub(crate) fn dialer(alloc: Global, pods: &[&[u8]]) -> Result<ScriptDialer, NoMemory> {
    let mut all = Vec::new(alloc);
    for bytes in pods {
        all.push(ScriptDial::Link(link(alloc, bytes)?))?;
    }
    ScriptDialer::make(alloc, all)
}

/// Whether the link to the first pod was sent just this till it was hung up, or none is to be.
pub(crate) fn is_sent(dialer: &ScriptDialer, want: Option<&[u8]>) -> bool {
    let mut links = dialer.hung_up().iter();
    match links.find(|l| l.place.pod == PodNo(1)) {
        Some(link) => want == Some(link.tx.contents()),
        None => want.is_none(),
    }
}
