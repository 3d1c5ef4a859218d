//! The text of a summary.

ghost use Rattle.std.specs.Prelude.{◌≡◌, IfOk};
ghost use Rattle.proxy_replay.specs.Summary.{summary_text};

use crate::phase_words::add_phase;
use crate::report::{add_count, add_row};
use forwarder_world::{Counts, Phase};
use pgw_frames::{Bytes, NoMemory};
use sha2::{Digest, Sha256};
use std::alloc::Global;

/// What is told of a schedule that was made from a number.
#[derive(Drop)]
pub(crate) struct Summary<'a> {
    pub number: u64,
    pub messages: u32,
    pub events: u64,
    pub phase: &'a Phase,
    pub counts: Counts,
    pub received: &'a [u8],
}

impl<'a> Summary<'a> {
    #[tactic(auto, unfolding(crate::specs::Summary::summary_text))]
    pub fn text(&self, alloc: Global) -> Result<Bytes, NoMemory>
        ensures { IfOk result (λ text. text ≡ summary_text self.now.number self.now.messages self.now.events self.now.phase.now self.now.counts self.now.received.now) }
    {
        let mut out = Bytes::of(alloc, b"sqlproxy gen 1\n")?;
        add_count(&mut out, b"number", self.number)?;
        add_count(&mut out, b"messages", u64::from(self.messages))?;
        add_count(&mut out, b"events", self.events)?;
        out.extend(b"phase ")?;
        add_phase(&mut out, self.phase)?;
        out.extend(b"\n")?;
        add_count(&mut out, b"moves", self.counts.moves)?;
        add_count(&mut out, b"failed", self.counts.failed)?;
        add_count(&mut out, b"forwarded", self.counts.forwarded)?;
        add_count(&mut out, b"passed", self.counts.passed)?;
        add_count(&mut out, b"received", self.received.len() as u64)?;
        out.extend(b"sha256 ")?;
        add_row(&mut out, &Sha256::digest(self.received))?;
        out.extend(b"end\n")?;
        Ok(out)
    }
}
