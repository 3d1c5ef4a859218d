//! The machine of a transfer between links.

ghost use Rattle.std.specs.Prelude.{◌≡◌, ◌≤◌, ◌<◌, ◌+◌, ℕ, List, length};
ghost use Rattle.pgw_frames.specs.Frames.{frame_bytes};
ghost use Rattle.session_model.specs.Texts.{transfer_query};
ghost use Rattle.transfer_stages.specs.Exchange.{wants};
ghost use Rattle.transfer_stages.specs.declared.stage.Stage.TheVariants as stages;
ghost use Rattle.transfer_exchange.specs.Course.{key_of, params_of, stage_of, goes, IsSending, IsAwaiting};
ghost use Rattle.link_io.specs.Writing.{WritesAll};
ghost use Rattle.link_transfer.specs.Telling.{Steps, Sends, Drains, DrainsBehind, OldEnds, Runs, end_of};
ghost use Rattle.link_transfer.specs.Meeting.{Talks, Meets};

use crate::message::{Heard, read_message, skip_message};
use link_io::write_all;
use proxy_outside::{Sink, Source};
use session_model::TransferKey;
use std::alloc::Global;
use transfer_exchange::Exchange;
use transfer_stages::{Cut, Want};

/// The types of the messages of the old pod's reply: RowDescription, DataRow, CommandComplete, ReadyForQuery.
pub(crate) const DUE: [u8; 4] = *b"TDCZ";

/// What one message did to the machine, and how often the source was idle since reading began.
#[derive(Drop)]
pub(crate) enum Step {
    On(u64),
    /// There was no memory for a message of this type, which was read and dropped.
    Lost(u8, u64),
    Cut(Cut),
}

/// What became of a text.
#[derive(Clone, Copy)]
pub(crate) enum Sent {
    Sent,
    NoMemory,
    Failed,
}

/// How a run of messages of the new pod ended.
#[derive(Drop)]
pub(crate) enum Run {
    On(u64),
    Lost,
    Cut(Cut),
}

/// How the talk with a pod ended.
#[derive(Drop)]
pub(crate) enum End {
    /// The machine has no more to hear from it.
    Heard,
    /// There was no memory.
    Lost,
    Cut(Cut),
}

/// The transfer Query of this key, in a fixed array.
fn query_bytes(key: &TransferKey) -> [u8; 65]
    ensures { result ≡ frame_bytes (transfer_query key.now) }
{
    let mut out = *b"Q\0\0\0\x40SHOW TRANSFER STATE WITH '00000000000000000000000000000000'\0";
    match hex::encode_to_slice(&key.to_bytes(), &mut out[31..63]) {
        Ok(()) => out,
        Err(_) => unreachable!(),
    }
}

/// Asks the old pod for its session's state. It takes no memory.
pub(crate) fn ask<K: Sink>(tx: &mut K, key: &TransferKey) -> bool
    ensures { WritesAll result (K.target tx.old) (K.target tx.new) (frame_bytes (transfer_query key.now)) }
{
    write_all(tx, &query_bytes(key))
}

/// Hears one message.
fn hear<R: Source>(alloc: Global, x: &mut Exchange, rx: &mut R, waited: u64, patience: u64) -> Step
    requires patient { waited + 1 ≤ patience }
    requires awaits { IsAwaiting (wants (stage_of x.old)) }
    ensures { Steps waited patience x.old x.new (R.origin rx.old) (R.origin rx.new) result }
{
    match read_message(alloc, rx, waited, patience) {
        Heard::Whole(f, waits) => {
            let tag = f.tag;
            match x.take(f) {
                Ok(()) => Step::On(waits),
                Err(_) => Step::Lost(tag, waits),
            }
        }
        Heard::Lost(tag, waits) => Step::Lost(tag, waits),
        Heard::Cut(c) => Step::Cut(c),
    }
}

/// Sends what is to be sent.
fn send<K: Sink>(x: &mut Exchange, tx: &mut K) -> Sent
    requires { IsSending (wants (stage_of x.old)) }
    ensures { Sends x.old x.new (K.target tx.old) (K.target tx.new) result }
{
    match x.text() {
        Ok(text) => {
            if !write_all(tx, text.as_slice()) {
                return Sent::Failed;
            }
            x.sent();
            Sent::Sent
        }
        Err(_) => Sent::NoMemory,
    }
}

/// Reads messages of just these types, in turn, and drops them.
pub(crate) fn drain<R: Source>(
    rx: &mut R,
    due: &[u8],
    waited: u64,
    patience: u64,
) -> Result<u64, Cut>
    requires { waited + 1 ≤ patience }
    ensures { Drains due.now waited patience (R.origin rx.old) (R.origin rx.new) result }
{
    let mut waits = waited;
    for i in 0..due.len() {
        match skip_message(rx, waits, patience) {
            Ok((tag, w)) => {
                if tag != due[i] {
                    return Err(Cut::Strayed(tag));
                }
                waits = w;
            }
            Err(c) => return Err(c),
        }
    }
    Ok(waits)
}

/// The same, where a message of this type came already in the first one's place.
fn drain_behind<R: Source>(
    rx: &mut R,
    tag: u8,
    due: &[u8],
    waited: u64,
    patience: u64,
) -> Result<u64, Cut>
    requires some { 0 < length due.now }
    requires patient { waited + 1 ≤ patience }
    ensures { DrainsBehind tag due.now waited patience (R.origin rx.old) (R.origin rx.new) result }
{
    if tag != due[0] {
        return Err(Cut::Strayed(tag));
    }
    drain(rx, &due[1..], waited, patience)
}

/// The end of a drain.
fn lost_or(r: Result<u64, Cut>) -> End
    ensures { result ≡ end_of r }
{
    match r {
        Ok(_) => End::Lost,
        Err(c) => End::Cut(c),
    }
}

/// Hears the old pod's reply. Where memory runs out the rest is read and dropped.
pub(crate) fn hear_old<R: Source>(alloc: Global, x: &mut Exchange, rx: &mut R, patience: u64) -> End
    requires patient { 1 ≤ patience }
    requires asked { stage_of x.old ≡ stages.OldColumns }
    ensures { OldEnds x.old x.new patience (R.origin rx.old) (R.origin rx.new) result }
{
    let mut waits = 0;
    for at in 0..4usize {
        match hear(alloc, x, rx, waits, patience) {
            Step::On(w) => {
                waits = w;
                if x.want() != Want::AwaitOld {
                    return End::Heard;
                }
            }
            Step::Lost(tag, w) => return lost_or(drain_behind(rx, tag, &DUE[at..], w, patience)),
            Step::Cut(c) => return End::Cut(c),
        }
    }
    unreachable!()
}

/// Hears the new pod for as long as it is awaited.
fn hear_new<R: Source>(
    alloc: Global,
    x: &mut Exchange,
    rx: &mut R,
    waited: u64,
    patience: u64,
) -> Run
    requires { waited + 1 ≤ patience }
    ensures same { x.new ≡ goes x.old (stage_of x.new) }
    ensures runs { Runs waited patience x.old x.new (R.origin rx.old) (R.origin rx.new) result }
{
    let mut waits = waited;
    while x.want() == Want::AwaitNew {
        match hear(alloc, x, rx, waits, patience) {
            Step::On(w) => waits = w,
            Step::Lost(_, _) => return Run::Lost,
            Step::Cut(c) => return Run::Cut(c),
        }
    }
    Run::On(waits)
}

/// Sends what is to be sent, and hears what comes back.
fn talk<K: Sink, R: Source>(
    alloc: Global,
    x: &mut Exchange,
    tx: &mut K,
    rx: &mut R,
    waited: u64,
    patience: u64,
) -> Run
    requires patient { waited + 1 ≤ patience }
    requires sends { IsSending (wants (stage_of x.old)) }
    ensures same { x.new ≡ goes x.old (stage_of x.new) }
    ensures talks { Talks waited patience x.old x.new (K.target tx.old) (K.target tx.new)
        (R.origin rx.old) (R.origin rx.new) result }
{
    match send(x, tx) {
        Sent::Sent => hear_new(alloc, x, rx, waited, patience),
        Sent::NoMemory => Run::Lost,
        Sent::Failed => Run::Cut(Cut::WriteFault),
    }
}

/// Opens the session at the new pod: the startup packet, its greeting, the restore Query, and its reply.
pub(crate) fn meet<K: Sink, R: Source>(
    alloc: Global,
    x: &mut Exchange,
    tx: &mut K,
    rx: &mut R,
    patience: u64,
) -> End
    requires patient { 1 ≤ patience }
    requires sends { IsSending (wants (stage_of x.old)) }
    ensures same { x.new ≡ goes x.old (stage_of x.new) }
    ensures meets { (state token : List ℕ) → stage_of x.old ≡ stages.Packet state token
        → Meets (key_of x.old) (params_of x.old) state token patience (K.target tx.old) (K.target tx.new)
        (R.origin rx.old) (R.origin rx.new) (stage_of x.new) result }
{
    match talk(alloc, x, tx, rx, 0, patience) {
        Run::On(waits) => {
            if x.want() != Want::SendNew {
                return End::Heard;
            }
            match talk(alloc, x, tx, rx, waits, patience) {
                Run::On(_) => End::Heard,
                Run::Lost => End::Lost,
                Run::Cut(c) => End::Cut(c),
            }
        }
        Run::Lost => End::Lost,
        Run::Cut(c) => End::Cut(c),
    }
}
