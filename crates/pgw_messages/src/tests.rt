mod backend;
mod frontend;
mod startup;
mod views;

use crate::{MsgFault, read_back, read_front};
use pgw_frames::{Bytes, Frame, MOST_BODY, NoMemory, write_frame};
use std::alloc::Global;
use std::process::Abort;
use std::test::*;

/// Who sends a message.
#[derive(Clone, Copy)]
enum Side {
    Client,
    Server,
}

/// The fault of a message of this type and body.
fn fault_of(alloc: Global, side: Side, tag: u8, body: Result<Bytes, NoMemory>) -> Option<MsgFault> {
    let Ok(body) = body else {
        return Some(MsgFault::NoMemory);
    };
    let frame = Frame { tag, body };
    match side {
        Side::Client => read_front(alloc, &frame).err(),
        Side::Server => read_back(alloc, &frame).err(),
    }
}

fn fault(alloc: Global, side: Side, tag: u8, body: &[u8]) -> Option<MsgFault> {
    fault_of(alloc, side, tag, Bytes::of(alloc, body))
}

/// Messages that are whole: each cut is short, and one byte more is trailing.
fn expect_whole(rt: &impl Abort, alloc: Global, side: Side, rows: &[(u8, &[u8])]) {
    for (tag, body) in rows {
        assert_eq!(rt; fault(alloc, side, *tag, body), None, "{tag} {body:?}");
        for len in 0..body.len() {
            let cut = fault(alloc, side, *tag, &body[..len]);
            assert_eq!(rt; cut, Some(MsgFault::Short), "{tag} {body:?} {len}");
        }
        let more = fault_of(alloc, side, *tag, longer(alloc, body));
        assert_eq!(rt; more, Some(MsgFault::Trailing), "{tag} {body:?}");
    }
}

/// Messages, and what is wrong with each.
fn expect_faults(
    rt: &impl Abort,
    alloc: Global,
    side: Side,
    rows: &[(u8, &[u8], Option<MsgFault>)],
) {
    for (tag, body, want) in rows {
        assert_eq!(rt; fault(alloc, side, *tag, body), *want, "{tag} {body:?}");
    }
}

/// Messages that are whole, the place of the last byte of a count or length of each, and the faults with
/// one more and one less there.
fn expect_counts(
    rt: &impl Abort,
    alloc: Global,
    side: Side,
    rows: &[(u8, &[u8], usize, MsgFault, MsgFault)],
) {
    for (tag, body, place, more, less) in rows {
        assert_eq!(rt; fault(alloc, side, *tag, body), None, "{tag} {body:?}");
        for (by, want) in [(1, *more), (255, *less)] {
            let fault = fault_of(alloc, side, *tag, changed(alloc, body, *place, by));
            assert_eq!(rt; fault, Some(want), "{tag} {body:?} {place} {by}");
        }
    }
}

/// The bytes with this much more at a place, modulo 256.
fn changed(alloc: Global, bytes: &[u8], place: usize, more: u8) -> Result<Bytes, NoMemory> {
    let mut changed = Vec::from_slice(alloc, bytes)?;
    if let Some(byte) = changed.get_mut(place) {
        *byte = byte.wrapping_add(more);
    }
    Ok(Bytes::from_vec(changed))
}

/// The bytes, and a zero byte behind them.
fn longer(alloc: Global, bytes: &[u8]) -> Result<Bytes, NoMemory> {
    let mut longer = Bytes::of(alloc, bytes)?;
    longer.extend(b"\0")?;
    Ok(longer)
}

/// The bytes of a frame as it goes out.
fn wire(alloc: Global, frame: &Frame) -> Result<Bytes, NoMemory> {
    let mut out = Bytes::new(alloc);
    if frame.body.len() <= MOST_BODY {
        write_frame(frame, &mut out)?;
    }
    Ok(out)
}

/// Whether the frame goes out so.
fn goes_out(alloc: Global, frame: Result<Frame, NoMemory>, want: &[u8]) -> Result<bool, NoMemory> {
    let frame = frame?;
    let out = wire(alloc, &frame);
    drop(frame);
    Ok(out?.as_slice() == want)
}
