//! A whole stream, in whatever pieces it comes.

ghost use Rattle.std.specs.Prelude.{◌≡◌, ◌++◌, OnOk, IfOk, flat_map};
ghost use Rattle.pgw_frames.specs.Frames.{frames, rest, bad};

use crate::bytes::Bytes;
use crate::cutter::{Cutter, Next};
use crate::frame::Frames;
use crate::memory::NoMemory;
use std::alloc::Global;

/// What a stream is cut into.
#[derive(Debug, Drop)]
pub struct Cuts {
    pub frames: Frames,
    /// The length behind these frames, where it begins no frame.
    pub bad: Option<u32>,
}

/// Takes all whole frames from the cutter, and says whether a length that begins none stands behind
/// them. After an `Err` both are given up.
fn take_frames(cutter: &mut Cutter, out: &mut Frames) -> Result<Option<u32>, NoMemory>
    ensures taken { OnOk result (out.new ≡ out.old ++ frames cutter.old) }
    ensures left { OnOk result (cutter.new ≡ rest cutter.old) }
    ensures bad { IfOk result (λ n. n ≡ bad cutter.old) }
{
    loop {
        match cutter.next()? {
            Next::Frame(f) => out.push(f)?,
            Next::Need => return Ok(None),
            Next::BadLength(n) => return Ok(Some(n)),
        }
    }
}

/// The frames of a stream that comes in these pieces.
pub fn cut_all(alloc: Global, pieces: &[Bytes]) -> Result<Cuts, NoMemory>
    ensures frames { IfOk result (λ c. c.frames ≡ frames (flat_map (λ p. p) pieces.now)) }
    ensures bad { IfOk result (λ c. c.bad ≡ bad (flat_map (λ p. p) pieces.now)) }
{
    let mut cutter = Cutter::new(alloc);
    let mut frames = Frames::new(alloc);
    let mut bad = None;
    for piece in pieces {
        cutter.feed(piece.as_slice())?;
        bad = take_frames(&mut cutter, &mut frames)?;
    }
    Ok(Cuts { frames, bad })
}
