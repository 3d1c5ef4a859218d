//! Frames and lists of frames.

ghost use Rattle.std.specs.Prelude.{◌≡◌, ◌==◌, ◌≤◌, [], ◌∷◌, ◌++◌, length, OnOk, OnErr, IfOk, slice_get, option_map};
ghost use Rattle.std.specs.Option.{option_copied};
ghost use Rattle.pgw_frames.specs.Frames.{frame_bytes};

use crate::bytes::Bytes;
use crate::memory::NoMemory;
use std::alloc::Global;
use std::marker::Model;

/// The most bytes that the body of a frame may have.
pub const MOST_BODY: usize = 16_777_216;

/// A message as it stands on the wire: its type byte, and the bytes behind the length.
#[derive(Debug, Drop)]
pub struct Frame {
    pub tag: u8,
    pub body: Bytes,
}

/// A list of frames.
#[derive(Debug, Drop)]
pub struct Frames {
    items: Vec<Frame>,
}

impl Model for Frames {
    ghost use Rattle.std.specs.Prelude.{List};
    ghost use Rattle.pgw_frames.specs.declared.frame.Frame.{Frame};

    ghost Value = { List Frame };

    ghost view = { λ f. f.items.items };
}

impl Frames {
    /// The empty list. It takes no memory.
    pub fn new(alloc: Global) -> Frames
        ensures { result ≡ [] }
    {
        Frames {
            items: Vec::new(alloc),
        }
    }

    /// Takes a vector over, without a copy.
    pub fn from_vec(items: Vec<Frame>) -> Frames
        ensures { result ≡ items.items }
    {
        Frames { items }
    }

    /// Gives the vector back, without a copy.
    pub fn into_vec(self) -> Vec<Frame>
        ensures { result.items ≡ self }
    {
        self.items
    }

    /// Adds a frame at the end. An `Err` changes nothing.
    pub fn push(&mut self, f: Frame) -> Result<(), NoMemory>
        ensures ok { OnOk result (self.new ≡ self.old ++ f ∷ []) }
        ensures err { OnErr result (self.new ≡ self.old) }
    {
        self.items.push(f)?;
        Ok(())
    }

    pub fn len(&self) -> usize
        ensures { result ≡ length self.now }
    {
        self.items.len()
    }

    pub fn is_empty(&self) -> bool
        ensures { result ≡ (length self.now == 0) }
    {
        self.items.is_empty()
    }

    pub fn as_slice(&self) -> &[Frame]
        ensures { result.now ≡ self.now }
    {
        self.items.as_slice()
    }

    /// The frame at this place, counted from 0.
    pub fn get(&self, i: usize) -> Option<&Frame>
        ensures { option_copied result ≡ slice_get self.now i }
    {
        self.items.get(i)
    }
}

/// Appends type byte, length and body. An `Err` changes nothing.
pub fn write_frame(f: &Frame, out: &mut Bytes) -> Result<(), NoMemory>
    requires { length f.now.body ≤ MOST_BODY }
    ensures ok { OnOk result (out.new ≡ out.old ++ frame_bytes f.now) }
    ensures err { OnErr result (out.new ≡ out.old) }
{
    out.append_frame(f.tag, f.body.as_slice())
}
