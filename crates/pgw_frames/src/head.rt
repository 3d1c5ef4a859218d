//! What the head of a frame says of the bytes at the front.

ghost use Rattle.std.specs.Prelude.{◌≡◌};
ghost use Rattle.pgw_frames.specs.Heads.{HeadIs};

/// What stands at the front.
#[derive(Clone, Copy, Debug)]
pub(crate) enum Head {
    /// A whole frame of so many bytes, type byte and length included.
    Whole(usize),
    /// No whole frame yet.
    Need,
    /// A length that begins no frame.
    BadLength(u32),
}

/// What stands at the front of these bytes. It reads five bytes at most.
#[tactic(auto, unfolding(crate::specs::Frames::front))]
pub(crate) fn head_of(bytes: &[u8]) -> Head
    ensures { HeadIs result bytes.now }
{
    if bytes.len() < 5 {
        return Head::Need;
    }
    let length = u32::from_be_bytes([bytes[1], bytes[2], bytes[3], bytes[4]]);
    if length < 4 || length > 16_777_220 {
        return Head::BadLength(length);
    }
    let count = length as usize + 1;
    if bytes.len() < count {
        return Head::Need;
    }
    Head::Whole(count)
}
