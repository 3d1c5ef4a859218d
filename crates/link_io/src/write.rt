//! Writing all of some bytes.

ghost use Rattle.std.specs.Prelude.{◌≡◌, ◌+◌, ◌∷◌, length};
ghost use Rattle.std.specs.Int.{w32, to_be_bytes};
ghost use Rattle.pgw_frames.specs.Frames.{IsGood, frame_bytes};
ghost use Rattle.link_io.specs.Writing.{WritesAll};

use pgw_frames::Frame;
use proxy_outside::{Gave, Sink};

/// Writes all bytes, and says whether it did. Otherwise the sink failed, and holds a part of them.
pub fn write_all<K: Sink>(sink: &mut K, bytes: &[u8]) -> bool
    ensures { WritesAll result (K.target sink.old) (K.target sink.new) bytes.now }
{
    let mut at = 0;
    while at < bytes.len() {
        match sink.write(&bytes[at..]) {
            Gave::Took(n) => at += n,
            Gave::Failed => return false,
        }
    }
    true
}

/// The type byte and the length of a message, which counts itself and the body (PostgreSQL manual, "Message
/// Formats").
fn head_of(f: &Frame) -> [u8; 5]
    requires { IsGood f.now }
    ensures { result ≡ f.now.tag ∷ to_be_bytes w32 (length f.now.body + 4) }
{
    let l = (f.body.len() as u32 + 4).to_be_bytes();
    [f.tag, l[0], l[1], l[2], l[3]]
}

/// Writes a message whole, in one write for its head and one for its body where the sink takes as much, and
/// says whether it did. Otherwise the sink failed, and holds a part of it.
pub fn write_message<K: Sink>(sink: &mut K, f: &Frame) -> bool
    requires { IsGood f.now }
    ensures { WritesAll result (K.target sink.old) (K.target sink.new) (frame_bytes f.now) }
{
    if !write_all(sink, &head_of(f)) {
        return false;
    }
    write_all(sink, f.body.as_slice())
}
