//! Writing a report.

ghost use Rattle.std.specs.Prelude.{◌≡◌, ◌<◌, length};
ghost use Rattle.proxy_replay.specs.Outputs.{Writing};

use proxy_outside::{Gave, Sink};

/// Writes all bytes, in as many calls as it takes, and says whether no write failed.
pub fn write_all<K: Sink>(sink: &mut K, bytes: &[u8]) -> bool
    ensures writing { Writing result (K.target sink.old) (K.target sink.new) bytes.now }
{
    let mut rest = bytes;
    while !rest.is_empty() {
        match sink.write(rest) {
            Gave::Failed => return false,
            Gave::Took(n) => rest = rest.split_at(n).1,
        }
    }
    true
}
