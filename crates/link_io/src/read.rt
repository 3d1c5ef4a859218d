//! Reading just so many bytes.

ghost use Rattle.std.specs.Prelude.{◌≤◌, ◌+◌};
ghost use Rattle.link_io.specs.Reading.{ReadsExactly};

use proxy_outside::{Source, Took};

/// Why fewer bytes were read than were wanted.
#[derive(Clone, Copy, Debug, PartialEq, Eq)]
pub enum ReadCut {
    /// The source failed.
    Fault,
    /// The source ended.
    Ended,
    /// The source was idle so often, reads before this one included.
    Late(u64),
}

/// Fills the buffer, and reads no byte more. The source was idle `waited` times before; once it is so
/// `patience` times over all, reading is given up. The answer is how often it was.
pub fn read_exact<R: Source>(
    rx: &mut R,
    buf: &mut [u8],
    waited: u64,
    patience: u64,
) -> Result<u64, ReadCut>
    requires { waited + 1 ≤ patience }
    ensures { ReadsExactly waited patience buf.new (R.origin rx.old) (R.origin rx.new) result }
{
    let mut at = 0;
    let mut waits = waited;
    while at < buf.len() {
        match rx.read(&mut buf[at..]) {
            Took::Got(n) => at += n,
            Took::End => return Err(ReadCut::Ended),
            Took::Failed => return Err(ReadCut::Fault),
            Took::Idle => {
                waits += 1;
                if waits >= patience {
                    return Err(ReadCut::Late(waits));
                }
            }
        }
    }
    Ok(waits)
}
