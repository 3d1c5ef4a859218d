//! Reading the text of settings to its end.

ghost use Rattle.std.specs.Prelude.{◌≡◌, ◌<◌, length, vec_len, IfOk};
ghost use Rattle.settings_check.specs.Inputs.{ReadsText};

use pgw_frames::{Bytes, NoMemory};
use proxy_outside::{Source, Took};
use std::alloc::Global;

/// The most bytes of settings.
const MOST_BYTES: usize = 1_048_576;

/// How many bytes one read asks for.
const PIECE: usize = 4096;

/// How many idle reads are too many.
const MOST_WAITS: u64 = 1000;

/// How reading went.
#[derive(Debug, Drop)]
pub enum Input {
    /// The source ended, and these are all bytes that were taken from it.
    All(Bytes),
    /// A read failed.
    ReadFault,
    /// More than 1,048,576 bytes were taken.
    TooLong,
    /// So many reads were idle before the source ended.
    Late(u64),
    /// Memory ran out. At most 1,048,576 bytes were taken.
    NoMemory,
}

fn room(alloc: Global) -> Result<Vec<u8>, NoMemory>
    ensures { IfOk result (λ v. vec_len v ≡ 4096) }
{
    Ok(vec![in alloc; 0u8; PIECE]?)
}

fn read_pieces<S: Source>(alloc: Global, source: &mut S, buf: &mut [u8]) -> Input
    requires { 0 < length buf.old }
    ensures text { ReadsText result (S.origin source.old) (S.origin source.new) }
{
    let mut bytes = Bytes::new(alloc);
    let mut waits = 0u64;
    'pieces: while waits < MOST_WAITS {
        match source.read(buf) {
            Took::End => return Input::All(bytes),
            Took::Failed => return Input::ReadFault,
            Took::Idle => waits += 1,
            Took::Got(n) => {
                if n > MOST_BYTES - bytes.len() {
                    return Input::TooLong;
                }
                if bytes.extend(&buf[..n]).is_err() {
                    return Input::NoMemory;
                }
            }
        }
    }
    Input::Late(MOST_WAITS)
}

/// Reads the text of settings to its end. It gives up at the first read that fails, at the 1,000th that is
/// idle, and at the first byte past 1,048,576.
pub fn read_text<S: Source>(alloc: Global, source: &mut S) -> Input
    ensures text { ReadsText result (S.origin source.old) (S.origin source.new) }
{
    match room(alloc) {
        Ok(mut buf) => read_pieces(alloc, source, buf.as_mut_slice()),
        Err(_) => Input::NoMemory,
    }
}
