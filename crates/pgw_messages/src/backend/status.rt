//! What a server tells of its session: BackendKeyData and ReadyForQuery.

ghost use Rattle.std.specs.Prelude.{◌≡◌, ◌++◌, OnOk};
ghost use Rattle.pgw_messages.specs.Reading.{Reads};
ghost use Rattle.pgw_messages.specs.Backend.{key_at, key_bytes, ready_at, IsKey};

use crate::fault::MsgFault;
use crate::pod_key::PodKey;
use crate::reader::Reader;
use crate::writer::Writer;
use pgw_frames::NoMemory;

pub(crate) fn read_key(r: &mut Reader<'_>) -> Result<PodKey, MsgFault>
    ensures { Reads result r.new (key_at r.old) }
{
    let process = r.u32()?;
    let secret = r.u32()?;
    Ok(PodKey { process, secret })
}

pub(crate) fn write_key(key: &PodKey, w: &mut Writer) -> Result<(), NoMemory>
    ensures bytes { OnOk result (w.new ≡ w.old ++ key_bytes key.now) }
    ensures good { OnOk result (IsKey key.now) }
{
    w.u32(key.process)?;
    w.u32(key.secret)?;
    Ok(())
}

/// Reads the state of the transaction: `I` for none, `T` inside one, `E` inside a failed one.
pub(crate) fn read_ready(r: &mut Reader<'_>) -> Result<u8, MsgFault>
    ensures { Reads result r.new (ready_at r.old) }
{
    let state = r.u8()?;
    if state != b'I' && state != b'T' && state != b'E' {
        return Err(MsgFault::BadValue);
    }
    Ok(state)
}
