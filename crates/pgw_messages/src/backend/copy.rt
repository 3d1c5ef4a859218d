//! CopyInResponse.

ghost use Rattle.std.specs.Prelude.{◌≡◌, ◌≤◌, ◌++◌, length, OnOk};
ghost use Rattle.pgw_messages.specs.Reading.{Reads};
ghost use Rattle.pgw_messages.specs.Backend.{copy_at, copy_bytes, IsCopy};

use crate::fault::MsgFault;
use crate::numbers::Formats;
use crate::reader::Reader;
use crate::writer::Writer;
use pgw_frames::NoMemory;

/// The server is ready for the data of a copy.
#[derive(Debug, Drop)]
pub struct CopyMsg {
    /// Of the whole copy: 0 is text, 1 is binary.
    pub format: u8,
    /// Of each column.
    pub formats: Formats,
}

impl CopyMsg {
    pub(crate) fn read(r: &mut Reader<'_>) -> Result<CopyMsg, MsgFault>
        ensures { Reads result r.new (copy_at r.old) }
    {
        let format = r.u8()?;
        let formats = r.list::<u16>()?;
        Ok(CopyMsg { format, formats })
    }

    pub(crate) fn write(&self, w: &mut Writer) -> Result<(), NoMemory>
        ensures bytes { OnOk result (w.new ≡ w.old ++ copy_bytes self.now) }
        ensures good { length self.now.formats ≤ 65535 → OnOk result (IsCopy self.now) }
    {
        w.u8(self.format)?;
        w.list(&self.formats)?;
        Ok(())
    }
}
