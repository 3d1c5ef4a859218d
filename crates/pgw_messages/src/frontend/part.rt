//! What Describe and Close name.

ghost use Rattle.std.specs.Prelude.{◌≡◌, ◌++◌, true, OnOk};
ghost use Rattle.pgw_messages.specs.Reading.{Reads};
ghost use Rattle.pgw_messages.specs.Frontend.{part_at, part_bytes, is_part, IsPart};
ghost use Rattle.pgw_messages.specs.Spelling.{HasNoZero};

use crate::fault::MsgFault;
use crate::reader::Reader;
use crate::writer::Writer;
use pgw_frames::{NoMemory, Text};

/// A statement or a portal.
#[derive(Debug, Drop)]
pub struct Part {
    /// `S` for a statement, `P` for a portal.
    pub kind: u8,
    /// Its name, which is empty for the unnamed one.
    pub name: Text,
}

impl Part {
    pub(crate) fn read(r: &mut Reader<'_>) -> Result<Part, MsgFault>
        ensures { Reads result r.new (part_at r.old) }
    {
        let kind = r.u8()?;
        if kind != b'S' && kind != b'P' {
            return Err(MsgFault::BadValue);
        }
        let name = r.text()?;
        Ok(Part { kind, name })
    }

    pub(crate) fn write(&self, w: &mut Writer) -> Result<(), NoMemory>
        ensures bytes { OnOk result (w.new ≡ w.old ++ part_bytes self.now) }
        ensures good { OnOk result (is_part self.now.kind ≡ true → HasNoZero self.now.name → IsPart self.now) }
    {
        w.u8(self.kind)?;
        w.text(&self.name)?;
        Ok(())
    }
}
