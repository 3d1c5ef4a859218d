//! Execute.

ghost use Rattle.std.specs.Prelude.{◌≡◌, ◌++◌, OnOk};
ghost use Rattle.pgw_messages.specs.Reading.{Reads};
ghost use Rattle.pgw_messages.specs.Frontend.{execute_at, execute_bytes, IsExecute};
ghost use Rattle.pgw_messages.specs.Spelling.{HasNoZero};

use crate::fault::MsgFault;
use crate::reader::Reader;
use crate::writer::Writer;
use pgw_frames::{NoMemory, Text};

/// Runs a portal.
#[derive(Debug, Drop)]
pub struct ExecuteMsg {
    /// The portal's name, which is empty for the unnamed one.
    pub portal: Text,
    /// The most rows to reply, or 0 for all.
    pub most: u32,
}

impl ExecuteMsg {
    pub(crate) fn read(r: &mut Reader<'_>) -> Result<ExecuteMsg, MsgFault>
        ensures { Reads result r.new (execute_at r.old) }
    {
        let portal = r.text()?;
        let most = r.u32()?;
        Ok(ExecuteMsg { portal, most })
    }

    pub(crate) fn write(&self, w: &mut Writer) -> Result<(), NoMemory>
        ensures bytes { OnOk result (w.new ≡ w.old ++ execute_bytes self.now) }
        ensures good { OnOk result (HasNoZero self.now.portal → IsExecute self.now) }
    {
        w.text(&self.portal)?;
        w.u32(self.most)?;
        Ok(())
    }
}
