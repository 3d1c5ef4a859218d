//! NotificationResponse.

ghost use Rattle.std.specs.Prelude.{◌≡◌, ◌++◌, OnOk};
ghost use Rattle.pgw_messages.specs.Reading.{Reads};
ghost use Rattle.pgw_messages.specs.Backend.{notify_at, notify_bytes, IsNotify};
ghost use Rattle.pgw_messages.specs.Spelling.{HasNoZero};

use crate::fault::MsgFault;
use crate::reader::Reader;
use crate::writer::Writer;
use pgw_frames::{NoMemory, Text};

/// A notification of a channel that the client listens to.
#[derive(Debug, Drop)]
pub struct NotifyMsg {
    /// The process that notified.
    pub process: u32,
    pub channel: Text,
    pub payload: Text,
}

impl NotifyMsg {
    pub(crate) fn read(r: &mut Reader<'_>) -> Result<NotifyMsg, MsgFault>
        ensures { Reads result r.new (notify_at r.old) }
    {
        let process = r.u32()?;
        let channel = r.text()?;
        let payload = r.text()?;
        Ok(NotifyMsg {
            process,
            channel,
            payload,
        })
    }

    pub(crate) fn write(&self, w: &mut Writer) -> Result<(), NoMemory>
        ensures bytes { OnOk result (w.new ≡ w.old ++ notify_bytes self.now) }
        ensures good { OnOk result (HasNoZero self.now.channel → HasNoZero self.now.payload → IsNotify self.now) }
    {
        w.u32(self.process)?;
        w.text(&self.channel)?;
        w.text(&self.payload)?;
        Ok(())
    }
}
