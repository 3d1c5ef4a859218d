//! Bind.

ghost use Rattle.std.specs.Prelude.{◌≡◌, ◌≤◌, ◌++◌, length, OnOk};
ghost use Rattle.pgw_messages.specs.Reading.{Reads};
ghost use Rattle.pgw_messages.specs.Frontend.{bind_at, bind_bytes, IsBind, CanWriteFront};
ghost use Rattle.pgw_messages.specs.declared.frontend.message.FrontMsg.TheVariants as front;

use crate::fault::MsgFault;
use crate::numbers::Formats;
use crate::reader::Reader;
use crate::values::Row;
use crate::writer::Writer;
use pgw_frames::{Bytes, NoMemory, Text};

/// Binds values to a prepared statement, which makes a portal.
#[derive(Debug, Drop)]
pub struct BindMsg {
    /// The portal's name, which is empty for the unnamed one.
    pub portal: Text,
    /// The statement's name, which is empty for the unnamed one.
    pub statement: Text,
    /// Of the values: none where all are text, one for all, or one each.
    pub formats: Formats,
    pub values: Row,
    /// Of the columns of the result, as `formats`.
    pub results: Formats,
}

impl BindMsg {
    pub(crate) fn read(r: &mut Reader<'_>) -> Result<BindMsg, MsgFault>
        ensures { Reads result r.new (bind_at r.old) }
    {
        let portal = r.text()?;
        let statement = r.text()?;
        let formats = r.list::<u16>()?;
        let values = r.list::<Option<Bytes>>()?;
        let results = r.list::<u16>()?;
        Ok(BindMsg {
            portal,
            statement,
            formats,
            values,
            results,
        })
    }

    pub(crate) fn write(&self, w: &mut Writer) -> Result<(), NoMemory>
        ensures bytes { OnOk result (w.new ≡ w.old ++ bind_bytes self.now) }
        ensures good { CanWriteFront (front.Bind self.now) → OnOk result (IsBind self.now) }
    {
        w.text(&self.portal)?;
        w.text(&self.statement)?;
        w.list(&self.formats)?;
        w.list(&self.values)?;
        w.list(&self.results)?;
        Ok(())
    }
}
