//! Parse.

ghost use Rattle.std.specs.Prelude.{◌≡◌, ◌≤◌, ◌++◌, length, OnOk};
ghost use Rattle.pgw_messages.specs.Reading.{Reads};
ghost use Rattle.pgw_messages.specs.Frontend.{parse_at, parse_bytes, IsParse};
ghost use Rattle.pgw_messages.specs.Spelling.{HasNoZero};

use crate::fault::MsgFault;
use crate::numbers::Types;
use crate::reader::Reader;
use crate::writer::Writer;
use pgw_frames::{NoMemory, Text};

/// Prepares a statement.
#[derive(Debug, Drop)]
pub struct ParseMsg {
    /// The statement's name, which is empty for the unnamed one.
    pub name: Text,
    pub query: Text,
    /// The types of the first parameters. A type 0 is left open.
    pub types: Types,
}

impl ParseMsg {
    pub(crate) fn read(r: &mut Reader<'_>) -> Result<ParseMsg, MsgFault>
        ensures { Reads result r.new (parse_at r.old) }
    {
        let name = r.text()?;
        let query = r.text()?;
        let types = r.list::<u32>()?;
        Ok(ParseMsg { name, query, types })
    }

    pub(crate) fn write(&self, w: &mut Writer) -> Result<(), NoMemory>
        ensures bytes { OnOk result (w.new ≡ w.old ++ parse_bytes self.now) }
        ensures good { HasNoZero self.now.name → HasNoZero self.now.query → length self.now.types ≤ 65535 → OnOk result (IsParse self.now) }
    {
        w.text(&self.name)?;
        w.text(&self.query)?;
        w.list(&self.types)?;
        Ok(())
    }
}
