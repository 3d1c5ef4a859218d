//! A parameter, as the startup packet and ParameterStatus hold it.

ghost use Rattle.std.specs.Prelude.{◌≡◌, ◌++◌, OnOk};
ghost use Rattle.pgw_messages.specs.Reading.{Reads};
ghost use Rattle.pgw_messages.specs.Startup.{pair_at, pair_bytes, IsPair};
ghost use Rattle.pgw_messages.specs.Spelling.{HasNoZero};

use crate::fault::MsgFault;
use crate::params::Pair;
use crate::reader::Reader;
use crate::writer::Writer;
use pgw_frames::NoMemory;

impl Pair {
    pub(crate) fn read(r: &mut Reader<'_>) -> Result<Pair, MsgFault>
        ensures { Reads result r.new (pair_at r.old) }
    {
        let name = r.text()?;
        let value = r.text()?;
        Ok(Pair { name, value })
    }

    pub(crate) fn write(&self, w: &mut Writer) -> Result<(), NoMemory>
        ensures bytes { OnOk result (w.new ≡ w.old ++ pair_bytes self.now) }
        ensures good { OnOk result (HasNoZero self.now.name → HasNoZero self.now.value → IsPair self.now) }
    {
        w.text(&self.name)?;
        w.text(&self.value)?;
        Ok(())
    }
}
