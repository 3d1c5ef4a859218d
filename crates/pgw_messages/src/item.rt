//! What can stand in a list of a message.

ghost use Rattle.std.specs.Prelude.{◌≡◌, ◌++◌, OnOk};
ghost use Rattle.pgw_messages.specs.Reading.{Reads};

use crate::fault::MsgFault;
use crate::reader::Reader;
use crate::writer::Writer;
use pgw_frames::NoMemory;

/// An item with its layout, both ways.
pub(crate) trait Item: Drop {
    ghost use Rattle.std.specs.Prelude.{List, ℕ};
    ghost use Rattle.pgw_messages.specs.Reading.{Read};

    /// How the item is read from the bytes that are left.
    ghost at: { List ℕ → Read Self };

    /// The item's bytes.
    ghost bytes: { Self → List ℕ };

    /// What is so of each item that is written, for it to be read again.
    ghost IsGood: { Self → Type 0 };

    fn read(r: &mut Reader<'_>) -> Result<Self, MsgFault>
        ensures { Reads result r.new (at r.old) };

    fn write(&self, w: &mut Writer) -> Result<(), NoMemory>
        ensures bytes { OnOk result (w.new ≡ w.old ++ bytes self.now) }
        ensures good { OnOk result (IsGood self.now) };
}
