//! Lists of numbers.

ghost use Rattle.std.specs.Prelude.{◌<◌, ◌^◌};
ghost use Rattle.std.specs.Int.{w16, w32, to_be_bytes};
ghost use Rattle.pgw_messages.specs.Reading.{number_at};

use crate::fault::MsgFault;
use crate::item::Item;
use crate::items::Items;
use crate::reader::Reader;
use crate::writer::Writer;
use pgw_frames::NoMemory;

/// Format codes: 0 is text, 1 is binary.
pub type Formats = Items<u16>;

/// Object ids of types.
pub type Types = Items<u32>;

impl Item for u16 {
    ghost at = { number_at w16 };

    ghost bytes = { to_be_bytes w16 };

    ghost IsGood = { λ n. n < 2 ^ 16 };

    fn read(r: &mut Reader<'_>) -> Result<u16, MsgFault> {
        r.u16()
    }

    fn write(&self, w: &mut Writer) -> Result<(), NoMemory> {
        w.u16(*self)
    }
}

impl Item for u32 {
    ghost at = { number_at w32 };

    ghost bytes = { to_be_bytes w32 };

    ghost IsGood = { λ n. n < 2 ^ 32 };

    fn read(r: &mut Reader<'_>) -> Result<u32, MsgFault> {
        r.u32()
    }

    fn write(&self, w: &mut Writer) -> Result<(), NoMemory> {
        w.u32(*self)
    }
}
