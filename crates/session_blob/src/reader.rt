//! Reading the parts of a blob from left to right.

ghost use Rattle.std.specs.Prelude.{◌≡◌};
ghost use Rattle.std.specs.Int.{w16, w32};
ghost use Rattle.pgw_messages.specs.Reading.{Gives, ReadsAs, Reads, taken, byte_at, number_at, ended};
ghost use Rattle.session_blob.specs.Reading.{sized_at, version_at};

use pgw_messages::MsgFault;
use std::marker::Model;
use std::str;

/// The bytes that are still to be read. Contracts see them as a list.
#[derive(Drop)]
pub(crate) struct Reader<'a> {
    rest: &'a [u8],
}

impl<'a> Model for Reader<'a> {
    ghost use Rattle.std.specs.Prelude.{List, ℕ};

    ghost Value = { List ℕ };

    ghost view = { λ r. r.rest.now };
}

impl<'a> Reader<'a> {
    pub(crate) fn new(rest: &'a [u8]) -> Reader<'a>
        ensures { result ≡ rest.now }
    {
        Reader { rest }
    }

    /// Takes as many bytes as the array has.
    fn chunk<const N: usize>(&mut self) -> Result<[u8; N], MsgFault>
        ensures { Reads result self.new (taken N self.old) }
    {
        let Some((front, rest)) = self.rest.split_first_chunk::<N>() else {
            return Err(MsgFault::Short);
        };
        self.rest = rest;
        Ok(*front)
    }

    /// Takes as many bytes as this says.
    fn slice(&mut self, count: usize) -> Result<&'a [u8], MsgFault>
        ensures { ReadsAs (λ s. s.now) result self.new (taken count self.old) }
    {
        let Some((front, rest)) = self.rest.split_at_checked(count) else {
            return Err(MsgFault::Short);
        };
        self.rest = rest;
        Ok(front)
    }

    fn u8(&mut self) -> Result<u8, MsgFault>
        ensures { Reads result self.new (byte_at self.old) }
    {
        let Some((front, rest)) = self.rest.split_first() else {
            return Err(MsgFault::Short);
        };
        self.rest = rest;
        Ok(*front)
    }

    pub(crate) fn u16(&mut self) -> Result<u16, MsgFault>
        ensures { Reads result self.new (number_at w16 self.old) }
    {
        let front = self.chunk::<2>()?;
        Ok(u16::from_be_bytes(front))
    }

    pub(crate) fn u32(&mut self) -> Result<u32, MsgFault>
        ensures { Reads result self.new (number_at w32 self.old) }
    {
        let front = self.chunk::<4>()?;
        Ok(u32::from_be_bytes(front))
    }

    /// The first byte, which is 1.
    pub(crate) fn version(&mut self) -> Result<u8, MsgFault>
        ensures { Reads result self.new (version_at self.old) }
    {
        let version = self.u8()?;
        if version != 1 {
            return Err(MsgFault::UnknownTag(version));
        }
        Ok(version)
    }

    /// A text behind its length.
    #[tactic(auto, unfolding(crate::specs::Reading::sized_at))]
    pub(crate) fn text(&mut self) -> Result<&'a str, MsgFault>
        ensures { ReadsAs (λ s. s.now) result self.new (sized_at self.old) }
    {
        let len = self.u32()?;
        let bytes = self.slice(len as usize)?;
        let Ok(text) = str::from_utf8(bytes) else {
            return Err(MsgFault::NotText);
        };
        Ok(text)
    }

    /// Refuses bytes that are left.
    pub(crate) fn finish(&self) -> Result<(), MsgFault>
        ensures { Gives result (ended self.now) }
    {
        if !self.rest.is_empty() {
            return Err(MsgFault::Trailing);
        }
        Ok(())
    }
}
