//! Reading the fields of a message from left to right.

ghost use Rattle.std.specs.Prelude.{◌≡◌};
ghost use Rattle.std.specs.Int.{w16, w32};
ghost use Rattle.pgw_messages.specs.Reading.{Gives, ReadsAs, Reads, taken, byte_at, number_at, signed_at, remaining_at, value_at, ended, zero_ended, text_at, end_at, many_at, list_at};

use crate::fault::MsgFault;
use crate::item::Item;
use crate::items::Items;
use crate::view::front::zero_ended;
use pgw_frames::{Bytes, Text};
use std::alloc::Global;
use std::marker::Model;
use std::str;

/// The bytes that are still to be read. Contracts see them as a list.
#[derive(Drop)]
pub(crate) struct Reader<'a> {
    alloc: Global,
    rest: &'a [u8],
}

impl<'a> Model for Reader<'a> {
    ghost use Rattle.std.specs.Prelude.{List, ℕ};

    ghost Value = { List ℕ };

    ghost view = { λ r. r.rest.now };
}

impl<'a> Reader<'a> {
    /// A reader of these bytes. What it copies of them takes memory of this allocator.
    pub(crate) fn new(alloc: Global, rest: &'a [u8]) -> Reader<'a>
        ensures { result ≡ rest.now }
    {
        Reader { alloc, rest }
    }

    pub(crate) fn allocator(&self) -> Global {
        self.alloc
    }

    /// Takes as many bytes as the array has.
    fn chunk<const N: usize>(&mut self) -> Result<[u8; N], MsgFault>
        ensures { Reads result self.new (taken N self.old) }
    {
        let Some((front, rest)) = self.rest.split_first_chunk::<N>() else {
            return Err(MsgFault::Short);
        };
        self.rest = rest;
        Ok(*front)
    }

    /// Takes as many bytes as this says.
    fn slice(&mut self, count: usize) -> Result<&'a [u8], MsgFault>
        ensures { ReadsAs (λ s. s.now) result self.new (taken count self.old) }
    {
        let Some((front, rest)) = self.rest.split_at_checked(count) else {
            return Err(MsgFault::Short);
        };
        self.rest = rest;
        Ok(front)
    }

    pub(crate) fn u8(&mut self) -> Result<u8, MsgFault>
        ensures { Reads result self.new (byte_at self.old) }
    {
        let Some((front, rest)) = self.rest.split_first() else {
            return Err(MsgFault::Short);
        };
        self.rest = rest;
        Ok(*front)
    }

    pub(crate) fn u16(&mut self) -> Result<u16, MsgFault>
        ensures { Reads result self.new (number_at w16 self.old) }
    {
        let front = self.chunk::<2>()?;
        Ok(u16::from_be_bytes(front))
    }

    pub(crate) fn u32(&mut self) -> Result<u32, MsgFault>
        ensures { Reads result self.new (number_at w32 self.old) }
    {
        let front = self.chunk::<4>()?;
        Ok(u32::from_be_bytes(front))
    }

    pub(crate) fn i16(&mut self) -> Result<i16, MsgFault>
        ensures { Reads result self.new (signed_at w16 self.old) }
    {
        let front = self.chunk::<2>()?;
        Ok(i16::from_be_bytes(front))
    }

    pub(crate) fn i32(&mut self) -> Result<i32, MsgFault>
        ensures { Reads result self.new (signed_at w32 self.old) }
    {
        let front = self.chunk::<4>()?;
        Ok(i32::from_be_bytes(front))
    }

    /// All bytes that are left.
    pub(crate) fn remaining(&mut self) -> Result<Bytes, MsgFault>
        ensures { Reads result self.new (remaining_at self.old) }
    {
        let (rest, nothing) = self.rest.split_at(self.rest.len());
        self.rest = nothing;
        Ok(Bytes::of(self.alloc, rest)?)
    }

    /// A length of 32 bits, and as many bytes; or -1, which stands for NULL.
    pub(crate) fn value(&mut self) -> Result<Option<Bytes>, MsgFault>
        ensures { Reads result self.new (value_at self.old) }
    {
        let len = self.i32()?;
        if len == -1 {
            return Ok(None);
        }
        if len < 0 {
            return Err(MsgFault::BadValue);
        }
        let value = self.slice(len as usize)?;
        Ok(Some(Bytes::of(self.alloc, value)?))
    }

    /// Refuses bytes that are left.
    pub(crate) fn finish(&self) -> Result<(), MsgFault>
        ensures { Gives result (ended self.now) }
    {
        if !self.rest.is_empty() {
            return Err(MsgFault::Trailing);
        }
        Ok(())
    }

    /// The bytes before the next zero byte.
    fn zero_ended(&mut self) -> Result<&'a [u8], MsgFault>
        ensures { ReadsAs (λ s. s.now) result self.new (zero_ended self.old) }
    {
        let Some((text, rest)) = zero_ended(self.rest) else {
            return Err(MsgFault::Short);
        };
        self.rest = rest;
        Ok(text)
    }

    /// A text, without its zero byte.
    #[tactic(auto, unfolding(crate::specs::Reading::text_at))]
    pub(crate) fn str(&mut self) -> Result<&'a str, MsgFault>
        ensures { ReadsAs (λ s. s.now) result self.new (text_at self.old) }
    {
        let bytes = self.zero_ended()?;
        let Ok(text) = str::from_utf8(bytes) else {
            return Err(MsgFault::NotText);
        };
        Ok(text)
    }

    /// A copy of a text, without its zero byte.
    pub(crate) fn text(&mut self) -> Result<Text, MsgFault>
        ensures { Reads result self.new (text_at self.old) }
    {
        let text = self.str()?;
        Ok(Text::of(self.alloc, text)?)
    }

    /// Takes the zero byte that ends a list, and says whether it stood there.
    pub(crate) fn ends(&mut self) -> Result<bool, MsgFault>
        ensures { Reads result self.new (end_at self.old) }
    {
        let Some((front, rest)) = self.rest.split_first() else {
            return Err(MsgFault::Short);
        };
        if *front == 0 {
            self.rest = rest;
            return Ok(true);
        }
        Ok(false)
    }

    /// So many items.
    fn many<T: Item>(&mut self, count: u16) -> Result<Items<T>, MsgFault>
        ensures { Reads result self.new (many_at T.at count self.old) }
    {
        let mut items = Items::new(self.alloc);
        for _ in 0..count {
            items.push(T::read(self)?)?;
        }
        Ok(items)
    }

    /// A count of 16 bits, and as many items.
    #[tactic(auto, unfolding(crate::specs::Reading::list_at))]
    pub(crate) fn list<T: Item>(&mut self) -> Result<Items<T>, MsgFault>
        ensures { Reads result self.new (list_at T.at self.old) }
    {
        let count = self.u16()?;
        let items = self.many::<T>(count)?;
        Ok(items)
    }
}
