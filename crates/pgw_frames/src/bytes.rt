//! A string of bytes that contracts see as a list.

ghost use Rattle.std.specs.Prelude.{◌≡◌, ◌==◌, [], ◌∷◌, ◌++◌, ◌+◌, ◌≤◌, length, take, drop, OnOk, OnErr, IfOk};
ghost use Rattle.std.specs.Int.{w32, to_be_bytes};

use crate::memory::NoMemory;
use std::alloc::Global;
use std::marker::Model;

/// A string of bytes.
#[derive(Debug, Drop)]
pub struct Bytes {
    items: Vec<u8>,
}

impl Model for Bytes {
    ghost use Rattle.std.specs.Prelude.{List, ℕ};

    ghost Value = { List ℕ };

    ghost view = { λ b. b.items.items };
}

impl Bytes {
    /// The empty string. It takes no memory.
    pub fn new(alloc: Global) -> Bytes
        ensures { result ≡ [] }
    {
        Bytes {
            items: Vec::new(alloc),
        }
    }

    /// A copy of these bytes.
    pub fn of(alloc: Global, b: &[u8]) -> Result<Bytes, NoMemory>
        ensures { IfOk result (λ r. r ≡ b.now) }
    {
        Ok(Bytes {
            items: Vec::from_slice(alloc, b)?,
        })
    }

    /// Takes a vector over, without a copy.
    pub fn from_vec(items: Vec<u8>) -> Bytes
        ensures { result ≡ items.items }
    {
        Bytes { items }
    }

    /// Gives the vector back, without a copy.
    pub fn into_vec(self) -> Vec<u8>
        ensures { result.items ≡ self }
    {
        self.items
    }

    pub fn len(&self) -> usize
        ensures { result ≡ length self.now }
    {
        self.items.len()
    }

    pub fn is_empty(&self) -> bool
        ensures { result ≡ (length self.now == 0) }
    {
        self.items.is_empty()
    }

    pub fn as_slice(&self) -> &[u8]
        ensures { result.now ≡ self.now }
    {
        self.items.as_slice()
    }

    /// Appends. An `Err` changes nothing.
    pub fn extend(&mut self, piece: &[u8]) -> Result<(), NoMemory>
        ensures ok { OnOk result (self.new ≡ self.old ++ piece.now) }
        ensures err { OnErr result (self.new ≡ self.old) }
    {
        self.items.extend_from_slice(piece)?;
        Ok(())
    }

    /// Keeps the first bytes. It takes no memory.
    pub fn truncate(&mut self, len: usize)
        ensures { self.new ≡ take len self.old }
    {
        self.items.truncate(len);
    }

    /// Drops the first bytes. It takes no memory.
    pub fn drop_front(&mut self, count: usize)
        requires { count ≤ length self.old }
        ensures { self.new ≡ drop count self.old }
    {
        self.items.drain(..count);
    }

    pub(crate) fn allocator(&self) -> Global {
        *self.items.allocator()
    }

    /// Appends a type byte, a length and a body. An `Err` changes nothing.
    pub(crate) fn append_frame(&mut self, tag: u8, body: &[u8]) -> Result<(), NoMemory>
        requires { length body.now ≤ 16777216 }
        ensures ok { OnOk result (self.new ≡ self.old ++ (tag ∷ to_be_bytes w32 (length body.now + 4) ++ body.now)) }
        ensures err { OnErr result (self.new ≡ self.old) }
    {
        let l = (body.len() as u32 + 4).to_be_bytes();
        self.items.reserve(5 + body.len())?;
        self.items
            .extend_from_slice(&[tag, l[0], l[1], l[2], l[3]])?;
        self.items.extend_from_slice(body)?;
        Ok(())
    }
}
