//! The parameters of a session.

ghost use Rattle.std.specs.Prelude.{◌≡◌, ◌==◌, ◌++◌, [], length, position, slice_get, IfOk, OnOk, OnErr};
ghost use Rattle.std.specs.List.{flat_map, AllByRecursion};
ghost use Rattle.std.specs.Option.{option_copied};
ghost use Rattle.pgw_messages.specs.Params.{value_of, with_value, without, is_named, HasDistinctNames};
ghost use Rattle.pgw_messages.specs.Startup.{pair_bytes, IsParam, CanWriteParam};

use crate::writer::Writer;
use pgw_frames::{NoMemory, Text};
use std::alloc::Global;
use std::marker::Model;

/// A name with its value.
#[derive(Debug, Drop)]
pub struct Pair {
    pub name: Text,
    pub value: Text,
}

impl Pair {
    fn copy(&self, alloc: Global) -> Result<Pair, NoMemory>
        ensures { IfOk result (λ q. q ≡ self.now) }
    {
        Ok(Pair {
            name: Text::of(alloc, self.name.as_str())?,
            value: Text::of(alloc, self.value.as_str())?,
        })
    }
}

/// A list of names with values. The names differ.
#[derive(Debug, Drop)]
pub struct Params {
    pairs: Vec<Pair>,
}

impl Model for Params {
    ghost use Rattle.std.specs.Prelude.{List};
    ghost use Rattle.pgw_messages.specs.declared.params.Pair.{Pair};
    ghost use Rattle.pgw_messages.specs.Params.{HasDistinctNames};

    ghost Value = { List Pair };

    ghost view = { λ p. p.pairs.items };

    ghost invariant = { λ p. HasDistinctNames p.pairs.items };
}

/// Where the pair of this name stands.
fn place_of(pairs: &[Pair], name: &str) -> Option<usize>
    ensures { result ≡ position (is_named name.now) pairs.now }
{
    pairs.iter().position(|q| q.name.as_str() == name)
}

impl Params {
    /// No parameters. It takes no memory.
    pub fn new(alloc: Global) -> Params
        ensures { result ≡ [] }
    {
        Params {
            pairs: Vec::new(alloc),
        }
    }

    /// Replaces the value of a name that is there, and else adds the pair last. An `Err` changes
    /// nothing.
    pub fn put(&mut self, name: &str, value: &str) -> Result<(), NoMemory>
        ensures ok { OnOk result (self.new ≡ with_value name.now value.now self.old) }
        ensures err { OnErr result (self.new ≡ self.old) }
    {
        let place = place_of(self.as_slice(), name);
        self.put_at(place, name, value)
    }

    /// The same, where it is known at which place the name stands, if it is there.
    pub(crate) fn put_at(
        &mut self,
        place: Option<usize>,
        name: &str,
        value: &str,
    ) -> Result<(), NoMemory>
        requires { place ≡ position (is_named name.now) self.old }
        ensures ok { OnOk result (self.new ≡ with_value name.now value.now self.old) }
        ensures err { OnErr result (self.new ≡ self.old) }
    {
        let alloc = *self.pairs.allocator();
        let value = Text::of(alloc, value)?;
        match place {
            Some(i) => {
                self.pairs[i].value = value;
                Ok(())
            }
            None => {
                let name = Text::of(alloc, name)?;
                self.pairs.push(Pair { name, value })?;
                Ok(())
            }
        }
    }

    /// Takes a name and its value out, where it is there. It takes no memory.
    pub fn remove(&mut self, name: &str)
        ensures { self.new ≡ without name.now self.old }
    {
        self.pairs.retain(|q| q.name.as_str() != name);
    }

    /// The value of a name.
    pub fn value(&self, name: &str) -> Option<&str>
        ensures { option_copied result ≡ value_of name.now self.now }
    {
        let i = place_of(self.pairs.as_slice(), name)?;
        Some(self.pairs[i].value.as_str())
    }

    pub fn len(&self) -> usize
        ensures value { result ≡ length self.now }
        ensures distinct { HasDistinctNames self.now }
    {
        self.pairs.len()
    }

    pub fn is_empty(&self) -> bool
        ensures { result ≡ (length self.now == 0) }
    {
        self.pairs.is_empty()
    }

    /// The pair at this place, counted from 0.
    pub fn get(&self, i: usize) -> Option<&Pair>
        ensures { option_copied result ≡ slice_get self.now i }
    {
        self.pairs.get(i)
    }

    pub fn as_slice(&self) -> &[Pair]
        ensures { result.now ≡ self.now }
    {
        self.pairs.as_slice()
    }

    /// Writes the pairs in order.
    pub(crate) fn write(&self, w: &mut Writer) -> Result<(), NoMemory>
        ensures bytes { OnOk result (w.new ≡ w.old ++ flat_map pair_bytes self.now) }
        ensures good { OnOk result (AllByRecursion (λ q. CanWriteParam q → IsParam q) self.now) }
        ensures distinct { HasDistinctNames self.now }
    {
        for pair in &self.pairs {
            pair.write(w)?;
        }
        Ok(())
    }

    /// A copy of the parameters.
    pub fn copy(&self) -> Result<Params, NoMemory>
        ensures { IfOk result (λ p. p ≡ self.now) }
    {
        let alloc = *self.pairs.allocator();
        let mut pairs = Vec::with_capacity(alloc, self.pairs.len())?;
        for q in &self.pairs {
            pairs.push(q.copy(alloc)?)?;
        }
        Ok(Params { pairs })
    }
}
