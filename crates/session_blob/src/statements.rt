//! A session's prepared statements.

ghost use Rattle.std.specs.Prelude.{◌≡◌, [], length, slice_get, OnOk, OnErr};
ghost use Rattle.std.specs.List.{IsDistinct};
ghost use Rattle.std.specs.Option.{option_map};
ghost use Rattle.std.specs.Str.{bytes_eq};
ghost use Rattle.session_blob.specs.Entries.{is_among, prepared, prepared_names};
ghost use Rattle.session_blob.specs.Prepared.{find_prepared, with_statement, without_prepared};

use crate::types::TypeNumbers;
use indexmap::IndexMap;
use pgw_frames::{NoMemory, Text};
use std::alloc::Global;
use std::marker::Model;

/// What a statement's name stands for: its text as it was given, and the types of its parameters.
#[derive(Debug, Drop)]
pub struct Query {
    pub query: Text,
    pub types: TypeNumbers,
}

/// Statements under their names, in the order in which they came. The names differ; the statement
/// without a name has the empty one.
#[derive(Drop)]
pub struct Statements {
    alloc: Global,
    pub(crate) map: IndexMap<String, Query>,
}

impl Model for Statements {
    ghost use Rattle.std.specs.Prelude.{List};
    ghost use Rattle.session_blob.specs.Prepared.{Prepared};
    ghost use Rattle.session_blob.specs.Entries.{prepared_of};

    ghost Value = { List Prepared };

    ghost view = { λ s. prepared_of s.map.entries };
}

impl Statements {
    /// No statements. It takes no memory.
    pub fn new(alloc: Global) -> Statements
        ensures { result ≡ [] }
    {
        Statements {
            alloc,
            map: IndexMap::new(alloc),
        }
    }

    /// Replaces the statement of a name that is there, and else adds it last. An `Err` changes
    /// nothing.
    pub fn put(&mut self, name: &str, query: &str, types: &[u32]) -> Result<(), NoMemory>
        ensures ok { OnOk result (self.new ≡ with_statement name.now query.now types.now self.old) }
        ensures err { OnErr result (self.new ≡ self.old) }
    {
        let query = Text::of(self.alloc, query)?;
        let types = TypeNumbers::of(self.alloc, types)?;
        self.put_owned(name, Query { query, types })
    }

    /// The same, of a query that is there already.
    pub(crate) fn put_owned(&mut self, name: &str, query: Query) -> Result<(), NoMemory>
        ensures ok { OnOk result (self.new ≡ with_statement name.now query.query query.types self.old) }
        ensures err { OnErr result (self.new ≡ self.old) }
    {
        let name = String::from_str(self.alloc, name)?;
        self.map.insert(name, query)?;
        Ok(())
    }

    /// The statement of this name.
    pub fn get(&self, name: &str) -> Option<&Query>
        ensures { option_map (λ q. prepared name.now q.now) result ≡ find_prepared name.now self.now }
    {
        self.map.get(name)
    }

    /// The statement at this place, with its name. Places count from 0.
    pub fn at(&self, place: usize) -> Option<(&str, &Query)>
        ensures { option_map (λ x. prepared x.0.now x.1.now) result ≡ slice_get self.now place }
    {
        let (name, query) = self.map.get_index(place)?;
        Some((name.as_str(), query))
    }

    /// Removes the statement of this name, where there is one. The others keep their order.
    pub fn remove(&mut self, name: &str)
        ensures { self.new ≡ without_prepared name.now self.old }
    {
        let removed = self.map.shift_remove(name);
        drop(removed);
    }

    /// Whether a statement has this name.
    pub fn has(&self, name: &str) -> bool
        ensures { result ≡ is_among name.now (prepared_names self.now) }
    {
        self.map.contains_key(name)
    }

    /// How many statements there are.
    pub fn len(&self) -> usize
        ensures value { result ≡ length self.now }
        ensures distinct { IsDistinct bytes_eq (prepared_names self.now) }
    {
        self.map.len()
    }
}
