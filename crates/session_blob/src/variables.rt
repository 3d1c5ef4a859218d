//! A session's variables.

ghost use Rattle.std.specs.Prelude.{◌≡◌, false, [], ◌∷◌, ◌++◌, length, OnOk, OnErr};
ghost use Rattle.std.specs.List.{IsDistinct};
ghost use Rattle.std.specs.Option.{option_copied};
ghost use Rattle.std.specs.Str.{bytes_eq};
ghost use Rattle.pgw_messages.specs.Params.{value_of, with_value};
ghost use Rattle.session_blob.specs.Entries.{pairs_of, is_among, variable_names};

use indexmap::IndexMap;
use pgw_frames::NoMemory;
use std::alloc::Global;
use std::marker::Model;

/// Names with values, in the order in which they came. The names differ.
#[derive(Drop)]
pub struct Variables {
    alloc: Global,
    pub(crate) map: IndexMap<String, String>,
}

impl Model for Variables {
    ghost use Rattle.std.specs.Prelude.{List};
    ghost use Rattle.pgw_messages.specs.declared.params.Pair.{Pair};
    ghost use Rattle.session_blob.specs.Entries.{pairs_of};

    ghost Value = { List Pair };

    ghost view = { λ v. pairs_of v.map.entries };
}

impl Variables {
    /// No variables. It takes no memory.
    pub fn new(alloc: Global) -> Variables
        ensures { result ≡ [] }
    {
        Variables {
            alloc,
            map: IndexMap::new(alloc),
        }
    }

    /// Replaces the value of a name that is there, and else adds it last. An `Err` changes nothing.
    pub fn put(&mut self, name: &str, value: &str) -> Result<(), NoMemory>
        ensures ok { OnOk result (self.new ≡ with_value name.now value.now self.old) }
        ensures err { OnErr result (self.new ≡ self.old) }
    {
        let name = String::from_str(self.alloc, name)?;
        let value = String::from_str(self.alloc, value)?;
        self.map.insert(name, value)?;
        Ok(())
    }

    /// The value of this name.
    pub fn get(&self, name: &str) -> Option<&str>
        ensures { option_copied result ≡ value_of name.now self.now }
    {
        let value = self.map.get(name)?;
        Some(value.as_str())
    }

    /// Whether a variable has this name.
    pub fn has(&self, name: &str) -> bool
        ensures { result ≡ is_among name.now (variable_names self.now) }
    {
        self.map.contains_key(name)
    }

    /// How many variables there are.
    pub fn len(&self) -> usize
        ensures value { result ≡ length self.now }
        ensures distinct { IsDistinct bytes_eq (variable_names self.now) }
    {
        self.map.len()
    }
}
