//! Portals.

ghost use Rattle.std.specs.Prelude.{◌≡◌, [], OnOk, OnErr};
ghost use Rattle.std.specs.Option.{option_map};
ghost use Rattle.mini_kind.specs.Dumps.{no_portals};
ghost use Rattle.mini_kind.specs.Mini.{find_portal, put_portal, without_portal};
ghost use Rattle.mini_portals.specs.Entries.{portal};

use indexmap::IndexMap;
use pgw_frames::{NoMemory, Text};
use pgw_messages::Items;
use sql_text::Stmt;
use std::alloc::Global;
use std::marker::Model;

/// A statement with the texts of its parameters, in their order.
#[derive(Debug, Drop)]
pub struct BoundStmt {
    pub stmt: Stmt,
    pub texts: Items<Text>,
}

/// Portals under their names, in the order in which they came. The names differ; the portal without a
/// name has the empty one.
#[derive(Drop)]
pub struct Portals {
    alloc: Global,
    map: IndexMap<String, BoundStmt>,
}

impl Model for Portals {
    ghost use Rattle.std.specs.Prelude.{List};
    ghost use Rattle.mini_kind.specs.Mini.{Portal};
    ghost use Rattle.mini_portals.specs.Entries.{portals_of};

    ghost Value = { List Portal };

    ghost view = { λ p. portals_of p.map.entries };
}

impl Portals {
    /// No portals. It takes no memory.
    pub fn new(alloc: Global) -> Portals
        ensures { result ≡ [] }
    {
        Portals {
            alloc,
            map: IndexMap::new(alloc),
        }
    }

    /// Replaces the portal of a name that is there, and else adds it last. An `Err` changes nothing.
    pub fn put(&mut self, name: &str, bound: BoundStmt) -> Result<(), NoMemory>
        ensures ok { OnOk result (self.new ≡ put_portal (portal name.now bound) self.old) }
        ensures err { OnErr result (self.new ≡ self.old) }
    {
        let name = String::from_str(self.alloc, name)?;
        self.map.insert(name, bound)?;
        Ok(())
    }

    /// The statement of the portal with this name.
    pub fn find(&self, name: &str) -> Option<&BoundStmt>
        ensures { option_map (λ b. portal name.now b.now) result ≡ find_portal name.now self.now }
    {
        self.map.get(name)
    }

    /// Removes the portal of this name, where there is one.
    pub fn remove(&mut self, name: &str)
        ensures { self.new ≡ without_portal name.now self.old }
    {
        let removed = self.map.shift_remove(name);
        drop(removed);
    }

    /// Removes all portals.
    pub fn clear(&mut self)
        ensures { self.new ≡ [] }
    {
        self.map.clear();
    }

    pub fn is_empty(&self) -> bool
        ensures { result ≡ no_portals self.now }
    {
        self.map.is_empty()
    }
}
