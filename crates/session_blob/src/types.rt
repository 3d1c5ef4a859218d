//! The types of a statement's parameters.

ghost use Rattle.std.specs.Prelude.{◌≡◌, ◌∷◌, [], ◌++◌, IfOk, OnOk};

use pgw_frames::NoMemory;
use std::alloc::Global;
use std::marker::Model;

/// A list of type numbers.
#[derive(Debug, Drop)]
pub struct TypeNumbers {
    items: Vec<u32>,
}

impl Model for TypeNumbers {
    ghost use Rattle.std.specs.Prelude.{List, ℕ};

    ghost Value = { List ℕ };

    ghost view = { λ t. t.items.items };
}

impl TypeNumbers {
    /// No types. It takes no memory.
    pub fn new(alloc: Global) -> TypeNumbers
        ensures { result ≡ [] }
    {
        TypeNumbers {
            items: Vec::new(alloc),
        }
    }

    /// A copy of these.
    pub fn of(alloc: Global, types: &[u32]) -> Result<TypeNumbers, NoMemory>
        ensures { IfOk result (λ t. t ≡ types.now) }
    {
        Ok(TypeNumbers {
            items: Vec::from_slice(alloc, types)?,
        })
    }

    /// Adds a type at the end.
    pub(crate) fn push(&mut self, number: u32) -> Result<(), NoMemory>
        ensures { OnOk result (self.new ≡ self.old ++ number ∷ []) }
    {
        self.items.push(number)?;
        Ok(())
    }

    pub fn as_slice(&self) -> &[u32]
        ensures { result.now ≡ self.now }
    {
        self.items.as_slice()
    }
}
