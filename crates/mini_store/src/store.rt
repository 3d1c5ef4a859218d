//! The store.

ghost use Rattle.std.specs.Prelude.{◌≡◌, IfOk, OnOk, OnErr};
ghost use Rattle.mini_store.specs.Transactions.{committed, first_difference, next_tables, reply, tables_committed, tried};

use crate::answer::{Answer, PastStep};
use crate::command::StoreCommand;
use crate::op::Op;
use crate::replay::conflict_at;
use crate::tables::Tables;
use pgw_frames::NoMemory;
use proxy_outside::Machine;
use std::alloc::Global;

/// The tables of a tenant. Its definition is `store_rules`.
#[derive(Drop)]
pub struct Store {
    tables: Tables,
}

impl Store {
    fn attempt(&self, past: &[PastStep], op: &Op) -> Result<Answer, NoMemory>
        ensures { IfOk result (λ a. a ≡ tried self.now.tables past.now op.now (first_difference 0 self.now.tables past.now)) }
    {
        let mut copy = self.tables.copy()?;
        match copy.replay(past)? {
            Some(place) => Ok(conflict_at(place)),
            None => copy.answer(op),
        }
    }

    fn commit(&mut self, past: &[PastStep]) -> Result<Answer, NoMemory>
        ensures answer { IfOk result (λ a. a ≡ committed (first_difference 0 self.old.tables past.now)) }
        ensures tables { OnOk result (self.new.tables ≡ tables_committed self.old.tables past.now (first_difference 0 self.old.tables past.now)) }
        ensures err { OnErr result (self.new.tables ≡ self.old.tables) }
    {
        let mut copy = self.tables.copy()?;
        let conflict = copy.replay(past)?;
        match conflict {
            Some(place) => Ok(conflict_at(place)),
            None => {
                self.tables = copy;
                Ok(Answer::Committed)
            }
        }
    }
}

impl Machine for Store {
    type Command = StoreCommand;

    type Reply = Answer;

    ghost use Rattle.std.specs.Prelude.{List, ◌≡◌};
    ghost use Rattle.mini_store.specs.Tables.{TableOf};
    ghost use Rattle.mini_store.specs.Transactions.{store_rules};

    ghost State = { List TableOf };

    ghost rules = { store_rules };

    ghost stands_for = { λ s ts. s.tables ≡ ts };

    fn opening(alloc: Global) -> Result<Store, NoMemory> {
        Ok(Store {
            tables: Tables::new(alloc),
        })
    }

    fn step(&mut self, c: &StoreCommand) -> Result<Answer, NoMemory> {
        match c {
            StoreCommand::Single(op) => self.tables.answer(op),
            StoreCommand::Try { past, op } => self.attempt(past.as_slice(), op),
            StoreCommand::Commit { past } => self.commit(past.as_slice()),
        }
    }
}
