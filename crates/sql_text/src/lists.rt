//! Lists of a statement, and what can stand in them.

ghost use Rattle.std.specs.Prelude.{◌≡◌};
ghost use Rattle.sql_text.specs.Grammar.{Reads, items_form, list_form, more_form, with_front};

use crate::fault::SqlFault;
use crate::parser::Parser;
use crate::stmt::{ColumnDef, Kind, Value};
use pgw_frames::Text;
use pgw_messages::Items;

/// An item of a list.
pub(crate) trait Item: Drop {
    ghost use Rattle.sql_text.specs.Grammar.{Cursor, Form};

    /// How the item is read from the tokens that are left.
    ghost form: { Cursor → Form Self };

    fn read(p: &mut Parser<'_>) -> Result<Self, SqlFault>
        ensures { Reads result p.new (form p.old) };
}

impl Item for Text {
    ghost use Rattle.sql_text.specs.Grammar.{name_form};

    ghost form = { name_form };

    fn read(p: &mut Parser<'_>) -> Result<Text, SqlFault> {
        p.name()
    }
}

impl Item for Value {
    ghost use Rattle.sql_text.specs.Grammar.{value_form};

    ghost form = { value_form };

    fn read(p: &mut Parser<'_>) -> Result<Value, SqlFault> {
        p.value()
    }
}

impl Item for ColumnDef {
    ghost use Rattle.sql_text.specs.Grammar.{column_form};

    ghost form = { column_form };

    fn read(p: &mut Parser<'_>) -> Result<ColumnDef, SqlFault> {
        let name = p.name()?;
        if p.takes("int") {
            return Ok(ColumnDef {
                name,
                kind: Kind::Int,
            });
        }
        p.skip("text")?;
        Ok(ColumnDef {
            name,
            kind: Kind::Text,
        })
    }
}

impl<'a> Parser<'a> {
    /// These items, and so many more at most, each behind a comma.
    fn more<T: Item>(&mut self, mut items: Items<T>, most: usize) -> Result<Items<T>, SqlFault>
        ensures { Reads result self.new (with_front items (more_form T.form most self.old)) }
    {
        for _ in 0..most {
            if !self.takes(",") {
                return Ok(items);
            }
            items.push(T::read(self)?)?;
        }
        if self.takes(",") {
            return Err(self.wrong());
        }
        Ok(items)
    }

    /// An item, and so many more at most, with commas between them.
    pub(crate) fn items<T: Item>(&mut self, more: usize) -> Result<Items<T>, SqlFault>
        ensures { Reads result self.new (items_form T.form more self.old) }
    {
        let mut items = Items::new(self.allocator());
        items.push(T::read(self)?)?;
        self.more::<T>(items, more)
    }

    /// Items in brackets.
    pub(crate) fn list<T: Item>(&mut self) -> Result<Items<T>, SqlFault>
        ensures { Reads result self.new (list_form T.form self.old) }
    {
        self.skip("(")?;
        let most = self.len();
        let items = self.items::<T>(most)?;
        self.skip(")")?;
        Ok(items)
    }
}
