//! What holds of a store after any commands.

ghost use Rattle.mini_store.specs.Laws.{RowsAlwaysRise};

/// Says that the rows of each table rise by their keys, whatever a store was asked since its opening.
pub fn rows_always_rise()
    ensures { RowsAlwaysRise }
{}
