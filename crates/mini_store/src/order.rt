//! The order of values and rows, and copies of them.

ghost use Rattle.std.specs.Prelude.{◌≡◌, IfOk, true};
ghost use Rattle.mini_store.specs.Values.{datum_order, row_order};
ghost use Rattle.mini_store.specs.Transactions.{is_same_datum};

use crate::datum::Datum;
use pgw_frames::{NoMemory, Text};
use std::alloc::Global;
use std::cmp::Ordering;

fn number_order(n: i64, m: i64) -> Ordering
    ensures { result ≡ datum_order (Datum.Number n) (Datum.Number m) }
{
    n.cmp(&m)
}

impl Datum {
    /// Numbers by their order, texts by their bytes.
    pub(crate) fn order(&self, other: &Datum) -> Ordering
        ensures { result ≡ datum_order self.now other.now }
    {
        match self {
            Datum::Number(n) => match other {
                Datum::Number(m) => number_order(*n, *m),
                Datum::Text(_) => Ordering::Less,
            },
            Datum::Text(t) => match other {
                Datum::Number(_) => Ordering::Greater,
                Datum::Text(u) => t.as_str().cmp(u.as_str()),
            },
        }
    }

    pub(crate) fn is_same(&self, other: &Datum) -> bool
        ensures { result ≡ is_same_datum self.now other.now }
    {
        match self.order(other) {
            Ordering::Equal => true,
            Ordering::Less => false,
            Ordering::Greater => false,
        }
    }

    pub(crate) fn copy(&self, alloc: Global) -> Result<Datum, NoMemory>
        ensures { IfOk result (λ d. d ≡ self.now) }
    {
        match self {
            Datum::Number(n) => Ok(Datum::Number(*n)),
            Datum::Text(t) => Ok(Datum::Text(Text::of(alloc, t.as_str())?)),
        }
    }
}
