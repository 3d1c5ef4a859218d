//! The values of a statement, with the texts of its parameters.

ghost use Rattle.std.specs.Prelude.{◌≡◌, [], map, IfOk};
ghost use Rattle.sql_text.specs.declared.stmt.Value.TheVariants as value;
ghost use Rattle.mini_kind.specs.Running.{filtering, given_of, matching, param_text, text_of};

use itoa::Buffer;
use mini_store::{Given, GivenList, Match};
use pgw_frames::{NoMemory, Text};
use pgw_messages::Items;
use sql_text::{Equal, Value};
use std::alloc::Global;

/// The text of a parameter by its number, which counts from 1; the empty text where there is none.
fn param(texts: &[Text], number: u8) -> &str
    ensures { result.now ≡ param_text texts.now number }
{
    match texts.get((number as usize).saturating_sub(1)) {
        Some(text) => text.as_str(),
        None => "",
    }
}

/// A number in decimal.
fn number(alloc: Global, n: i64) -> Result<Text, NoMemory>
    ensures { IfOk result (λ t. t ≡ text_of [] (value.Number n)) }
{
    let mut buffer = Buffer::new();
    Text::of(alloc, buffer.format(n))
}

/// A value as text. The texts stand for `$1`, `$2` and so on.
pub fn value_text(alloc: Global, texts: &[Text], value: &Value) -> Result<Text, NoMemory>
    ensures { IfOk result (λ t. t ≡ text_of texts.now value.now) }
{
    match value {
        Value::Number(n) => number(alloc, *n),
        Value::Text(t) => Text::of(alloc, t.as_str()),
        Value::Param(k) => Text::of(alloc, param(texts, *k)),
    }
}

/// A value as it is given to the store.
fn given(alloc: Global, texts: &[Text], value: &Value) -> Result<Given, NoMemory>
    ensures { IfOk result (λ g. g ≡ given_of texts.now value.now) }
{
    match value {
        Value::Number(n) => Ok(Given::Number(*n)),
        Value::Text(t) => Ok(Given::Text(Text::of(alloc, t.as_str())?)),
        Value::Param(k) => Ok(Given::Bound(Text::of(alloc, param(texts, *k))?)),
    }
}

/// The values of a row.
pub(crate) fn givens(alloc: Global, texts: &[Text], values: &[Value]) -> Result<GivenList, NoMemory>
    ensures { IfOk result (λ gs. gs ≡ map (given_of texts.now) values.now) }
{
    let mut givens = Items::new(alloc);
    for value in values {
        givens.push(given(alloc, texts, value)?)?;
    }
    Ok(givens)
}

/// A column and its value.
pub(crate) fn match_of(alloc: Global, texts: &[Text], equal: &Equal) -> Result<Match, NoMemory>
    ensures { IfOk result (λ m. m ≡ matching texts.now equal.now) }
{
    Ok(Match {
        column: Text::of(alloc, equal.column.as_str())?,
        value: given(alloc, texts, &equal.value)?,
    })
}

/// What is asked of a row, where something is.
pub(crate) fn filter_of(
    alloc: Global,
    texts: &[Text],
    filter: &Option<Equal>,
) -> Result<Option<Match>, NoMemory>
    ensures { IfOk result (λ f. f ≡ filtering texts.now filter.now) }
{
    match filter {
        None => Ok(None),
        Some(equal) => Ok(Some(match_of(alloc, texts, equal)?)),
    }
}
