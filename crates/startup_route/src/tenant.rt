//! The tenant that a cluster's name ends in.

ghost use Rattle.std.specs.Prelude.{◌≡◌, ◌==◌, length};
ghost use Rattle.std.specs.Option.{option_copied};
ghost use Rattle.startup_route.specs.Tenants.{begins_number, number_of, number_behind};

/// Whether the text begins with a digit that is no zero.
fn begins_number(text: &[u8]) -> bool
    ensures { result ≡ begins_number text.now }
{
    match text {
        [first, ..] => *first > b'0' && *first <= b'9',
        [] => false,
    }
}

/// A decimal number without a sign or a leading zero: 1 to 4,294,967,295.
fn number_of(text: &str) -> Option<u32>
    ensures { result ≡ number_of text.now }
{
    if !begins_number(text.as_bytes()) {
        return None;
    }
    text.parse::<u32>().ok()
}

/// The number behind the last dash of a name, where something stands before that dash.
pub(crate) fn number_behind(name: &str) -> Option<u32>
    ensures { result ≡ number_behind name.now }
{
    let (before, number) = name.rsplit_once('-')?;
    if before.is_empty() {
        return None;
    }
    number_of(number)
}
