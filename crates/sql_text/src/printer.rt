//! What was printed so far, and what is printed behind it.

ghost use Rattle.std.specs.Prelude.{◌≡◌, [], ◌++◌, decimal, IfOk, OnOk, string_bytes};
ghost use Rattle.std.specs.Fmt.{signed_decimal};
ghost use Rattle.session_model.specs.Texts.{transfer_text};
ghost use Rattle.sql_text.specs.Printing.{doubled, quoted_text};

use pgw_frames::{NoMemory, Text};
use session_model::{TransferKey, transfer_text};
use std::alloc::Global;
use std::marker::Model;

/// What was printed so far. Contracts see its bytes.
#[derive(Drop)]
pub(crate) struct Printer {
    alloc: Global,
    text: String,
}

impl Model for Printer {
    ghost use Rattle.std.specs.Prelude.{List, ℕ, string_bytes};

    ghost Value = { List ℕ };

    ghost view = { λ p. string_bytes p.text };
}

/// The bytes with each quote twice.
fn doubled_bytes(alloc: Global, bytes: &[u8]) -> Result<Vec<u8>, NoMemory>
    ensures { IfOk result (λ r. r.items ≡ doubled bytes.now) }
{
    let mut out = Vec::with_capacity(alloc, bytes.len())?;
    for c in bytes {
        if *c == b'\'' {
            out.push(b'\'')?;
        }
        out.push(*c)?;
    }
    Ok(out)
}

/// The text with each quote twice.
fn doubled(alloc: Global, t: &str) -> Result<String, NoMemory>
    ensures { IfOk result (λ r. string_bytes r ≡ doubled t.now) }
{
    let bytes = doubled_bytes(alloc, t.as_bytes())?;
    let Ok(text) = String::from_utf8(bytes) else {
        unreachable!();
    };
    Ok(text)
}

impl Printer {
    pub(crate) fn new(alloc: Global) -> Printer
        ensures { result ≡ [] }
    {
        Printer {
            alloc,
            text: String::new(alloc),
        }
    }

    pub(crate) fn into_text(self) -> Text
        ensures { result ≡ self }
    {
        Text::from_string(self.text)
    }

    pub(crate) fn put(&mut self, words: &str) -> Result<(), NoMemory>
        ensures { OnOk result (self.new ≡ self.old ++ words.now) }
    {
        self.text.push_str(words)?;
        Ok(())
    }

    pub(crate) fn name(&mut self, name: &Text) -> Result<(), NoMemory>
        ensures { OnOk result (self.new ≡ self.old ++ name.now) }
    {
        self.put(name.as_str())?;
        Ok(())
    }

    /// A text in quotes, each quote inside doubled.
    pub(crate) fn quoted(&mut self, text: &str) -> Result<(), NoMemory>
        ensures { OnOk result (self.new ≡ self.old ++ quoted_text text.now) }
    {
        let inside = doubled(self.alloc, text)?;
        self.put("'")?;
        self.put(inside.as_str())?;
        self.put("'")?;
        Ok(())
    }

    pub(crate) fn number(&mut self, n: i64) -> Result<(), NoMemory>
        ensures { OnOk result (self.new ≡ self.old ++ signed_decimal n) }
    {
        let digits = format!(in self.alloc; "{n}")?;
        self.put(digits.as_str())?;
        Ok(())
    }

    pub(crate) fn param(&mut self, n: u8) -> Result<(), NoMemory>
        ensures { OnOk result (self.new ≡ self.old ++ decimal n) }
    {
        let digits = format!(in self.alloc; "{n}")?;
        self.put(digits.as_str())?;
        Ok(())
    }

    /// The text that asks for a session's state.
    pub(crate) fn transfer(&mut self, key: TransferKey) -> Result<(), NoMemory>
        ensures { OnOk result (self.new ≡ self.old ++ transfer_text key) }
    {
        let text = transfer_text(self.alloc, &key)?;
        self.put(text.as_str())
    }
}
