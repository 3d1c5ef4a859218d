//! One more reading of a text of settings.

ghost use Rattle.std.specs.Prelude.{◌≡◌};
ghost use Rattle.std.specs.Str.{bytes_eq};
ghost use Rattle.settings_reread.specs.Rereading.{NewsBy, Rereads};

use pgw_frames::Bytes;
use proxy_config::{Settings, SettingsFault, read_settings};
use proxy_outside::Source;
use settings_check::{Input, read_text};
use std::alloc::Global;
use std::marker::Model;

/// What a further reading gives.
#[derive(Debug, Drop)]
pub enum Reread {
    /// The text is as it was read last.
    Same,
    /// Another text, with these settings.
    Changed(Settings),
    /// Another text, with this fault first. It isn't want of memory.
    BadSettings(SettingsFault),
    /// A read failed.
    ReadFault,
    /// More than 1,048,576 bytes were taken.
    TooLong,
    /// So many reads were idle before the text's end.
    Late(u64),
    /// Memory ran out.
    NoMemory,
}

/// The text that was read last, from its beginning to its end.
#[derive(Debug, Drop)]
pub struct LastText {
    text: Bytes,
}

impl Model for LastText {
    ghost use Rattle.std.specs.Prelude.{List, ℕ};

    ghost Value = { List ℕ };

    ghost view = { λ l. l.text };
}

fn is_same(text: &[u8], other: &[u8]) -> bool
    ensures { result ≡ bytes_eq text.now other.now }
{
    text == other
}

impl LastText {
    /// This text was read.
    pub fn new(text: Bytes) -> LastText
        ensures { result ≡ text }
    {
        LastText { text }
    }

    /// What a text has that is new.
    fn news(&mut self, alloc: Global, text: Bytes) -> Reread
        ensures { NewsBy result self.old self.new text }
    {
        if is_same(text.as_slice(), self.text.as_slice()) {
            return Reread::Same;
        }
        match read_settings(alloc, text.as_slice()) {
            Err(SettingsFault::NoMemory) => Reread::NoMemory,
            Err(fault) => {
                self.text = text;
                Reread::BadSettings(fault)
            }
            Ok(settings) => {
                self.text = text;
                Reread::Changed(settings)
            }
        }
    }

    /// Reads the text to its end once more. Where it is read whole, and memory doesn't run out, it is the last
    /// text from now on, with its settings or its fault; else the last text stays.
    pub fn reread<S: Source>(&mut self, alloc: Global, source: &mut S) -> Reread
        ensures { Rereads result self.old self.new (S.origin source.old) (S.origin source.new) }
    {
        match read_text(alloc, source) {
            Input::All(text) => self.news(alloc, text),
            Input::ReadFault => Reread::ReadFault,
            Input::TooLong => Reread::TooLong,
            Input::Late(n) => Reread::Late(n),
            Input::NoMemory => Reread::NoMemory,
        }
    }
}
