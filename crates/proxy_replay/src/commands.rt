//! What another client does to the store, as a line of a schedule spells it.

ghost use Rattle.std.specs.Prelude.{IfOk};
ghost use Rattle.proxy_replay.specs.Lines.{SpellsCommand};
ghost use Rattle.proxy_replay.specs.TallyCommands.{says_nothing};

use pgw_frames::NoMemory;
use std::alloc::Global;
use tally_session::Nothing;

/// How the commands of a store are spelled.
pub trait Commands<C> {
    ghost use Rattle.std.specs.Prelude.{List, ℕ};

    /// The text spells the command.
    ghost says: { List ℕ → C → Type 0 };

    /// The command that a text spells, if any.
    fn read(alloc: Global, text: &[u8]) -> Result<Option<C>, NoMemory>
        ensures { IfOk result (SpellsCommand says text.now) };
}

/// The one command of the tally's store, which any 1 to 256 bytes spell.
pub struct TallyCommands;

impl Commands<Nothing> for TallyCommands {
    ghost says = { says_nothing };

    fn read(_alloc: Global, text: &[u8]) -> Result<Option<Nothing>, NoMemory> {
        if text.is_empty() || text.len() > 256 {
            return Ok(None);
        }
        Ok(Some(Nothing::Nothing))
    }
}
