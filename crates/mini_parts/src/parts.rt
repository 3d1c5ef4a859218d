//! The parts.

use mini_portals::Portals;
use mini_store::Past;
use pgw_frames::{Bytes, Text};
use session_blob::State;

/// A transaction: what it did so far, and whether an error came in it.
#[derive(Drop)]
pub struct Turn {
    pub past: Past,
    pub failed: bool,
}

/// A copy into a table of so many columns, and the data that came.
#[derive(Drop)]
pub struct CopyTo {
    /// Whether a Query began it; else an Execute did.
    pub by_query: bool,
    pub table: Text,
    pub width: usize,
    pub gathered: Bytes,
}

/// What is under way between two messages.
#[derive(Drop)]
pub enum Mode {
    Usual,
    /// An error came, and all is discarded up to a Sync.
    Skipping,
    Copying(CopyTo),
}

/// A mini session.
#[derive(Drop)]
pub struct Parts {
    /// What moves: user, database, variables and prepared statements.
    pub kept: State,
    /// The text with which the session may be revived.
    pub token: Text,
    pub portals: Portals,
    pub turn: Option<Turn>,
    pub mode: Mode,
}
