//! What the proxy's program is asked, and what it says.
//!
//! The words of `sqlproxy serve` are read, and each thing that happens while it serves has its line. Nothing here
//! prints, waits or asks the system anything.
#![tactic(auto)]

mod help;
mod lines;
mod status;
mod words;

pub use help::{help_text, usage_line};
pub use lines::{Closed, closed_line, drain_line, listening_line, settings_line, trouble_line};
pub use status::{ServeStatus, code_of, fault_line};
pub use words::{Asked, ServeWords, read_words};

#[cfg(test)]
mod tests;
