//! The replay: a written schedule is played to a World, and its report is written.
//!
//! A schedule is read whole from a source and cut into lines; a line spells an event in one way, or
//! none. A report is one text of a phase, of counts and of the bytes that the client received. A schedule
//! may also be made from a number; then a summary is written. The top call is `replay`. What a stream is,
//! is the caller's.
#![tactic(auto)]

mod client;
mod commands;
mod generated;
mod generation;
mod hex_text;
mod input;
mod laws;
mod line;
mod lines;
mod number;
mod output;
mod phase_words;
mod play;
mod report;
mod status;
mod summary;
mod top;
mod word;
mod words;

pub use commands::{Commands, TallyCommands};
pub use input::{Input, read_all};
pub use laws::a_schedule_has_one_reading;
pub use line::event_of;
pub use lines::Lines;
pub use output::write_all;
pub use report::report_of;
pub use status::{Status, code_of};
pub use top::replay;

#[cfg(test)]
mod tests;
