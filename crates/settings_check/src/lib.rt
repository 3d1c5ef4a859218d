//! The check of a text of settings: how much stands in it, and whether a client would be admitted.
//!
//! The text is read whole from a source. What it gives is printed to a sink: one line of counts, and where the
//! words ask for it the first admission's answer of a new hub with these settings. The top call is
//! `check_config`. What a stream is, is the caller's.
#![tactic(auto)]

mod answer;
mod check;
mod input;
mod question;
mod status;
mod trial;

pub use answer::answer_to;
pub use check::check_config;
pub use input::{Input, read_text};
pub use question::{Client, Question, question_of};
pub use status::{CheckStatus, code_of};
pub use trial::{Trial, try_admission};

#[cfg(test)]
mod tests;
