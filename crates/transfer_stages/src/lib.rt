//! The order of a transfer, stage by stage: definitions and laws.
//!
//! What is sent, what is awaited and which frames are accepted at each stage, and what a transfer came
//! to; and that the stages take just the replies and the greeting that are accepted as a whole. Nothing
//! here reads or writes; the exchange that goes this order stands elsewhere.
#![tactic(auto)]

mod laws;
mod stage;

pub use laws::{
    stages_take_the_greeting, stages_take_the_new_pod, stages_take_the_old_reply,
    stages_take_the_restored_reply,
};
pub use stage::{Cut, Outcome, Said, Stage, Want};
