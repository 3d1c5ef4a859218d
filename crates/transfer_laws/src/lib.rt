//! What the clause of a transfer over links comes to, in the words of the replies and greetings that are
//! accepted as a whole.
//!
//! A message for which a pod was left is the last one that was read, and isn't accepted at its place. Where
//! both pods give what is accepted, and no link fails or stays idle for too long, the session is moved, or there
//! was no memory. These are laws alone: nothing here runs.
#![tactic(auto)]

mod laws;

pub use laws::{
    a_refused_message_is_the_last, a_transfer_keeps_its_links, an_accepted_exchange_moves,
};
