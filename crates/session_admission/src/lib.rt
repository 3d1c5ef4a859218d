//! Who is let in, and to which pod: the hub is asked, and pods are dialed.
//!
//! A client is admitted and gets a key; then pods are picked and dialed, three at most, each but those whose dials
//! failed. What the hub answers is `proxy_hub`'s. Nothing here reads or writes a link.
#![tactic(auto)]

mod admission;
mod dialing;

pub use admission::{Admission, admit, give_key};
pub use dialing::{Found, find_pod};
