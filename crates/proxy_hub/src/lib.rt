//! Who gets in, and to which pod: one sequential object over the lists, the throttle, the directory, the
//! sessions and their keys.
//!
//! A `Hub` answers one command at a time, as its definition says. Here are no sockets, clocks or threads:
//! moments and random words come in with the commands. Whoever shares a hub asks it through a port, a
//! `DeskPort` where it stands at a desk.
#![tactic(auto)]

mod admission;
mod command;
mod desk_port;
mod fault;
mod hub;
mod keying;
mod machine;
mod placing;
mod port;
mod reply;

pub use command::HubCommand;
pub use desk_port::DeskPort;
pub use fault::HubFault;
pub use hub::Hub;
pub use port::{HubPort, replies_suit_their_commands};
pub use reply::{HubReply, Refusal};

#[cfg(test)]
mod tests;
