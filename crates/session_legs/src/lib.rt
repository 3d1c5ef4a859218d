//! The two legs of a connection: the client's messages go to the pod, and the pod's to the client.
//!
//! A leg owns its halves and gives them back. It hands a message on once it holds it whole, and then looks
//! at the board; where nothing came it looks only between two messages. It reads at most 8,192 bytes at
//! once, straight behind what it holds, and only where it holds no whole message. A message goes on as it stands in
//! what is held, in one write where the sink takes as much: only what was read and not yet handed on takes memory,
//! and the room for one read.
//!
//! No contract says that both legs run at once, that a leg ends, or what it tells the board at its end.
//!
//! Source: PostgreSQL manual, "Message Flow" of the frontend/backend protocol, version 3.0.
#![tactic(auto)]

mod both;
mod half;
mod laws;
mod leg;
mod processor;
mod side;

pub use both::{RequestEnd, ResponseEnd, request_leg, response_leg, run_legs};
pub use laws::a_leg_goes_in_parts;
pub use side::LegEnd;
