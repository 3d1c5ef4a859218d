//! Which pod of a tenant a new session goes to, and which sessions move so that no pod has too many.
//!
//! A tenant's pods come in as a list of loads, and its sessions as a list of homes; a pick or a plan goes
//! out. Nothing here moves a session, waits or remembers anything.
#![tactic(auto)]

mod assignment;
mod cap;
mod homed;
mod lightest;
mod load;
mod movers;
mod moves;
mod pick_laws;
mod places;
mod plan_laws;
mod planning;

pub use homed::Homed;
pub use lightest::pick;
pub use load::Load;
pub use moves::{Move, Moves};
pub use pick_laws::{the_pick_is_the_lightest, there_is_one_pick};
pub use plan_laws::{
    a_plan_can_be_made, a_plan_leaves_no_pod_above_its_share, a_plan_moves_the_excess,
    a_plan_places_every_session, no_moves_are_fewer,
};
pub use planning::plan;

#[cfg(test)]
mod tests;
