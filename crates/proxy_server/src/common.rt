//! What all connections share.

use crate::supply::Supply;
use bell_hub::Bells;
use counted_desk::Desk;
use proxy_hub::Hub;
use server_host::{Console, Ends};
use session_greeting::Limits;

/// What all connections share.
#[derive(Drop)]
pub(crate) struct Common {
    pub(crate) desk: Desk<Hub>,
    pub(crate) bells: Bells,
    pub(crate) supply: Supply,
    pub(crate) console: Console,
    pub(crate) ends: Ends,
    /// How many idle reads end a greeting or a move, and a login.
    pub(crate) limits: Limits,
}
