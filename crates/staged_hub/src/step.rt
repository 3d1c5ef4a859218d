//! What a hub was stepped by.

use proxy_hub::HubCommand;

/// A command that a hub was stepped by, and whether its port asked it.
#[derive(Drop)]
pub struct Step {
    pub command: HubCommand,
    pub is_ask: bool,
}
