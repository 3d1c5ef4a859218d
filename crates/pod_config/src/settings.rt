//! What a file of settings says.

use pgw_messages::Items;
use pod_conn::PodSettings;
use proxy_config::Spot;

/// Places, in the order of the text.
pub type Spots = Items<Spot>;

/// What a file of settings says: what the pods know of their tenant, and where they listen. There is a place at least.
#[derive(Debug, Drop)]
pub struct PodFile {
    pub pod: PodSettings,
    pub listen: Spots,
}
