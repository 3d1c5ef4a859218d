//! The key in a BackendKeyData.

ghost use Rattle.std.specs.Prelude.{◌≡◌};
ghost use Rattle.std.specs.Result.{result_ok};
ghost use Rattle.pgw_messages.specs.Reading.{whole};
ghost use Rattle.pgw_messages.specs.Backend.{key_at};

use crate::pod_key::PodKey;
use crate::view::front::number_32;

impl PodKey {
    /// The key in this body, or `None` where `read_back` refuses it as a BackendKeyData's. It takes no
    /// memory.
    pub fn of(body: &[u8]) -> Option<PodKey>
        ensures { result ≡ result_ok (whole (key_at body.now)) }
    {
        let (process, rest) = number_32(body)?;
        let (secret, rest) = number_32(rest)?;
        if !rest.is_empty() {
            return None;
        }
        Some(PodKey { process, secret })
    }
}
