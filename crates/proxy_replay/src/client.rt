//! The client of a replay.

ghost use Rattle.std.specs.Prelude.{◌≡◌, IfOk};
ghost use Rattle.proxy_replay.specs.Client.{client_params, client_key};

use pgw_frames::NoMemory;
use pgw_messages::Params;
use proxy_outside::ClientKey;
use std::alloc::Global;

/// The key that the client is given.
pub(crate) fn key() -> ClientKey
    ensures { result ≡ client_key }
{
    ClientKey {
        process: 1,
        secret: 16_909_060,
    }
}

/// The parameters of its startup packet.
pub(crate) fn params(alloc: Global) -> Result<Params, NoMemory>
    ensures { IfOk result (λ p. p ≡ client_params) }
{
    let mut params = Params::new(alloc);
    params.put("user", "u")?;
    params.put("database", "d")?;
    Ok(params)
}
