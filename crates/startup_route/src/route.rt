//! The route of a startup packet.

ghost use Rattle.std.specs.Prelude.{◌≡◌, codes, OnOk, IfOk};
ghost use Rattle.std.specs.Option.{option_copied};
ghost use Rattle.std.specs.List.{find};
ghost use Rattle.pgw_messages.specs.Startup.{params_of};
ghost use Rattle.startup_route.specs.Routes.{Decides, as_pairs, text_of, is_reserved, unreserved, nonempty};
ghost use Rattle.startup_route.specs.Routes.{tenant_of, with_options, rewritten, routed, route_of};

use crate::cluster::{database_left, options_left, read_cluster};
use crate::fault::DoorFault;
use crate::packet_fault::PacketFault;
use crate::step::Route;
use crate::tenant::number_behind;
use pgw_frames::{NoMemory, Text};
use pgw_messages::{MsgFault, Pair, Params, read_params};
use proxy_outside::TenantId;
use std::alloc::Global;

/// The parameters behind the version.
fn read_pairs(alloc: Global, body: &[u8]) -> Result<Params, PacketFault>
    ensures { Decides (as_pairs (params_of body.now)) result }
{
    match read_params(alloc, body) {
        Ok(params) => Ok(params),
        Err(MsgFault::NoMemory) => Err(PacketFault::OutOfMemory),
        Err(
            MsgFault::UnknownTag(_)
            | MsgFault::Short
            | MsgFault::Trailing
            | MsgFault::NotText
            | MsgFault::BadValue,
        ) => Err(PacketFault::Fault(DoorFault::BadPairs)),
    }
}

/// Whether the name is the proxy's and the pods' own.
fn is_reserved(pair: &Pair) -> bool
    ensures { result ≡ is_reserved pair.now }
{
    pair.name.as_str().starts_with("crdb:")
}

/// The first pair whose name is reserved.
fn reserved(params: &Params) -> Option<&Pair>
    ensures { option_copied result ≡ find is_reserved params.now }
{
    params.as_slice().iter().find(|q| is_reserved(q))
}

/// Hands the parameters on where none is reserved.
fn unreserved(alloc: Global, params: Params) -> Result<Params, PacketFault>
    ensures { Decides (unreserved params) result }
{
    if let Some(pair) = reserved(&params) {
        let name = Text::of(alloc, pair.name.as_str())?;
        return Err(PacketFault::Fault(DoorFault::ReservedParam(name)));
    }
    Ok(params)
}

/// A copy of the value of a name, which is empty where it is missing.
fn text_of(alloc: Global, params: &Params, name: &str) -> Result<Text, NoMemory>
    ensures { IfOk result (λ t. t ≡ text_of name.now params.now) }
{
    Text::of(alloc, params.value(name).unwrap_or(""))
}

fn read_user(alloc: Global, params: &Params) -> Result<Text, PacketFault>
    ensures { Decides (nonempty (text_of (codes "user") params.now)) result }
{
    let user = text_of(alloc, params, "user")?;
    if user.as_str().is_empty() {
        return Err(PacketFault::Fault(DoorFault::NoUser));
    }
    Ok(user)
}

/// The tenant of a cluster.
fn tenant_of(cluster: Text) -> Result<TenantId, PacketFault>
    ensures { Decides (tenant_of cluster) result }
{
    match number_behind(cluster.as_str()) {
        Some(number) => Ok(TenantId(number)),
        None => Err(PacketFault::Fault(DoorFault::BadTenant(cluster))),
    }
}

/// What is left of the options takes their place, or they are dropped.
fn set_options(params: &mut Params, options: &str) -> Result<(), NoMemory>
    ensures { OnOk result (params.new ≡ with_options options.now params.old) }
{
    if options.is_empty() {
        params.remove("options");
        return Ok(());
    }
    params.put("options", options)
}

/// Takes the cluster out of options and database.
fn rewrite(
    alloc: Global,
    params: &mut Params,
    user: &str,
    options: &str,
    database: &str,
) -> Result<(), NoMemory>
    ensures { OnOk result (params.new ≡ rewritten user.now options.now database.now params.old) }
{
    let left = database_left(database);
    params.put("database", if left.is_empty() { user } else { left })?;
    let options = options_left(alloc, options)?;
    set_options(params, options.as_str())
}

/// The route by these parameters.
fn routed(alloc: Global, mut params: Params) -> Result<Route, PacketFault>
    ensures { Decides (routed params) result }
{
    let user = read_user(alloc, &params)?;
    let options = text_of(alloc, &params, "options")?;
    let database = text_of(alloc, &params, "database")?;
    let cluster = read_cluster(alloc, options.as_str(), database.as_str())?;
    let tenant = tenant_of(cluster)?;
    rewrite(
        alloc,
        &mut params,
        user.as_str(),
        options.as_str(),
        database.as_str(),
    )?;
    Ok(Route {
        tenant,
        user,
        params,
    })
}

/// The route by what stands behind the version of a startup packet.
#[tactic(auto, unfolding(crate::specs::Routes::route_of))]
pub(crate) fn read_route(alloc: Global, body: &[u8]) -> Result<Route, PacketFault>
    ensures { Decides (route_of body.now) result }
{
    let params = read_pairs(alloc, body)?;
    let params = unreserved(alloc, params)?;
    routed(alloc, params)
}
