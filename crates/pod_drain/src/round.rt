//! One round of draining.

ghost use Rattle.std.specs.Prelude.{◌≡◌, ◌∷◌, [], map};
ghost use Rattle.std.specs.Option.{option_copied};
ghost use Rattle.proxy_hub.specs.Ports.{IsPlan};
ghost use Rattle.proxy_hub.specs.declared.command.HubCommand.TheVariants as command;
ghost use Rattle.proxy_hub.specs.declared.reply.HubReply.TheVariants as say;
ghost use Rattle.proxy_links.specs.Told.{Grows};
ghost use Rattle.pod_balancer.specs.declared.moves.Move.{Move as OneMove};
ghost use Rattle.proxy_config.specs.Settings.{entries_of};
ghost use Rattle.pod_drain.specs.Rounds.{scene, tells, plans_for, Counts, Rounds, AsksAll, TellsAll};
ghost use Rattle.pod_drain.specs.Watching.{is_done};

use crate::fault::DrainFault;
use crate::ringer::Ringer;
use crate::watch::Watch;
use pod_balancer::{Move, Moves};
use proxy_config::Settings;
use proxy_hub::{HubCommand, HubPort, HubReply};
use proxy_outside::TenantId;
use std::alloc::Global;
use std::sync::Wait;
use tenant_directory::TenantRow;

fn is_done(reply: HubReply) -> bool
    ensures { result ≡ is_done reply }
{
    match reply {
        HubReply::Done => true,
        other => {
            drop(other);
            false
        }
    }
}

fn moves_of(reply: HubReply) -> Moves
    requires { IsPlan reply }
    ensures { say.Moves result ≡ reply }
{
    match reply {
        HubReply::Moves(moves) => moves,
        _ => unreachable!(),
    }
}

/// Tells the hub who may come in.
fn tell_lists<R: Wait, H: HubPort>(
    rt: &R,
    alloc: Global,
    settings: &Settings,
    watch: &mut Watch,
    hub: &mut H,
) -> Result<(), DrainFault>
    ensures { TellsAll (command.SetLists (entries_of settings.now) ∷ []) watch.old watch.new (H.port hub.old) (H.port hub.new) result }
{
    let lists = settings.lists(alloc)?;
    drop(hub.ask(rt, HubCommand::SetLists(lists))?);
    Ok(())
}

/// Tells the hub a tenant's row. Where it is taken in, the tenant is watched.
fn tell_row<R: Wait, H: HubPort>(
    rt: &R,
    row: &TenantRow,
    watch: &mut Watch,
    hub: &mut H,
) -> Result<(), DrainFault>
    ensures { TellsAll (command.Update row.now ∷ []) watch.old watch.new (H.port hub.old) (H.port hub.new) result }
{
    let copy = row.copy()?;
    let tenant = row.tenant();
    let added = watch.add(tenant)?;
    match hub.ask(rt, HubCommand::Update(copy)) {
        Err(fault) => {
            watch.undo(tenant, added);
            Err(DrainFault::Hub(fault))
        }
        Ok(reply) => {
            if is_done(reply) {
                return Ok(());
            }
            watch.undo(tenant, added);
            Ok(())
        }
    }
}

fn tell_rows<R: Wait, H: HubPort>(
    rt: &R,
    rows: &[TenantRow],
    watch: &mut Watch,
    hub: &mut H,
) -> Result<(), DrainFault>
    ensures { TellsAll (map command.Update rows.now) watch.old watch.new (H.port hub.old) (H.port hub.new) result }
{
    for row in rows {
        tell_row(rt, row, watch, hub)?;
    }
    Ok(())
}

/// Tells the hub the settings.
fn tell_settings<R: Wait, H: HubPort>(
    rt: &R,
    alloc: Global,
    settings: &Settings,
    watch: &mut Watch,
    hub: &mut H,
) -> Result<(), DrainFault>
    ensures { TellsAll (tells (Some settings.now)) watch.old watch.new (H.port hub.old) (H.port hub.new) result }
{
    tell_lists(rt, alloc, settings, watch, hub)?;
    tell_rows(rt, settings.tenants.as_slice(), watch, hub)?;
    Ok(())
}

/// Tells the hub new settings, where there are some.
fn tell<R: Wait, H: HubPort>(
    rt: &R,
    alloc: Global,
    fresh: Option<&Settings>,
    watch: &mut Watch,
    hub: &mut H,
) -> Result<(), DrainFault>
    ensures { TellsAll (tells (option_copied fresh.entry)) watch.old watch.new (H.port hub.old) (H.port hub.new) result }
{
    match fresh {
        Some(settings) => tell_settings(rt, alloc, settings, watch, hub),
        None => Ok(()),
    }
}

fn ring_all<B: Ringer>(moves: &[Move], bells: &mut B)
    ensures { Grows (B.rings bells.old) (B.rings bells.new) (map (λ (m : OneMove). m.session) moves.now) }
{
    for one in moves {
        bells.ring(one.session);
    }
}

/// Asks for a tenant's plan, and rings the session of each of its moves. With no moves the tenant is no longer
/// watched. The answer is how many were rung.
fn plan<R: Wait, H: HubPort, B: Ringer>(
    rt: &R,
    tenant: TenantId,
    watch: &mut Watch,
    hub: &mut H,
    bells: &mut B,
) -> Result<u64, DrainFault>
    ensures { AsksAll Counts (command.Plan tenant ∷ []) (scene watch.old (H.port hub.old) (B.rings bells.old)) (scene watch.new (H.port hub.new) (B.rings bells.new)) result }
{
    let moves = moves_of(hub.ask(rt, HubCommand::Plan { tenant })?);
    if moves.is_empty() {
        watch.remove(tenant);
        return Ok(0);
    }
    ring_all(moves.as_slice(), bells);
    Ok(moves.len() as u64)
}

fn plan_all<R: Wait, H: HubPort, B: Ringer>(
    rt: &R,
    due: &[TenantId],
    watch: &mut Watch,
    hub: &mut H,
    bells: &mut B,
) -> Result<u64, DrainFault>
    ensures { AsksAll Counts (plans_for due.now) (scene watch.old (H.port hub.old) (B.rings bells.old)) (scene watch.new (H.port hub.new) (B.rings bells.new)) result }
{
    let mut rings = 0u64;
    for tenant in due {
        let more = plan(rt, *tenant, watch, hub, bells)?;
        rings = rings.saturating_add(more);
    }
    Ok(rings)
}

/// One round. Where there are new settings, the hub is told the lists and each tenant's row, in the settings' order; a
/// tenant whose row was taken in is watched. Then the plan of each watched tenant is asked for, in rising order, and
/// the session of each move is rung, in the plan's order; a tenant whose plan has no moves is no longer watched. The
/// answer is the number of rings. After an `Err` the tenants whose plan wasn't answered stay watched.
pub fn drain_round<R: Wait, H: HubPort, B: Ringer>(
    rt: &R,
    alloc: Global,
    fresh: Option<&Settings>,
    watch: &mut Watch,
    hub: &mut H,
    bells: &mut B,
) -> Result<u64, DrainFault>
    ensures { Rounds (option_copied fresh.entry) (scene watch.old (H.port hub.old) (B.rings bells.old)) (scene watch.new (H.port hub.new) (B.rings bells.new)) result }
{
    tell(rt, alloc, fresh, watch, hub)?;
    let due = watch.tenants(alloc)?;
    let rings = plan_all(rt, due.as_slice(), watch, hub, bells)?;
    Ok(rings)
}
