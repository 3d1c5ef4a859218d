//! The first admission at a new hub.

ghost use Rattle.std.specs.Prelude.{◌≡◌, IfOk, OnOk};
ghost use Rattle.proxy_hub.specs.Hubs.{StandsFor};
ghost use Rattle.proxy_hub.specs.States.{State, opening};
ghost use Rattle.proxy_hub.specs.Steps.{hub_rules, refusal_of};
ghost use Rattle.proxy_hub.specs.declared.command.HubCommand.TheVariants as command;
ghost use Rattle.settings_check.specs.Trials.{updated, hub_with, told, as_refusal, CanBeFirst, IsTrialOf};

use crate::question::Client;
use pgw_frames::NoMemory;
use proxy_config::Settings;
use proxy_hub::{Hub, HubCommand, HubReply, Refusal};
use proxy_outside::Machine;
use std::alloc::Global;
use tenant_directory::TenantRow;

/// What a new hub says to its first client.
#[derive(Clone, Copy, Debug, PartialEq, Eq)]
pub enum Trial {
    Pass,
    /// The place of the deny entry, counted from 0.
    Denied(u32),
    /// No network of the tenant's allow list has the client's address.
    NotAllowed,
    NoTenant,
    /// No pod of the tenant runs.
    NoPod,
}

/// Tells the hub something, whatever it replies.
fn tell(hub: &mut Hub, c: HubCommand) -> Result<(), NoMemory>
    ensures { OnOk result ((s : State) → StandsFor hub.old s → StandsFor hub.new (hub_rules.next s c)) }
{
    let reply = hub.step(&c);
    drop(c);
    drop(reply?);
    Ok(())
}

fn update_all(hub: &mut Hub, rows: &[TenantRow]) -> Result<(), NoMemory>
    ensures { OnOk result ((s : State) → StandsFor hub.old s → StandsFor hub.new (updated s rows.now)) }
{
    for row in rows {
        tell(hub, HubCommand::Update(row.copy()?))?;
    }
    Ok(())
}

/// Makes a new hub one with these settings.
fn set_up(alloc: Global, hub: &mut Hub, settings: &Settings) -> Result<(), NoMemory>
    ensures { OnOk result (StandsFor hub.old opening → StandsFor hub.new (hub_with settings.now)) }
{
    let lists = settings.lists(alloc)?;
    tell(hub, HubCommand::SetLists(lists))?;
    update_all(hub, settings.tenants.as_slice())?;
    Ok(())
}

/// What a reply refuses.
fn told(reply: HubReply) -> Option<Refusal>
    ensures { result ≡ told reply }
{
    match reply {
        HubReply::No(why) => Some(why),
        other => {
            drop(other);
            None
        }
    }
}

/// What stands against a session of such a client.
fn refusal(hub: &mut Hub, client: &Client) -> Result<Option<Refusal>, NoMemory>
    ensures { IfOk result (λ r. (s : State) → StandsFor hub.old s → r ≡ refusal_of s client.now.addr client.now.tenant client.now.moment) }
{
    let reply = hub.step(&HubCommand::Admit {
        addr: client.addr,
        tenant: client.tenant,
        now: client.moment,
    })?;
    Ok(told(reply))
}

/// At a hub that was asked nothing yet no login is held back, and numbers are left.
fn trial_of(refusal: Option<Refusal>) -> Trial
    requires { CanBeFirst refusal }
    ensures { as_refusal result ≡ refusal }
{
    match refusal {
        None => Trial::Pass,
        Some(Refusal::Denied(place)) => Trial::Denied(place),
        Some(Refusal::NotAllowed) => Trial::NotAllowed,
        Some(Refusal::NoTenant) => Trial::NoTenant,
        Some(Refusal::NoPod) => Trial::NoPod,
        Some(Refusal::Throttled(_)) => unreachable!(),
        Some(Refusal::NoNumbers) => unreachable!(),
    }
}

/// Sets a new hub up, and lets a client come.
fn first_trial(
    alloc: Global,
    hub: &mut Hub,
    settings: &Settings,
    client: &Client,
) -> Result<Trial, NoMemory>
    requires { StandsFor hub.old opening }
    ensures { IfOk result (IsTrialOf settings.now client.now) }
{
    set_up(alloc, hub, settings)?;
    let refusal = refusal(hub, client)?;
    Ok(trial_of(refusal))
}

/// The answer of a new hub with these settings to a client that comes first.
pub fn try_admission(alloc: Global, settings: &Settings, client: &Client) -> Result<Trial, NoMemory>
    ensures { IfOk result (IsTrialOf settings.now client.now) }
{
    let mut hub = Hub::opening(alloc)?;
    let trial = first_trial(alloc, &mut hub, settings, client);
    drop(hub);
    trial
}
