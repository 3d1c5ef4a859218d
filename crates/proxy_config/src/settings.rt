//! The settings, and the lists of them.

ghost use Rattle.std.specs.Prelude.{◌≡◌, [], ◌∷◌, ◌++◌, OnOk, IfOk};
ghost use Rattle.proxy_config.specs.Settings.{allowed, all_allowed, entries_of};

use access_lists::{Deny, Lists, Net};
use pgw_frames::{NoMemory, Text};
use pgw_messages::Items;
use proxy_outside::{Addr, TenantId};
use std::alloc::Global;
use tenant_directory::TenantRow;

/// Networks, in the order of the text.
pub type Nets = Items<Net>;

/// Deny entries, in the order of the text.
pub type Denies = Items<Deny>;

/// Allow entries, in the order of the text.
pub type Allows = Items<Allow>;

/// Tenants with their pods, in the order of the text.
pub type TenantRows = Items<TenantRow>;

/// An address and a port to listen on.
#[derive(Clone, Copy, Debug, PartialEq, Eq)]
pub struct Spot {
    pub addr: Addr,
    pub port: u16,
}

/// The networks from which a tenant's clients may come; with none, no client may.
#[derive(Debug, Drop)]
pub struct Allow {
    pub tenant: TenantId,
    pub networks: Nets,
}

/// The proxy's settings.
#[derive(Debug, Drop)]
pub struct Settings {
    pub listen: Spot,
    /// The seconds after which the settings are read again.
    pub period: u64,
    /// How many idle reads of a pod's connection end a greeting or a move.
    pub patience: u64,
    /// How many idle reads of a client's connection end its login.
    pub login_waits: u64,
    pub deny: Denies,
    pub allow: Allows,
    pub tenants: TenantRows,
}

fn copy(alloc: Global, deny: &Deny) -> Result<Deny, NoMemory>
    ensures { IfOk result (λ d. d ≡ deny.now) }
{
    Ok(Deny {
        who: deny.who,
        until: deny.until,
        reason: Text::of(alloc, deny.reason.as_str())?,
    })
}

fn add_denies(alloc: Global, lists: &mut Lists, denies: &[Deny]) -> Result<(), NoMemory>
    ensures { OnOk result (lists.new ≡ record lists.old { denies = lists.old.denies ++ denies.now }) }
{
    for deny in denies {
        lists.add_deny(copy(alloc, deny)?)?;
    }
    Ok(())
}

fn add_networks(lists: &mut Lists, tenant: TenantId, networks: &[Net]) -> Result<(), NoMemory>
    ensures { OnOk result (lists.new ≡ record lists.old { allows = lists.old.allows ++ allowed tenant networks.now }) }
{
    for net in networks {
        lists.add_allow(tenant, Some(*net))?;
    }
    Ok(())
}

fn add_allow(lists: &mut Lists, allow: &Allow) -> Result<(), NoMemory>
    ensures { OnOk result (lists.new ≡ record lists.old { allows = lists.old.allows ++ all_allowed (allow.now ∷ []) }) }
{
    if allow.networks.is_empty() {
        return lists.add_allow(allow.tenant, None);
    }
    add_networks(lists, allow.tenant, allow.networks.as_slice())
}

fn add_allows(lists: &mut Lists, allows: &[Allow]) -> Result<(), NoMemory>
    ensures { OnOk result (lists.new ≡ record lists.old { allows = lists.old.allows ++ all_allowed allows.now }) }
{
    for allow in allows {
        add_allow(lists, allow)?;
    }
    Ok(())
}

impl Settings {
    /// The deny entries and then the allow entries, in their order. An allow entry without networks
    /// makes an empty allow list.
    pub fn lists(&self, alloc: Global) -> Result<Lists, NoMemory>
        ensures { IfOk result (λ l. l ≡ entries_of self.now) }
    {
        let mut lists = Lists::new(alloc);
        add_denies(alloc, &mut lists, self.deny.as_slice())?;
        add_allows(&mut lists, self.allow.as_slice())?;
        Ok(lists)
    }
}
