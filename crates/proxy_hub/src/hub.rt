//! The hub.

ghost use Rattle.std.specs.Prelude.{◌≡◌, IfOk, OnOk, OnErr};
ghost use Rattle.proxy_hub.specs.Hubs.{StandsFor, Keeps, GivesReply, Goes};
ghost use Rattle.proxy_hub.specs.declared.command.HubCommand.{HubCommand as Command};
ghost use Rattle.proxy_hub.specs.declared.command.HubCommand.TheVariants as command;

use crate::command::HubCommand;
use crate::reply::HubReply;
use access_lists::Lists;
use cancel_keys::Keys;
use login_throttle::Throttle;
use pgw_frames::NoMemory;
use proxy_outside::{Addr, Machine, TenantId};
use session_roster::Roster;
use std::alloc::Global;
use tenant_directory::{Applied, Directory, TenantRow};

/// Lists, attempts to log in, rows of tenants, and sessions with their homes and keys.
#[derive(Drop)]
pub struct Hub {
    pub(crate) alloc: Global,
    pub(crate) lists: Lists,
    pub(crate) throttle: Throttle,
    pub(crate) directory: Directory,
    pub(crate) roster: Roster,
    pub(crate) keys: Keys,
}

impl Hub {
    /// These lists count from now on.
    pub(crate) fn set_lists(&mut self, lists: &Lists) -> Result<HubReply, NoMemory>
        ensures reply { IfOk result (GivesReply self.old (command.SetLists lists.now)) }
        ensures state { OnOk result (Goes self.old self.new (command.SetLists lists.now)) }
        ensures err { OnErr result (Keeps self.old self.new) }
    {
        self.lists = lists.copy()?;
        Ok(HubReply::Done)
    }

    /// Takes a tenant's row in, unless it is stale.
    pub(crate) fn update(&mut self, row: &TenantRow) -> Result<HubReply, NoMemory>
        ensures reply { IfOk result (GivesReply self.old (command.Update row.now)) }
        ensures state { OnOk result (Goes self.old self.new (command.Update row.now)) }
        ensures err { OnErr result (Keeps self.old self.new) }
    {
        match self.directory.apply(row.copy()?)? {
            Applied::Done => Ok(HubReply::Done),
            Applied::Stale(version) => Ok(HubReply::Stale(version)),
        }
    }

    /// Takes note of a login that was tried.
    pub(crate) fn report(
        &mut self,
        addr: &Addr,
        tenant: TenantId,
        ok: bool,
        now: u64,
    ) -> Result<HubReply, NoMemory>
        ensures reply { IfOk result (GivesReply self.old (command.Report addr.now tenant ok now)) }
        ensures state { OnOk result (Goes self.old self.new (command.Report addr.now tenant ok now)) }
        ensures err { OnErr result (Keeps self.old self.new) }
    {
        self.throttle.report(addr, tenant, ok, now)?;
        Ok(HubReply::Done)
    }
}
