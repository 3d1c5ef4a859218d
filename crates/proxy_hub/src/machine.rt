//! The hub as a sequential object.

use crate::command::HubCommand;
use crate::hub::Hub;
use crate::reply::HubReply;
use access_lists::Lists;
use cancel_keys::Keys;
use login_throttle::Throttle;
use pgw_frames::NoMemory;
use proxy_outside::Machine;
use session_roster::Roster;
use std::alloc::Global;
use tenant_directory::Directory;

impl Machine for Hub {
    type Command = HubCommand;

    type Reply = HubReply;

    ghost use Rattle.proxy_hub.specs.States.{State};
    ghost use Rattle.proxy_hub.specs.Steps.{hub_rules};
    ghost use Rattle.proxy_hub.specs.Hubs.{StandsFor};

    ghost State = { State };

    ghost rules = { hub_rules };

    ghost stands_for = { StandsFor };

    fn opening(alloc: Global) -> Result<Hub, NoMemory> {
        Ok(Hub {
            alloc,
            lists: Lists::new(alloc),
            throttle: Throttle::new(alloc),
            directory: Directory::new(alloc),
            roster: Roster::new(alloc),
            keys: Keys::new(alloc),
        })
    }

    fn step(&mut self, c: &HubCommand) -> Result<HubReply, NoMemory> {
        match c {
            HubCommand::SetLists(lists) => self.set_lists(lists),
            HubCommand::Update(row) => self.update(row),
            HubCommand::Admit { addr, tenant, now } => self.admit(addr, *tenant, *now),
            HubCommand::GiveKey {
                session,
                addr,
                word,
            } => self.give_key(*session, *addr, *word),
            HubCommand::Pick {
                tenant,
                first,
                second,
            } => self.pick(*tenant, *first, *second),
            HubCommand::Assign { session, place } => self.assign(*session, *place),
            HubCommand::Bind { session, key } => Ok(self.bind(*session, *key)),
            HubCommand::Report {
                addr,
                tenant,
                ok,
                now,
            } => self.report(addr, *tenant, *ok, *now),
            HubCommand::Target { session } => self.target(*session),
            HubCommand::Plan { tenant } => self.plan(*tenant),
            HubCommand::Find { key, addr } => Ok(self.find(*key, addr)),
            HubCommand::Release { session } => Ok(self.release(*session)),
        }
    }
}
