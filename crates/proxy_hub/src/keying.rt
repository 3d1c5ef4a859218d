//! Keys of sessions, and their ends.

ghost use Rattle.std.specs.Prelude.{◌≡◌, IfOk, OnOk, OnErr};
ghost use Rattle.proxy_hub.specs.Hubs.{StandsFor, Keeps, GivesReply, Goes};
ghost use Rattle.proxy_hub.specs.declared.command.HubCommand.TheVariants as command;

use crate::hub::Hub;
use crate::reply::HubReply;
use pgw_frames::NoMemory;
use pgw_messages::PodKey;
use proxy_outside::{Addr, ClientKey, SessionNo};

impl Hub {
    /// Gives a live session a key.
    pub(crate) fn give_key(
        &mut self,
        session: SessionNo,
        addr: Addr,
        word: u64,
    ) -> Result<HubReply, NoMemory>
        ensures reply { IfOk result (GivesReply self.old (command.GiveKey session addr word)) }
        ensures state { OnOk result (Goes self.old self.new (command.GiveKey session addr word)) }
        ensures err { OnErr result (Keeps self.old self.new) }
    {
        if self.roster.tenant(session).is_none() {
            return Ok(HubReply::NoSession);
        }
        let key = self.keys.give(session, addr, word)?;
        Ok(HubReply::Key(key))
    }

    /// Lets a session's key stand for its pod's key.
    pub(crate) fn bind(&mut self, session: SessionNo, key: PodKey) -> HubReply
        ensures reply { GivesReply self.old (command.Bind session key) result }
        ensures state { Goes self.old self.new (command.Bind session key) }
    {
        // Only a live session has a home.
        let Some(place) = self.directory.home(session) else {
            return HubReply::NoSession;
        };
        if self.keys.bind(session, place, key) {
            HubReply::Done
        } else {
            HubReply::NoSession
        }
    }

    /// What a key stands for.
    pub(crate) fn find(&self, key: ClientKey, addr: &Addr) -> HubReply
        ensures { GivesReply self.now (command.Find key addr.now) result }
    {
        match self.keys.find(key, addr) {
            Some((place, key)) => HubReply::Found(place, key),
            None => HubReply::NoKey,
        }
    }

    /// A session has ended.
    pub(crate) fn release(&mut self, session: SessionNo) -> HubReply
        ensures reply { GivesReply self.old (command.Release session) result }
        ensures state { Goes self.old self.new (command.Release session) }
    {
        if self.roster.tenant(session).is_none() {
            return HubReply::NoSession;
        }
        self.roster.remove(session);
        self.directory.leave(session);
        self.keys.drop_key(session);
        HubReply::Done
    }
}
