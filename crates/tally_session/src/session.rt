//! The session.

ghost use Rattle.std.specs.Prelude.{◌≡◌, IfOk};
ghost use Rattle.tally_session.specs.Tally.{token_of};

use crate::reading::{asks_copy, restored, transfer_digits};
use crate::replies::{
    IDLE, copy_done, copy_ended, copy_failed, copy_in, counted, greeting, only_ready,
};
use crate::store::{Nothing, TallyStore};
use pgw_frames::{Bytes, Frame, Frames, NoMemory, Text};
use pgw_messages::{Params, tags};
use session_model::{Dump, Session, digits_reply, restore_reply};
use std::alloc::Global;
use std::marker::Model;

/// The parameter that a pod adds to every session: the token with which it may be revived.
const TOKEN_NAME: &str = "crdb:session_token_base64";

/// How many queries it counted, and in a copy how many messages of data.
#[derive(Clone, Copy, Debug)]
struct Tally {
    count: u64,
    copy: Option<u64>,
}

impl Model for Tally {
    ghost use Rattle.tally_session.specs.Tally.{Tally as model};

    ghost Value = { model };

    ghost view = { λ s. record { count = s.count; copy = s.copy } };

    ghost inverse = { λ t. record { count = t.count; copy = t.copy } };
}

/// A tally after a message, and what was replied.
type Told = (Tally, Frames);

impl Tally {
    ghost use Rattle.tally_session.specs.Tally.{idle, by_query, outside, inside, tells_by, blob_of};

    /// Outside a copy.
    fn idle(count: u64) -> Tally
        ensures { result ≡ idle count }
    {
        Tally { count, copy: None }
    }

    /// In a copy that so many messages of data came to.
    fn copying(count: u64, copied: u64) -> Tally
        ensures { result ≡ record { count = count; copy = Some copied } }
    {
        Tally {
            count,
            copy: Some(copied),
        }
    }

    /// The number as it is moved.
    fn blob(self, alloc: Global) -> Result<Dump, NoMemory>
        ensures { IfOk result (λ d. d ≡ blob_of self.count) }
    {
        Ok(Dump::Blob(Bytes::of(alloc, &self.count.to_be_bytes())?))
    }

    /// Answers a Query outside a copy.
    fn query(self, alloc: Global, token: &str, body: &[u8]) -> Result<Told, NoMemory>
        ensures { IfOk result (λ r. r ≡ by_query token.now self.count body.now) }
    {
        if let Some(digits) = transfer_digits(body) {
            let blob = self.blob(alloc)?;
            let replies = digits_reply(alloc, digits, &blob, token, IDLE)?;
            return Ok((Tally::idle(self.count), replies));
        }
        if let Some(bytes) = restored(alloc, body)? {
            let count = u64::from_be_bytes(bytes);
            return Ok((Tally::idle(count), restore_reply(alloc)?));
        }
        if asks_copy(body) {
            return Ok((Tally::copying(self.count, 0), copy_in(alloc)?));
        }
        let count = self.count.wrapping_add(1);
        Ok((Tally::idle(count), counted(alloc, count)?))
    }

    /// Takes a message outside a copy.
    fn outside_copy(self, alloc: Global, token: &str, f: &Frame) -> Result<Told, NoMemory>
        ensures { IfOk result (λ r. r ≡ outside token.now self.count f.now) }
    {
        let next = Tally::idle(self.count);
        match f.tag {
            tags::QUERY => self.query(alloc, token, f.body.as_slice()),
            tags::SYNC => Ok((next, only_ready(alloc)?)),
            _ => Ok((next, Frames::new(alloc))),
        }
    }

    /// Takes a message in a copy that so many messages of data came to.
    fn inside_copy(
        self,
        alloc: Global,
        token: &str,
        copied: u64,
        f: &Frame,
    ) -> Result<Told, NoMemory>
        ensures { IfOk result (λ r. r ≡ inside token.now self.count copied f.now) }
    {
        match f.tag {
            tags::COPY_DATA => {
                let next = Tally::copying(self.count, copied.wrapping_add(1));
                Ok((next, Frames::new(alloc)))
            }
            tags::COPY_DONE => Ok((Tally::idle(self.count), copy_done(alloc, copied)?)),
            tags::COPY_FAIL => Ok((Tally::idle(self.count), copy_failed(alloc)?)),
            tags::SYNC | tags::FLUSH => {
                Ok((Tally::copying(self.count, copied), Frames::new(alloc)))
            }
            _ => {
                let (next, replies) = self.outside_copy(alloc, token, f)?;
                Ok((next, copy_ended(alloc, replies)?))
            }
        }
    }

    /// Takes a message.
    fn after(self, alloc: Global, token: &str, f: &Frame) -> Result<Told, NoMemory>
        ensures { IfOk result (λ r. r ≡ tells_by token.now self.count f.now self.copy) }
    {
        match self.copy {
            None => self.outside_copy(alloc, token, f),
            Some(copied) => self.inside_copy(alloc, token, copied, f),
        }
    }
}

/// It counts its queries, and keeps the token of the parameters with which it was begun.
#[derive(Debug, Drop)]
pub struct TallySession {
    now: Tally,
    token: Text,
}

impl Model for TallySession {
    ghost use Rattle.tally_session.specs.Tally.{State};

    ghost Value = { State };

    ghost view = { λ s. record { tally = s.now; token = s.token } };
}

/// The token of these parameters, or an empty text.
fn token(alloc: Global, p: &Params) -> Result<Text, NoMemory>
    ensures { IfOk result (λ t. t ≡ token_of p.now) }
{
    Text::of(alloc, p.value(TOKEN_NAME).unwrap_or(""))
}

#[tactic(auto, unfolding(crate::specs::Tally::tally_kind))]
impl Session for TallySession {
    ghost use Rattle.tally_session.specs.Tally.{State as model, StateKept, tally_kind};
    ghost use Rattle.tally_session.specs.Keeps.{keeps_laws};

    type Store = TallyStore;

    ghost State = { model };

    ghost kind = { tally_kind };

    ghost state = { λ s. s };

    ghost kept = { StateKept };

    fn begin(alloc: Global, p: &Params) -> Result<(TallySession, Frames), NoMemory> {
        let token = token(alloc, p)?;
        let now = Tally::idle(0);
        Ok((TallySession { now, token }, greeting(alloc)?))
    }

    fn ask(&self, _alloc: Global, _f: &Frame) -> Result<Option<Nothing>, NoMemory> {
        Ok(None)
    }

    fn tell(
        &mut self,
        alloc: Global,
        f: &Frame,
        _answer: Option<&Nothing>,
    ) -> Result<Frames, NoMemory> {
        let (next, replies) = self.now.after(alloc, self.token.as_str(), f)?;
        self.now = next;
        Ok(replies)
    }

    fn dump(&self, alloc: Global) -> Result<Dump, NoMemory> {
        match self.now.copy {
            None => self.now.blob(alloc),
            Some(_) => Ok(Dump::Not(Text::of(alloc, "session is in a copy")?)),
        }
    }

    ghost laws = { keeps_laws };
}
