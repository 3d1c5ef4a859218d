//! The keys of all sessions.

ghost use Rattle.std.specs.Prelude.{◌≡◌, Some, is_some, IfOk, OnOk, OnErr};
ghost use Rattle.std.specs.FinMap as map;
ghost use Rattle.cancel_keys.specs.Given.{secret_of, key_of, fresh};
ghost use Rattle.cancel_keys.specs.Tables.{bound, target_of};

use crate::given::Given;
use pgw_frames::NoMemory;
use pgw_messages::PodKey;
use proxy_outside::{Addr, ClientKey, Place, SessionNo};
use std::alloc::Global;
use std::collections::BTreeMap;
use std::marker::Model;

/// Of each session that has a key: the address to which it was given, its secret, and the place and
/// the pod's key that it stands for, once they are bound. Contracts see a finite map.
#[derive(Drop)]
pub struct Keys {
    given: BTreeMap<SessionNo, Given>,
}

impl Model for Keys {
    ghost use Rattle.std.specs.Coded.{codes};
    ghost use Rattle.std.specs.FinMap as map;
    ghost use Rattle.proxy_outside.specs.Orders.{sessions};
    ghost use Rattle.proxy_outside.specs.Tables.{table_of};
    ghost use Rattle.cancel_keys.specs.declared.given.Given.{Given};

    ghost Value = { map.FinMap sessions Given };

    ghost coded = { map.code (Prim.hlevel codes) (Prim.hlevel codes) };

    ghost view = { λ k. table_of k.given };
}

/// The low 32 bits of a word.
fn secret_of(word: u64) -> u32
    ensures { result ≡ secret_of word }
{
    (word & 0xffff_ffff) as u32
}

impl Keys {
    /// No session has a key. It takes no memory.
    pub fn new(alloc: Global) -> Keys
        ensures { result ≡ map.empty }
    {
        Keys {
            given: BTreeMap::new(alloc),
        }
    }

    /// Gives a session a key for a client of this address: the session's number, and the low 32 bits
    /// of a random word. An earlier key of the session goes, with what it stood for. Only a session
    /// without a key takes memory. An `Err` changes nothing.
    pub fn give(&mut self, session: SessionNo, addr: Addr, word: u64) -> Result<ClientKey, NoMemory>
        ensures ok { OnOk result (self.new ≡ map.insert self.old session (fresh addr word)) }
        ensures value { IfOk result (λ key. key ≡ key_of session word) }
        ensures err { OnErr result (self.new ≡ self.old) }
    {
        let secret = secret_of(word);
        self.given.insert(
            session,
            Given {
                addr,
                secret,
                target: None,
            },
        )?;
        Ok(ClientKey {
            process: session.0,
            secret,
        })
    }

    /// Lets a session's key stand for its pod's key, at the place where the session is. `false` where
    /// the session has no key; nothing changes then. It takes no memory.
    pub fn bind(&mut self, session: SessionNo, place: Place, key: PodKey) -> bool
        ensures value { result ≡ is_some (map.get self.old session) }
        ensures bound { self.new ≡ bound self.old session (place, key) }
    {
        let Some(given) = self.given.get_mut(&session) else {
            return false;
        };
        given.target = Some((place, key));
        true
    }

    /// What a key stands for, where it was given to a client of this address and is bound. It takes
    /// no memory.
    pub fn find(&self, key: ClientKey, addr: &Addr) -> Option<(Place, PodKey)>
        ensures { result ≡ target_of self.now key addr.now }
    {
        let given = self.given.get(&SessionNo(key.process))?;
        if given.opens(key.secret, addr) {
            return given.target;
        }
        None
    }

    /// Takes a session's key away. It takes no memory.
    pub fn drop_key(&mut self, session: SessionNo)
        ensures { self.new ≡ map.remove self.old session }
    {
        self.given.remove(&session);
    }
}
