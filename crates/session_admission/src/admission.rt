//! Letting a client in.

ghost use Rattle.session_admission.specs.Admitting.{Admits, GivesKey};
ghost use Rattle.std.specs.Prelude.{◌≡◌};
ghost use Rattle.cancel_keys.specs.Given.{key_of};

use proxy_hub::{HubCommand, HubFault, HubPort, HubReply, Refusal};
use proxy_links::{Clock, Words};
use proxy_outside::{Addr, ClientKey, SessionNo, TenantId};
use std::sync::Wait;

/// Whether a client is let in.
#[derive(Clone, Copy, Debug, PartialEq, Eq)]
pub enum Admission {
    /// It is, as this session.
    Admitted(SessionNo),
    /// The hub lets it not in.
    Refused(Refusal),
    /// The hub wasn't asked.
    Fault(HubFault),
}

/// Asks that a client of this address be let in, at the moment that the clock gives.
#[tactic(auto, using(crate::proofs::Asked::asked_one, crate::proofs::Asked::asked_none))]
pub fn admit<W: Wait, H: HubPort, C: Clock>(
    rt: &W,
    hub: &mut H,
    clock: &mut C,
    peer: Addr,
    tenant: TenantId,
) -> Admission
    ensures { Admits peer tenant (H.port hub.old) (H.port hub.new) (C.given clock.old) (C.given clock.new) result }
{
    let now = clock.now();
    match hub.ask(
        rt,
        HubCommand::Admit {
            addr: peer,
            tenant,
            now,
        },
    ) {
        Ok(HubReply::Admitted(session)) => Admission::Admitted(session),
        Ok(HubReply::No(why)) => Admission::Refused(why),
        Ok(_) => unreachable!(),
        Err(fault) => Admission::Fault(fault),
    }
}

/// The key that a hub makes of this word.
fn key_by(session: SessionNo, word: u64) -> ClientKey
    ensures { result ≡ key_of session word }
{
    ClientKey {
        process: session.0,
        secret: (word & 0xffff_ffff) as u32,
    }
}

/// Asks for the session's key, made of a random word. Where the session isn't live any more, the key is the one that
/// would have been made.
#[tactic(auto, using(crate::proofs::Asked::asked_one, crate::proofs::Asked::asked_none))]
pub fn give_key<W: Wait, H: HubPort, D: Words>(
    rt: &W,
    hub: &mut H,
    words: &mut D,
    session: SessionNo,
    peer: Addr,
) -> Result<ClientKey, HubFault>
    ensures { GivesKey session peer (H.port hub.old) (H.port hub.new) (D.given words.old) (D.given words.new) result }
{
    let word = words.next();
    match hub.ask(
        rt,
        HubCommand::GiveKey {
            session,
            addr: peer,
            word,
        },
    ) {
        Ok(HubReply::Key(key)) => Ok(key),
        Ok(HubReply::NoSession) => Ok(key_by(session, word)),
        Ok(_) => unreachable!(),
        Err(fault) => Err(fault),
    }
}
