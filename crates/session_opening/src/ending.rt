//! Why a client gets no session.

ghost use Rattle.std.specs.Prelude.{◌≡◌};
ghost use Rattle.session_asks.specs.Greetings.{is_login_code};
ghost use Rattle.std.specs.List.{list_any};
ghost use Rattle.session_opening.specs.Endings.{fault_ending, outcome, refusal_rejection, rejection_of};

use pgw_messages::{Field, Fields, PodKey};
use proxy_hub::{HubFault, Refusal};
use session_greeting::Greeted;
use startup_route::Rejection;
use transfer_stages::Cut;

/// Why a client gets no session.
#[derive(Drop)]
pub enum Ending {
    /// The hub lets it not in, or has no pod for it.
    Refused(Refusal),
    /// Each pod that was dialed was dialed in vain, and there are no more, or three were dialed.
    DialFault,
    /// The hub takes no more than so many commands.
    JournalFull(u32),
    /// The pod refused it, by an ErrorResponse with these fields, which was passed on.
    AuthRefused(Fields),
    /// It sent a Terminate, which was sent on.
    Left,
    /// The pod's link came to its end, or its message has no place in a greeting.
    PodCut(Cut),
    /// The client came to its end.
    ClientCut(Cut),
    NoMemory,
}

/// The hub wasn't asked.
pub(crate) fn fault_ending(fault: HubFault) -> Ending
    ensures { result ≡ fault_ending fault }
{
    match fault {
        HubFault::NoMemory => Ending::NoMemory,
        HubFault::JournalFull(most) => Ending::JournalFull(most),
    }
}

/// What a greeting comes to: the pod's key, where it gave one, or why there is no session.
pub(crate) fn outcome(greeted: Greeted) -> Result<Option<PodKey>, Ending>
    ensures { result ≡ outcome greeted }
{
    match greeted {
        Greeted::Ready(key, _) => Ok(key),
        Greeted::Refused(fields) => Err(Ending::AuthRefused(fields)),
        Greeted::Left => Err(Ending::Left),
        Greeted::PodCut(c) => Err(Ending::PodCut(c)),
        Greeted::ClientCut(c) => Err(Ending::ClientCut(c)),
        Greeted::NoMemory => Err(Ending::NoMemory),
    }
}

/// Whether this is a code of class 28, invalid authorization.
fn is_login_code(f: &Field) -> bool
    ensures { result ≡ is_login_code f.now }
{
    f.code == b'C' && f.value.as_str().starts_with("28")
}

/// Whether an ErrorResponse with these fields says that the login failed.
pub(crate) fn refuses_login(fields: &Fields) -> bool
    ensures { result ≡ list_any is_login_code fields.now }
{
    fields.as_slice().iter().any(|f| is_login_code(f))
}

/// What the client is told of a refusal.
fn refusal_rejection(why: Refusal) -> Rejection
    ensures { result ≡ refusal_rejection why }
{
    match why {
        Refusal::Denied(place) => Rejection::Denied(place),
        Refusal::NotAllowed => Rejection::NotAllowed,
        Refusal::Throttled(until) => Rejection::Throttled(until),
        Refusal::NoTenant => Rejection::NoTenant,
        Refusal::NoPod => Rejection::NoPod,
        Refusal::NoNumbers => Rejection::NoNumbers,
    }
}

impl Ending {
    /// What the client is told. It is told nothing where it may have heard a pod, left by itself, or is gone.
    pub fn rejection(&self) -> Option<Rejection>
        ensures { result ≡ rejection_of self.now }
    {
        match self {
            Ending::Refused(why) => Some(refusal_rejection(*why)),
            Ending::DialFault => Some(Rejection::DialFault),
            Ending::JournalFull(_) => Some(Rejection::JournalFull),
            Ending::AuthRefused(_) => None,
            Ending::Left => None,
            Ending::PodCut(_) => None,
            Ending::ClientCut(_) => None,
            Ending::NoMemory => None,
        }
    }
}
