//! Why a connection ended.

ghost use Rattle.std.specs.Prelude.{◌≡◌};
ghost use Rattle.proxy_session.specs.Why.{is_no_memory, by_door, by_opening, by_client, by_request, by_response, by_legs, by_finish};

use pgw_messages::Fields;
use proxy_hub::Refusal;
use session_course::Finish;
use session_door::DoorCut;
use session_legs::LegEnd;
use session_opening::Ending;
use session_rounds::is_look;
use startup_route::DoorFault;
use transfer_stages::Cut;

/// Why a connection ended.
#[derive(Drop)]
pub enum Why {
    /// The client sent a Terminate, which was sent on, or came to its end between two messages.
    Bye,
    /// The hub didn't let the client in, or had no pod for it.
    Refused(Refusal),
    /// The client asked for nothing that can be had.
    BadStartup(DoorFault),
    /// The pod refused the login, by an ErrorResponse with these fields, which was passed on.
    AuthRefused(Fields),
    /// The request to cancel was handed on, as far as could be.
    CancelDone,
    /// The client came to its end inside a message, or before it was served.
    ClientCut,
    /// The client was idle so often before its greeting ended.
    ClientLate(u64),
    /// The client's next message has this length, which is none.
    BadClientFrame(u32),
    /// The pod's next message has this length, which is none.
    BadPodFrame(u32),
    ClientReadFault,
    ClientWriteFault,
    PodReadFault,
    PodWriteFault,
    /// The pod came to its end.
    PodEnded,
    /// No pod that was dialed answered.
    DialFault,
    /// The pod's link failed in the greeting, or its message has no place there.
    GreetingCut(Cut),
    /// The pod's link failed in an attempt to move the session, or its message has no place there.
    ExchangeCut(Cut),
    /// The hub takes no more than so many commands.
    JournalFull(u32),
    NoMemory,
}

/// Why, where the first packets came to nothing.
pub(crate) fn by_door(cut: DoorCut) -> Why
    ensures { result ≡ by_door cut }
{
    match cut {
        DoorCut::ReadFault => Why::ClientReadFault,
        DoorCut::WriteFault => Why::ClientWriteFault,
        DoorCut::Ended => Why::ClientCut,
        DoorCut::Late(n) => Why::ClientLate(n),
        DoorCut::NoMemory => Why::NoMemory,
    }
}

/// Why, where the client came to its end in the greeting.
fn by_client(cut: Cut) -> Why
    ensures { result ≡ by_client cut }
{
    match cut {
        Cut::ReadFault => Why::ClientReadFault,
        Cut::WriteFault => Why::ClientWriteFault,
        Cut::Ended => Why::ClientCut,
        Cut::BadLength(n) => Why::BadClientFrame(n),
        Cut::Unexpected(f) => {
            drop(f);
            Why::ClientCut
        }
        Cut::Strayed(_) => Why::ClientCut,
        Cut::Late(n) => Why::ClientLate(n),
    }
}

/// Why, where the opening came to no session.
pub(crate) fn by_opening(ending: Ending) -> Why
    ensures { result ≡ by_opening ending }
{
    match ending {
        Ending::Refused(why) => Why::Refused(why),
        Ending::DialFault => Why::DialFault,
        Ending::JournalFull(most) => Why::JournalFull(most),
        Ending::AuthRefused(fields) => Why::AuthRefused(fields),
        Ending::Left => Why::Bye,
        Ending::PodCut(c) => Why::GreetingCut(c),
        Ending::ClientCut(c) => by_client(c),
        Ending::NoMemory => Why::NoMemory,
    }
}

/// Whether a leg ended for want of memory.
fn is_no_memory(end: LegEnd) -> bool
    ensures { result ≡ is_no_memory end }
{
    match end {
        LegEnd::NoMemory => true,
        LegEnd::Parked => false,
        LegEnd::Over => false,
        LegEnd::Terminated => false,
        LegEnd::Ended => false,
        LegEnd::Cut => false,
        LegEnd::Bad(_) => false,
        LegEnd::ReadFault => false,
        LegEnd::WriteFault => false,
    }
}

/// Why, by the end of the leg that reads the client.
fn by_request(end: LegEnd) -> Why
    ensures { result ≡ by_request end }
{
    match end {
        LegEnd::Parked => Why::Bye,
        LegEnd::Over => Why::Bye,
        LegEnd::Terminated => Why::Bye,
        LegEnd::Ended => Why::Bye,
        LegEnd::Cut => Why::ClientCut,
        LegEnd::Bad(n) => Why::BadClientFrame(n),
        LegEnd::ReadFault => Why::ClientReadFault,
        LegEnd::WriteFault => Why::PodWriteFault,
        LegEnd::NoMemory => Why::NoMemory,
    }
}

/// Why, by the end of the leg that reads the pod.
fn by_response(end: LegEnd) -> Why
    ensures { result ≡ by_response end }
{
    match end {
        LegEnd::Parked => Why::PodEnded,
        LegEnd::Over => Why::PodEnded,
        LegEnd::Terminated => Why::PodEnded,
        LegEnd::Ended => Why::PodEnded,
        LegEnd::Cut => Why::PodEnded,
        LegEnd::Bad(n) => Why::BadPodFrame(n),
        LegEnd::ReadFault => Why::PodReadFault,
        LegEnd::WriteFault => Why::ClientWriteFault,
        LegEnd::NoMemory => Why::NoMemory,
    }
}

/// Why, by the ends of both legs, not both of which were told to stop: want of memory first, then the client's leg where it
/// ended by itself.
fn by_legs(request: LegEnd, response: LegEnd) -> Why
    ensures { result ≡ by_legs request response }
{
    if is_no_memory(response) {
        return Why::NoMemory;
    }
    if is_look(request) {
        return by_response(response);
    }
    by_request(request)
}

/// Why, where a session's course ended.
pub(crate) fn by_finish(finish: Finish) -> Why
    ensures { result ≡ by_finish finish }
{
    match finish {
        Finish::Legs(request, response) => by_legs(request, response),
        Finish::Exchange(c) => Why::ExchangeCut(c),
    }
}
