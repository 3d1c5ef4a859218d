//! Why a connection ended, as plain data.

use proxy_hub::Refusal;
use proxy_session::Why;
use transfer_stages::Cut;

/// Why a link was left.
#[derive(Clone, Copy, Debug, PartialEq, Eq)]
pub(crate) enum Left {
    ReadFault,
    WriteFault,
    Ended,
    BadLength(u32),
    /// The tag of the message that has no place there.
    Unexpected(u8),
    Strayed,
    Late(u64),
}

/// Why a connection ended.
#[derive(Clone, Copy, Debug, PartialEq, Eq)]
pub(crate) enum Told {
    Bye,
    Refused(Refusal),
    BadStartup,
    AuthRefused,
    CancelDone,
    ClientCut,
    ClientLate(u64),
    BadClientFrame(u32),
    BadPodFrame(u32),
    ClientReadFault,
    ClientWriteFault,
    PodReadFault,
    PodWriteFault,
    PodEnded,
    DialFault,
    GreetingCut(Left),
    ExchangeCut(Left),
    JournalFull(u32),
    NoMemory,
}

fn left_by(cut: &Cut) -> Left {
    match cut {
        Cut::ReadFault => Left::ReadFault,
        Cut::WriteFault => Left::WriteFault,
        Cut::Ended => Left::Ended,
        Cut::BadLength(n) => Left::BadLength(*n),
        Cut::Unexpected(frame) => Left::Unexpected(frame.tag),
        Cut::Strayed(_) => Left::Strayed,
        Cut::Late(n) => Left::Late(*n),
    }
}

pub(crate) fn told_by(why: &Why) -> Told {
    match why {
        Why::Bye => Told::Bye,
        Why::Refused(refusal) => Told::Refused(*refusal),
        Why::BadStartup(_) => Told::BadStartup,
        Why::AuthRefused(_) => Told::AuthRefused,
        Why::CancelDone => Told::CancelDone,
        Why::ClientCut => Told::ClientCut,
        Why::ClientLate(n) => Told::ClientLate(*n),
        Why::BadClientFrame(n) => Told::BadClientFrame(*n),
        Why::BadPodFrame(n) => Told::BadPodFrame(*n),
        Why::ClientReadFault => Told::ClientReadFault,
        Why::ClientWriteFault => Told::ClientWriteFault,
        Why::PodReadFault => Told::PodReadFault,
        Why::PodWriteFault => Told::PodWriteFault,
        Why::PodEnded => Told::PodEnded,
        Why::DialFault => Told::DialFault,
        Why::GreetingCut(cut) => Told::GreetingCut(left_by(cut)),
        Why::ExchangeCut(cut) => Told::ExchangeCut(left_by(cut)),
        Why::JournalFull(most) => Told::JournalFull(*most),
        Why::NoMemory => Told::NoMemory,
    }
}
