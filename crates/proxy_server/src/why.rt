//! Why a connection ended, as a word.

use proxy_hub::Refusal;
use proxy_session::Why;

fn refused(why: Refusal) -> &'static str {
    match why {
        Refusal::Denied(_) => "denied",
        Refusal::NotAllowed => "not-allowed",
        Refusal::Throttled(_) => "throttled",
        Refusal::NoTenant => "no-tenant",
        Refusal::NoPod => "no-pod",
        Refusal::NoNumbers => "no-numbers",
    }
}

/// The word for why a connection ended.
pub(crate) fn word_of(why: &Why) -> &'static str {
    match why {
        Why::Bye => "bye",
        Why::Refused(refusal) => refused(*refusal),
        Why::BadStartup(_) => "bad-startup",
        Why::AuthRefused(_) => "login-refused",
        Why::CancelDone => "cancel",
        Why::ClientCut => "client-cut",
        Why::ClientLate(_) => "client-late",
        Why::BadClientFrame(_) => "bad-client-message",
        Why::BadPodFrame(_) => "bad-pod-message",
        Why::ClientReadFault => "client-read-fault",
        Why::ClientWriteFault => "client-write-fault",
        Why::PodReadFault => "pod-read-fault",
        Why::PodWriteFault => "pod-write-fault",
        Why::PodEnded => "pod-ended",
        Why::DialFault => "no-dial",
        Why::GreetingCut(_) => "greeting-cut",
        Why::ExchangeCut(_) => "exchange-cut",
        Why::JournalFull(_) => "journal-full",
        Why::NoMemory => "no-memory",
    }
}
