//! Telling a client why it gets no session.

ghost use Rattle.session_opening.specs.Endings.{Tells};

use crate::ending::Ending;
use proxy_outside::Sink;
use session_entry::tell;
use std::alloc::Global;

/// Tells the client why, where it is to be told and there is memory for that. The answer is why the call ends.
pub(crate) fn tell_ending<K: Sink>(alloc: Global, client_out: &mut K, why: Ending) -> Ending
    ensures { Tells why (K.target client_out.old) (K.target client_out.new) result }
{
    match why.rejection() {
        Some(rejection) => {
            if tell(alloc, client_out, rejection) {
                return why;
            }
            drop(why);
            Ending::NoMemory
        }
        None => why,
    }
}
