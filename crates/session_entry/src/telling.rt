//! Telling a client why it isn't served.

ghost use Rattle.session_entry.specs.Telling.{Tells};

use link_io::write_message;
use proxy_outside::Sink;
use startup_route::Rejection;
use std::alloc::Global;

/// Writes the one ErrorResponse that a client gets that isn't served, as far as its sink takes it. Where there is no
/// memory for it nothing is written, and the answer is `false`.
pub fn tell<K: Sink>(alloc: Global, client_out: &mut K, why: Rejection) -> bool
    ensures { Tells why (K.target client_out.old) (K.target client_out.new) result }
{
    match why.frame(alloc) {
        Ok(f) => {
            let _whole = write_message(client_out, &f);
            true
        }
        Err(_) => false,
    }
}
