//! Passing a pod's message on to the client.

ghost use Rattle.std.specs.Prelude.{◌≡◌};
ghost use Rattle.pgw_frames.specs.Frames.{IsGood, frame_bytes};
ghost use Rattle.session_model.specs.Heard.{with_key};
ghost use Rattle.link_io.specs.Writing.{WritesAll};
ghost use Rattle.session_greeting.specs.Meanings.{key_message};

use link_io::{write_all, write_message};
use pgw_frames::Frame;
use pgw_messages::tags::BACKEND_KEY_DATA;
use proxy_outside::{ClientKey, Sink};

/// The BackendKeyData with this key.
fn key_message(key: ClientKey) -> [u8; 13]
    ensures { result ≡ key_message key }
{
    let p = key.process.to_be_bytes();
    let s = key.secret.to_be_bytes();
    [
        75, 0, 0, 0, 12, p[0], p[1], p[2], p[3], s[0], s[1], s[2], s[3],
    ]
}

/// Passes the message on, with the client's key where it is a BackendKeyData, and says whether it did.
pub(crate) fn pass_on<K: Sink>(client_out: &mut K, f: &Frame, key: ClientKey) -> bool
    requires { IsGood f.now }
    ensures { WritesAll result (K.target client_out.old) (K.target client_out.new) (frame_bytes (with_key key f.now)) }
{
    if f.tag == BACKEND_KEY_DATA {
        let message = key_message(key);
        return write_all(client_out, &message);
    }
    write_message(client_out, f)
}
