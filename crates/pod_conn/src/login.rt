//! Letting a client in.

ghost use Rattle.std.specs.Prelude.{◌≡◌, ◌==◌, ◌&&◌, ℕ, List, Some, None, length, filter, not, option_map, IfOk};
ghost use Rattle.std.specs.List.{zip, list_any};
ghost use Rattle.std.specs.Str.{bytes_eq, is_utf8};
ghost use Rattle.std.specs.Option.{option_copied};
ghost use Rattle.pgw_frames.specs.Frames.{front};
ghost use Rattle.pgw_messages.specs.declared.params.Pair.{Pair};
ghost use Rattle.pgw_messages.specs.Params.{value_of};
ghost use Rattle.pgw_messages.specs.Startup.{Fits};
ghost use Rattle.pod_conn.specs.Logins.{is_word, password_in, has_login, is_let_in, is_revived, login_fault, token_fault, by_password, by_token, user_name, revival_name};
ghost use Rattle.pod_conn.specs.Letting.{Refuses, Admits, LogsIn, Opens};
ghost use Rattle.pod_conn.specs.Serving.{At};

use crate::end::PodEnd;
use crate::fatal::Fatal;
use crate::params::{REVIVAL, USER, session_params};
use crate::settings::{PodSettings, User};
use crate::wire::{Wire, read_frame};
use base64::DecodeAllocError;
use base64::engine::general_purpose::STANDARD;
use link_io::write_all;
use pgw_frames::{Frame, NoMemory};
use pgw_messages::Params;
use pgw_messages::tags::PASSWORD_MESSAGE;
use proxy_links::Clock;
use proxy_outside::{Sink, Source};
use revival_token::check;
use std::alloc::Global;
use std::str;
use std::sync::Wait;

/// AuthenticationCleartextPassword.
const PASSWORD_REQUEST: [u8; 9] = [b'R', 0, 0, 0, 8, 0, 0, 0, 3];

/// How many bytes differ, place by place. Each of them is looked at, so that the time which it takes doesn't tell where
/// the first one is.
fn differing(a: &[u8], b: &[u8]) -> usize
    ensures { result ≡ length (filter (λ p. not (p.0 == p.1)) (zip a.now b.now)) }
{
    a.iter().zip(b).filter(|p| *p.0 != *p.1).count()
}

/// Whether they are the same, of which the time that it takes tells the lengths alone.
fn is_same(a: &[u8], b: &[u8]) -> bool
    ensures { result ≡ bytes_eq a.now b.now }
{
    a.len() == b.len() && differing(a, b) == 0
}

fn has_login(u: &User, name: &str, password: &[u8]) -> bool
    ensures { result ≡ has_login name.now password.now u.now }
{
    u.name.as_str() == name && is_same(u.password.as_str().as_bytes(), password)
}

/// Whether it is UTF-8.
fn is_unicode(bytes: &[u8]) -> bool
    ensures { result ≡ is_utf8 bytes.now }
{
    str::from_utf8(bytes).is_ok()
}

/// Whether it is a text without a zero byte.
fn is_word(bytes: &[u8]) -> bool
    ensures { result ≡ is_word bytes.now }
{
    !bytes.contains(&0) && is_unicode(bytes)
}

/// The password in the body of a PasswordMessage: one zero-ended text.
fn password_in(body: &[u8]) -> Option<&[u8]>
    ensures { option_copied result ≡ password_in body.now }
{
    let password = body.strip_suffix(&[0])?;
    if is_word(password) {
        Some(password)
    } else {
        None
    }
}

/// Whether one of the users has this name and this password.
fn has_user(users: &[User], name: &str, password: &[u8]) -> bool
    ensures { result ≡ list_any (has_login name.now password.now) users.now }
{
    users.iter().any(|u| has_login(u, name, password))
}

/// Whether the user has this password.
fn is_let_in(pod: &PodSettings, user: Option<&str>, password: &[u8]) -> bool
    ensures { result ≡ is_let_in pod.now (option_copied user.entry) password.now }
{
    match user {
        Some(name) => has_user(pod.users.as_slice(), name, password),
        None => false,
    }
}

/// Why this message lets nobody in.
fn login_fault(pod: &PodSettings, user: Option<&str>, f: &Frame) -> Option<Fatal>
    ensures { result ≡ login_fault pod.now (option_copied user.entry) f.now }
{
    if f.tag != PASSWORD_MESSAGE {
        return Some(Fatal::BadMessage);
    }
    match password_in(f.body.as_slice()) {
        Some(password) => {
            if is_let_in(pod, user, password) {
                None
            } else {
                Some(Fatal::LoginRefused)
            }
        }
        None => Some(Fatal::BadMessage),
    }
}

/// Whether the text is a token of this user that is good now.
fn is_revived(
    alloc: Global,
    pod: &PodSettings,
    now: u64,
    user: Option<&str>,
    text: &str,
) -> Result<bool, NoMemory>
    ensures { IfOk result (λ b. b ≡ is_revived pod.now now (option_copied user.entry) text.now) }
{
    let Some(name) = user else {
        return Ok(false);
    };
    match STANDARD.decode(alloc, text.as_bytes()) {
        Ok(token) => Ok(check(
            pod.secret.as_slice(),
            token.as_slice(),
            name,
            pod.tenant,
            now,
        )
        .is_ok()),
        Err(DecodeAllocError::DecodeError(_)) => Ok(false),
        Err(DecodeAllocError::OutOfMemory) => Err(NoMemory),
    }
}

/// Why the token lets nobody in.
fn token_fault(
    alloc: Global,
    pod: &PodSettings,
    now: u64,
    user: Option<&str>,
    text: &str,
) -> Result<Option<Fatal>, NoMemory>
    ensures { IfOk result (λ f. f ≡ token_fault pod.now now (option_copied user.entry) text.now) }
{
    if is_revived(alloc, pod, now, user, text)? {
        Ok(None)
    } else {
        Ok(Some(Fatal::BadToken))
    }
}

/// Tells the client why its login is refused.
fn refuse<K: Sink>(client_out: &mut K, why: Fatal) -> PodEnd
    ensures { Refuses result (K.target client_out.old) (K.target client_out.new) why }
{
    if write_all(client_out, why.message()) {
        PodEnd::AuthRefused
    } else {
        PodEnd::WriteFault
    }
}

/// Goes on unless there is a fault, which the client is told.
fn admit<K: Sink>(client_out: &mut K, fault: Option<Fatal>) -> Result<(), PodEnd>
    ensures { Admits result (K.target client_out.old) (K.target client_out.new) fault }
{
    match fault {
        None => Ok(()),
        Some(why) => Err(refuse(client_out, why)),
    }
}

/// Reads a message that is to hold the user's password.
fn hear_password<W: Wait, S: Source, K: Sink>(
    rt: &W,
    pod: &PodSettings,
    wire: &mut Wire<S, K>,
    user: Option<&str>,
) -> Result<(), PodEnd>
    ensures { (q : List Pair) → LogsIn result (λ b. by_password pod.now (option_copied user.entry) q (front b) b) q wire.old.held wire.new.held
        (S.origin wire.old.client_in) (S.origin wire.new.client_in) (K.target wire.old.client_out) (K.target wire.new.client_out) }
{
    let f = read_frame(rt, &mut wire.client_in, &mut wire.held)?;
    admit(&mut wire.client_out, login_fault(pod, user, &f))?;
    Ok(())
}

/// Asks for the user's password.
fn log_in<W: Wait, S: Source, K: Sink>(
    rt: &W,
    pod: &PodSettings,
    wire: &mut Wire<S, K>,
    user: Option<&str>,
) -> Result<(), PodEnd>
    ensures { (q : List Pair) (now : ℕ) → LogsIn result (by_token pod.now now (option_copied user.entry) None q) q wire.old.held wire.new.held
        (S.origin wire.old.client_in) (S.origin wire.new.client_in) (K.target wire.old.client_out) (K.target wire.new.client_out) }
{
    if !write_all(&mut wire.client_out, &PASSWORD_REQUEST) {
        return Err(PodEnd::WriteFault);
    }
    hear_password(rt, pod, wire, user)?;
    Ok(())
}

/// Looks at the token of a session that is to be revived.
fn revive<S: Source, K: Sink>(
    alloc: Global,
    pod: &PodSettings,
    wire: &mut Wire<S, K>,
    now: u64,
    user: Option<&str>,
    text: &str,
) -> Result<(), PodEnd>
    ensures { (q : List Pair) → LogsIn result (by_token pod.now now (option_copied user.entry) (Some text.now) q) q wire.old.held wire.new.held
        (S.origin wire.old.client_in) (S.origin wire.new.client_in) (K.target wire.old.client_out) (K.target wire.new.client_out) }
{
    let fault = token_fault(alloc, pod, now, user, text)?;
    admit(&mut wire.client_out, fault)?;
    Ok(())
}

/// Lets the client in by its token, or else by its password.
fn let_in<W: Wait, S: Source, K: Sink, C: Clock>(
    rt: &W,
    alloc: Global,
    pod: &PodSettings,
    wire: &mut Wire<S, K>,
    clock: &mut C,
    params: &Params,
) -> Result<(), PodEnd>
    ensures { (q : List Pair) → At (C.given clock.old) (C.given clock.new) (λ now. LogsIn result
        (by_token pod.now now (value_of user_name params.now) (value_of revival_name params.now) q) q wire.old.held wire.new.held
        (S.origin wire.old.client_in) (S.origin wire.new.client_in) (K.target wire.old.client_out) (K.target wire.new.client_out)) }
{
    let user = params.value(USER);
    match params.value(REVIVAL) {
        Some(text) => {
            let now = clock.now();
            revive(alloc, pod, wire, now, user, text)
        }
        None => log_in(rt, pod, wire, user),
    }
}

/// Lets the client in that came with these parameters of a startup packet, and says with which ones its session begins.
pub(crate) fn open<W: Wait, S: Source, K: Sink, C: Clock>(
    rt: &W,
    alloc: Global,
    pod: &PodSettings,
    wire: &mut Wire<S, K>,
    clock: &mut C,
    params: &Params,
) -> Result<Params, PodEnd>
    ensures { Opens result pod.now params.now (C.given clock.old) (C.given clock.new) wire.old.held wire.new.held
        (S.origin wire.old.client_in) (S.origin wire.new.client_in) (K.target wire.old.client_out) (K.target wire.new.client_out) }
{
    match session_params(alloc, pod, params)? {
        Some(session) => {
            let_in(rt, alloc, pod, wire, clock, params)?;
            Ok(session)
        }
        None => Err(PodEnd::BadStartup),
    }
}
