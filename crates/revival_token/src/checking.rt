//! Judging a token.

ghost use Rattle.std.specs.Prelude.{◌≡◌, ◌==◌, ◌+◌, ◌≤◌, ◌&&◌, length, filter, not};
ghost use Rattle.std.specs.List.{zip};
ghost use Rattle.std.specs.Str.{is_utf8};
ghost use Rattle.revival_token.specs.Token.{number32, number64, user_len, user_in, has_user, has_form, is_signed, check_of};

use crate::fault::TokenFault;
use crate::hmac::hmac_sha256;
use proxy_outside::TenantId;
use std::str;

/// The number of 32 bits at this place.
fn number32(b: &[u8], at: usize) -> u32
    requires { at + 4 ≤ length b.now }
    ensures { result ≡ number32 b.now at }
{
    let Some((front, _)) = b[at..].split_first_chunk::<4>() else {
        return 0;
    };
    u32::from_be_bytes(*front)
}

/// The number of 64 bits at this place.
fn number64(b: &[u8], at: usize) -> u64
    requires { at + 8 ≤ length b.now }
    ensures { result ≡ number64 b.now at }
{
    let Some((front, _)) = b[at..].split_first_chunk::<8>() else {
        return 0;
    };
    u64::from_be_bytes(*front)
}

/// Whether it is UTF-8.
fn is_unicode(bytes: &[u8]) -> bool
    ensures { result ≡ is_utf8 bytes.now }
{
    str::from_utf8(bytes).is_ok()
}

/// Whether there are just as many bytes as the user's length says, and the user is a text.
#[tactic(auto, unfolding(crate::specs::Token::has_user))]
fn has_user(token: &[u8]) -> bool
    requires { 49 ≤ length token.now }
    ensures { result ≡ has_user token.now }
{
    let len = number32(token, 1) as usize;
    token.len() == len + 49 && is_unicode(&token[5..5 + len])
}

/// Whether it is laid out as a token.
#[tactic(auto, unfolding(crate::specs::Token::has_form))]
fn has_form(token: &[u8]) -> bool
    ensures { result ≡ has_form token.now }
{
    token.len() >= 49 && token[0] == 1 && has_user(token)
}

/// How many bytes differ, place by place. Each of them is looked at, so that the time which it takes
/// doesn't tell where the first one is.
fn differing(a: &[u8], b: &[u8]) -> usize
    ensures { result ≡ length (filter (λ p. not (p.0 == p.1)) (zip a.now b.now)) }
{
    a.iter().zip(b).filter(|p| *p.0 != *p.1).count()
}

/// Whether the last 32 bytes are the HMAC of those before them.
fn is_signed(secret: &[u8], token: &[u8]) -> bool
    requires { 49 ≤ length token.now }
    ensures { result ≡ is_signed secret.now token.now }
{
    let (claims, mac) = token.split_at(token.len() - 32);
    differing(&hmac_sha256(secret, claims), mac) == 0
}

/// Whether a token is of this user at this tenant and still good now, or its first fault. It takes
/// no memory.
#[tactic(auto, using(crate::proofs::Forms::form_some, crate::proofs::Forms::form_whole))]
pub fn check(
    secret: &[u8],
    token: &[u8],
    user: &str,
    tenant: TenantId,
    now: u64,
) -> Result<(), TokenFault>
    ensures { result ≡ check_of secret.now token.now user.now tenant.0 now }
{
    if !has_form(token) {
        return Err(TokenFault::BadForm);
    }
    if !is_signed(secret, token) {
        return Err(TokenFault::BadMac);
    }
    let len = number32(token, 1) as usize;
    if &token[5..5 + len] != user.as_bytes() {
        return Err(TokenFault::OtherUser);
    }
    if number32(token, 5 + len) != tenant.0 {
        return Err(TokenFault::OtherTenant);
    }
    if number64(token, 9 + len) <= now {
        return Err(TokenFault::Expired);
    }
    Ok(())
}
