//! HMAC over SHA-256.

ghost use Rattle.std.specs.Prelude.{◌≡◌, ◌≤◌, length, map, bit_xor};
ghost use Rattle.revival_token.specs.Hmac.{hmac, padded, short_key};

use sha2::{Digest, Sha256};

/// A key of 64 bytes at most, with zero bytes behind it.
fn block_of(key: &[u8]) -> [u8; 64]
    requires { length key.now ≤ 64 }
    ensures { result ≡ padded key.now }
{
    let mut block = [0u8; 64];
    block[..key.len()].copy_from_slice(key);
    block
}

/// The block of a key of any length.
fn key_block(key: &[u8]) -> [u8; 64]
    ensures { result ≡ padded (short_key key.now) }
{
    if key.len() > 64 {
        let short = Sha256::digest(key);
        return block_of(&short);
    }
    block_of(key)
}

/// The block, each byte of it under this pad.
fn under(pad: u8, block: &[u8; 64]) -> [u8; 64]
    ensures { result ≡ map (λ c. bit_xor c pad) block.now }
{
    let mut masked = [0u8; 64];
    for (i, c) in block.iter().enumerate() {
        masked[i] = c ^ pad;
    }
    masked
}

/// The HMAC of a message under a key of any length (RFC 2104). It takes no memory.
#[tactic(auto, unfolding(crate::specs::Hmac::hmac))]
pub fn hmac_sha256(key: &[u8], message: &[u8]) -> [u8; 32]
    ensures { result ≡ hmac key.now message.now }
{
    let block = key_block(key);
    let mut inner = Sha256::new();
    inner.update(under(0x36, &block).as_slice());
    inner.update(message);
    let inside = inner.finalize();
    let mut outer = Sha256::new();
    outer.update(under(0x5c, &block).as_slice());
    outer.update(inside.as_slice());
    outer.finalize()
}
