use super::*;
use proxy_outside::TenantId;
use std::test::*;

const SECRET: &[u8] = b"sixteen bytes, or";

const TENANT: TenantId = TenantId(7);

#[test]
fn vectors_of_rfc_4231(rt: HostRuntime) {
    // Cases 1, 2, 3, 6 and 7: key, message, and both halves of the HMAC.
    let rows: [(&[u8], &[u8], u128, u128); 5] = [
        (
            &[0x0b; 20],
            b"Hi There",
            0xb0344c61d8db38535ca8afceaf0bf12b,
            0x881dc200c9833da726e9376c2e32cff7,
        ),
        (
            b"Jefe",
            b"what do ya want for nothing?",
            0x5bdcc146bf60754e6a042426089575c7,
            0x5a003f089d2739839dec58b964ec3843,
        ),
        (
            &[0xaa; 20],
            &[0xdd; 50],
            0x773ea91e36800e46854db8ebd09181a7,
            0x2959098b3ef8c122d9635514ced565fe,
        ),
        (
            &[0xaa; 131],
            b"Test Using Larger Than Block-Size Key - Hash Key First",
            0x60e431591ee0b67f0d8a26aacbf5b77f,
            0x8e0bc6213728c5140546040f0ee37f54,
        ),
        (
            &[0xaa; 131],
            b"This is a test using a larger than block-size key and a larger than block-size data. The key needs to be hashed before being used by the HMAC algorithm.",
            0x9b09ffa71b942fcb27635fbcd5b0e944,
            0xbfdc63644f0713938a7f51535c3a35e2,
        ),
    ];
    for (key, message, high, low) in rows {
        let mac = hmac_sha256(key, message);
        assert_eq!(rt; &mac[..16], high.to_be_bytes().as_slice());
        assert_eq!(rt; &mac[16..], low.to_be_bytes().as_slice());
    }
}

#[test]
fn a_token_of_fifty_bytes(rt: HostRuntime) -> Result<(), Fail> {
    let token = issue(rt.alloc(), SECRET, "u", TENANT, 100)?;
    let token = token.as_slice();
    let claims = [1, 0, 0, 0, 1, 117, 0, 0, 0, 7, 0, 0, 0, 0, 0, 0, 0, 100];
    assert_eq!(rt; token.len(), 50);
    assert_eq!(rt; &token[..18], &claims[..]);
    assert_eq!(rt; &token[18..], hmac_sha256(SECRET, &claims).as_slice());
    assert_eq!(rt; check(SECRET, token, "u", TENANT, 99), Ok(()));
    assert_eq!(rt;
        check(SECRET, token, "u", TENANT, 100),
        Err(TokenFault::Expired)
    );
    assert_eq!(rt;
        check(SECRET, token, "v", TENANT, 99),
        Err(TokenFault::OtherUser)
    );
    assert_eq!(rt;
        check(SECRET, token, "u", TenantId(8), 99),
        Err(TokenFault::OtherTenant)
    );
    assert_eq!(rt;
        check(SECRET, token, "v", TenantId(8), 100),
        Err(TokenFault::OtherUser)
    );
    assert_eq!(rt;
        check(SECRET, token, "u", TenantId(8), 100),
        Err(TokenFault::OtherTenant)
    );
    assert_eq!(rt;
        check(b"another secret!!", token, "v", TENANT, 99),
        Err(TokenFault::BadMac)
    );
    for cut in 0..50 {
        assert_eq!(rt;
            check(SECRET, &token[..cut], "u", TENANT, 99),
            Err(TokenFault::BadForm),
            "at {cut}"
        );
    }
    Ok(())
}

/// Changes bits of the byte at this place.
fn change(token: &mut [u8], place: usize, bits: u8) {
    if let Some(c) = token.get_mut(place) {
        *c ^= bits;
    }
}

#[test]
fn each_byte_counts(rt: HostRuntime) -> Result<(), Fail> {
    let mut token = issue(rt.alloc(), SECRET, "u", TENANT, 100)?.into_vec();
    for i in 0..50 {
        change(token.as_mut_slice(), i, 0x40);
        let seen = check(SECRET, token.as_slice(), "u", TENANT, 99);
        let want = if i < 5 {
            TokenFault::BadForm
        } else {
            TokenFault::BadMac
        };
        assert_eq!(rt; seen, Err(want), "at {i}");
        change(token.as_mut_slice(), i, 0x40);
    }
    // A user that is no UTF-8.
    change(token.as_mut_slice(), 5, b'u' ^ 0xff);
    let seen = check(SECRET, token.as_slice(), "u", TENANT, 99);
    assert_eq!(rt; seen, Err(TokenFault::BadForm));
    Ok(())
}
