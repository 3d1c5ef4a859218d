use super::*;
use proxy_outside::{Addr, TenantId};
use std::test::*;

const CLIENT: Addr = Addr::V4(0x0a01_0203);

const TENANT: TenantId = TenantId(7);

#[test]
fn waits_after_failures(rt: HostRuntime) -> Result<(), Fail> {
    // The moment up to which one waits, where the last of so many failures was at 100.
    let rows = [(1, 101), (2, 102), (12, 2_148), (13, 3_700), (14, 3_700)];
    for (failures, until) in rows {
        let mut throttle = Throttle::new(rt.alloc());
        for _ in 0..failures {
            throttle.report(&CLIENT, TENANT, false, 100)?;
        }
        let at = |now| throttle.check(&CLIENT, TENANT, now);
        assert_eq!(rt; at(100), Allowance::Until(until), "after {failures}");
        assert_eq!(rt; at(until - 1), Allowance::Until(until), "after {failures}");
        assert_eq!(rt; at(until), Allowance::Go, "after {failures}");
    }
    Ok(())
}

/// A login that was tried: at which tenant, whether it succeeded, and when.
type Login = (u32, bool, u64);

#[test]
fn answers_by_the_last_failures(rt: HostRuntime) -> Result<(), Fail> {
    // A success clears, each tenant counts by itself, and the last failure's moment counts, not the
    // greatest.
    let rows: [(&[Login], Allowance); 7] = [
        (&[], Allowance::Go),
        (&[(7, false, 100), (7, true, 100)], Allowance::Go),
        (&[(7, true, 100), (7, false, 100)], Allowance::Until(101)),
        (&[(7, false, 100), (8, true, 100)], Allowance::Until(101)),
        (&[(8, false, 100), (8, false, 100)], Allowance::Go),
        (&[(7, false, 500), (7, false, 99)], Allowance::Until(101)),
        (&[(7, false, u64::MAX)], Allowance::Until(u64::MAX)),
    ];
    for (logins, answer) in rows {
        let mut throttle = Throttle::new(rt.alloc());
        for &(tenant, ok, moment) in logins {
            throttle.report(&CLIENT, TenantId(tenant), ok, moment)?;
        }
        assert_eq!(rt;
            throttle.check(&CLIENT, TENANT, 100),
            answer,
            "after {logins:?}"
        );
    }
    Ok(())
}

#[test]
fn addresses_count_by_themselves(rt: HostRuntime) -> Result<(), Fail> {
    let mut throttle = Throttle::new(rt.alloc());
    throttle.report(&CLIENT, TENANT, false, 100)?;
    for addr in [Addr::V4(0x0a01_0204), Addr::V6(0x0a01_0203)] {
        assert_eq!(rt; throttle.check(&addr, TENANT, 100), Allowance::Go);
        throttle.report(&addr, TENANT, true, 100)?;
    }
    assert_eq!(rt; throttle.check(&CLIENT, TENANT, 100), Allowance::Until(101));
    Ok(())
}
