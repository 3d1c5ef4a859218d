use super::*;
use pod_balancer::Homed;
use proxy_outside::{PodNo, SessionNo, TenantId};
use std::test::*;

const TENANT: TenantId = TenantId(7);

const OTHER: TenantId = TenantId(8);

#[test]
fn sessions_come_go_and_move(rt: HostRuntime) -> Result<(), Fail> {
    let mut roster = Roster::new(rt.alloc());
    for (tenant, number) in [(TENANT, 1), (OTHER, 2), (TENANT, 3), (TENANT, 4)] {
        assert_eq!(rt; roster.enrol(tenant)?, Some(SessionNo(number)));
    }
    for (session, pod) in [(3, 1), (1, 1), (2, 1), (3, 2), (3, 1)] {
        roster.settle(SessionNo(session), PodNo(pod))?;
    }
    assert_eq!(rt; roster.count(TENANT, PodNo(1)), 2);
    assert_eq!(rt; roster.count(TENANT, PodNo(2)), 0);
    assert_eq!(rt; roster.count(OTHER, PodNo(1)), 1);
    let homes = roster.homes(rt.alloc(), TENANT)?;
    let want = [1, 3].map(|session| Homed {
        session: SessionNo(session),
        pod: PodNo(1),
    });
    assert_eq!(rt; homes.as_slice(), want.as_slice());
    roster.remove(SessionNo(1));
    assert_eq!(rt; roster.tenant(SessionNo(1)), None);
    assert_eq!(rt; roster.tenant(SessionNo(2)), Some(OTHER));
    assert_eq!(rt; roster.count(TENANT, PodNo(1)), 1);
    assert_eq!(rt; roster.enrol(TENANT)?, Some(SessionNo(5)));
    Ok(())
}
