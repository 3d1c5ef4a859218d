use super::*;
use proxy_outside::{Addr, Place, PodNo, SessionNo, TenantId};
use std::alloc::Global;
use std::test::*;

const TENANT: TenantId = TenantId(7);

fn place(number: u32) -> Place {
    Place {
        pod: PodNo(number),
        addr: Addr::V4(0x0a00_0001),
        port: 26_257,
    }
}

fn pod(number: u32) -> Pod {
    Pod {
        place: place(number),
        state: PodState::Running,
    }
}

/// The fault of a row of pods with these numbers, if it has one.
fn fault_of(alloc: Global, numbers: &[u32]) -> Result<Option<RowFault>, Fail> {
    let mut pods = Vec::new(alloc);
    for &number in numbers {
        pods.push(pod(number))?;
    }
    Ok(TenantRow::of(alloc, TENANT, 1, pods.as_slice()).err())
}

#[test]
fn numbers_that_stand_twice(rt: HostRuntime) -> Result<(), Fail> {
    // The first pod whose number stands at an earlier place too.
    let rows: [(&[u32], Option<u32>); 6] = [
        (&[], None),
        (&[1, 2, 3], None),
        (&[4, 4], Some(4)),
        (&[1, 4, 2, 4, 1], Some(4)),
        (&[1, 4, 2, 1, 4], Some(1)),
        (&[0, 4_294_967_295, 0], Some(0)),
    ];
    for (numbers, twice) in rows {
        let want = twice.map(|number| RowFault::TwicePod(PodNo(number)));
        assert_eq!(rt; fault_of(rt.alloc(), numbers)?, want, "at {numbers:?}");
    }
    Ok(())
}

#[test]
fn so_many_pods(rt: HostRuntime) -> Result<(), Fail> {
    let mut numbers = Vec::new(rt.alloc());
    for number in 0..1_000 {
        numbers.push(number)?;
    }
    assert_eq!(rt; fault_of(rt.alloc(), numbers.as_slice())?, None);
    numbers.push(4)?;
    assert_eq!(rt;
        fault_of(rt.alloc(), numbers.as_slice())?,
        Some(RowFault::TooMany(1_001))
    );
    Ok(())
}

#[test]
fn the_greatest_version_counts(rt: HostRuntime) -> Result<(), Fail> {
    // A row's version, its one pod, the answer, and the tenant's pod then.
    let rows = [
        (3, 1, Applied::Done, 1),
        (3, 2, Applied::Stale(3), 1),
        (2, 3, Applied::Stale(3), 1),
        (4, 4, Applied::Done, 4),
        (0, 5, Applied::Stale(4), 4),
        (u64::MAX, 6, Applied::Done, 6),
        (u64::MAX, 7, Applied::Stale(u64::MAX), 6),
    ];
    let alloc = rt.alloc();
    let mut directory = Directory::new(alloc);
    assert_eq!(rt; directory.pods(TENANT).is_none(), true);
    for (version, number, answer, counts) in rows {
        let row = TenantRow::of(alloc, TENANT, version, [pod(number)].as_slice())?;
        let copy = row.copy()?;
        assert_eq!(rt; copy.tenant(), TENANT);
        assert_eq!(rt; copy.version(), version);
        assert_eq!(rt; copy.pods(), [pod(number)].as_slice());
        assert_eq!(rt; directory.apply(copy)?, answer, "at {version}");
        let pods = directory.pods(TENANT);
        assert_eq!(rt; pods, Some([pod(counts)].as_slice()), "at {version}");
    }
    assert_eq!(rt; directory.pods(TenantId(8)).is_none(), true);
    Ok(())
}

#[test]
fn homes_of_sessions(rt: HostRuntime) -> Result<(), Fail> {
    let mut directory = Directory::new(rt.alloc());
    assert_eq!(rt; directory.home(SessionNo(1)), None);
    directory.settle(SessionNo(1), TENANT, place(1))?;
    directory.settle(SessionNo(2), TENANT, place(1))?;
    directory.settle(SessionNo(1), TENANT, place(2))?;
    assert_eq!(rt; directory.home(SessionNo(1)), Some(place(2)));
    directory.leave(SessionNo(1));
    assert_eq!(rt; directory.home(SessionNo(1)), None);
    assert_eq!(rt; directory.home(SessionNo(2)), Some(place(1)));
    directory.leave(SessionNo(3));
    Ok(())
}
