ghost use Rattle.std.specs.Prelude.{◌≡◌};

use super::*;
use proxy_outside::{PodNo, SessionNo};
use std::test::*;

fn load(pod: u32, running: bool, sessions: u32) -> Load
    ensures { result ≡ record { pod = record { 0 = pod }; running = running; sessions = sessions } }
{
    Load {
        pod: PodNo(pod),
        running,
        sessions,
    }
}

#[test]
fn picks_the_lightest_running_pod(rt: HostRuntime) {
    let rows: [(&[Load], Option<u32>); 5] = [
        (&[], None),
        (&[load(1, false, 0)], None),
        (&[load(2, true, 3), load(1, true, 3)], Some(1)),
        (
            &[load(1, true, 3), load(2, true, 2), load(3, false, 0)],
            Some(2),
        ),
        (&[load(1, true, u32::MAX)], Some(1)),
    ];
    for (loads, pod) in rows {
        assert_eq!(rt; pick(loads), pod.map(PodNo), "at {loads:?}");
    }
}

fn home(session: u32, pod: u32) -> Homed
    ensures { result ≡ record { session = record { 0 = session }; pod = record { 0 = pod } } }
{
    Homed {
        session: SessionNo(session),
        pod: PodNo(pod),
    }
}

fn moved(session: u32, from: u32, to: u32) -> Move {
    Move {
        session: SessionNo(session),
        from: PodNo(from),
        to: PodNo(to),
    }
}

#[test]
fn a_draining_pod_is_left(rt: HostRuntime) -> Result<(), Fail> {
    let loads = [load(1, false, 5), load(2, true, 1), load(3, true, 0)];
    let homes = [
        home(1, 1),
        home(2, 1),
        home(3, 1),
        home(4, 1),
        home(5, 1),
        home(6, 2),
    ];
    let moves = plan(rt.alloc(), &loads, &homes)?;
    let wanted = [
        moved(1, 1, 3),
        moved(2, 1, 2),
        moved(3, 1, 3),
        moved(4, 1, 2),
        moved(5, 1, 3),
    ];
    assert_eq!(rt; moves.as_slice(), &wanted[..]);
    assert_eq!(rt; moves.len(), 5);
    assert_eq!(rt; moves.get(1).copied(), Some(moved(2, 1, 2)));
    assert_eq!(rt; moves.get(5), None);
    assert!(rt; !moves.is_empty());
    assert_eq!(rt; moves.into_vec().len(), 5);
    Ok(())
}

#[test]
fn without_a_running_pod_nothing_moves(rt: HostRuntime) -> Result<(), Fail> {
    let loads = [load(1, false, 1), load(2, false, 1)];
    let moves = plan(rt.alloc(), &loads, &[home(1, 1), home(6, 2)])?;
    assert!(rt; moves.is_empty());
    Ok(())
}

#[test]
fn the_lowest_numbers_are_given_up(rt: HostRuntime) -> Result<(), Fail> {
    // Six sessions on three pods: two each.
    let loads = [load(1, true, 5), load(2, true, 1), load(3, true, 0)];
    let homes = [
        home(1, 1),
        home(2, 1),
        home(3, 1),
        home(4, 1),
        home(5, 1),
        home(6, 2),
    ];
    let moves = plan(rt.alloc(), &loads, &homes)?;
    let wanted = [moved(1, 1, 3), moved(2, 1, 2), moved(3, 1, 3)];
    assert_eq!(rt; moves.as_slice(), &wanted[..]);
    Ok(())
}

#[test]
fn the_stranded_move_first(rt: HostRuntime) -> Result<(), Fail> {
    // Pod 9 isn't listed. Four sessions on two pods: two each.
    let loads = [load(1, true, 3), load(2, true, 0)];
    let homes = [home(1, 1), home(2, 1), home(3, 1), home(4, 9)];
    let moves = plan(rt.alloc(), &loads, &homes)?;
    assert_eq!(rt; moves.as_slice(), &[moved(4, 9, 2), moved(1, 1, 2)][..]);
    Ok(())
}

#[test]
fn sessions_of_two_pods_move_in_their_order(rt: HostRuntime) -> Result<(), Fail> {
    // Six sessions on four pods: two each.
    let loads = [
        load(1, true, 3),
        load(2, true, 3),
        load(4, true, 0),
        load(3, true, 0),
    ];
    let homes = [
        home(1, 2),
        home(2, 1),
        home(3, 2),
        home(4, 2),
        home(5, 1),
        home(6, 1),
    ];
    let moves = plan(rt.alloc(), &loads, &homes)?;
    assert_eq!(rt; moves.as_slice(), &[moved(1, 2, 3), moved(2, 1, 4)][..]);
    Ok(())
}
