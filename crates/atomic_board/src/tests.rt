use super::*;
use pgw_frames::NoMemory;
use proxy_links::{BackMarks, FrontMarks, Look, Marks};
use std::test::*;

#[test]
fn the_request_leg_parks_behind_a_ring(rt: HostRuntime) -> Result<(), NoMemory> {
    let (mut board, bell) = AtomicBoard::make(rt.alloc())?;
    let (mut front, mut back) = board.ends();
    assert_eq!(rt; front.look(0), Look::Go);
    bell.ring();
    assert_eq!(rt; front.look(2), Look::Go);
    for (zs, want) in [(0, Look::Go), (1, Look::Go), (2, Look::Park)] {
        assert_eq!(rt; back.look(zs), Look::Go);
        assert_eq!(rt; front.look(2), want, "at {zs}");
    }
    Ok(())
}

#[test]
fn the_response_leg_parks_behind_the_other(rt: HostRuntime) -> Result<(), NoMemory> {
    let (mut board, bell) = AtomicBoard::make(rt.alloc())?;
    let (mut front, mut back) = board.ends();
    bell.ring();
    assert_eq!(rt; back.look(0), Look::Go);
    assert_eq!(rt; front.look(0), Look::Park);
    assert_eq!(rt; back.look(0), Look::Park);
    Ok(())
}

#[test]
fn an_abort_ends_the_other(rt: HostRuntime) -> Result<(), NoMemory> {
    let (mut board, _bell) = AtomicBoard::make(rt.alloc())?;
    let (mut front, mut back) = board.ends();
    back.abort();
    assert_eq!(rt; back.look(0), Look::Go);
    assert_eq!(rt; front.look(0), Look::Over);
    front.abort();
    assert_eq!(rt; back.look(0), Look::Over);
    Ok(())
}

#[test]
fn the_response_leg_ends_behind_the_last_reply(rt: HostRuntime) -> Result<(), NoMemory> {
    let (mut board, _bell) = AtomicBoard::make(rt.alloc())?;
    let (mut front, mut back) = board.ends();
    assert_eq!(rt; back.look(2), Look::Go);
    front.finish(2);
    for (zs, want) in [(0, Look::Go), (1, Look::Go), (2, Look::Over)] {
        assert_eq!(rt; back.look(zs), want, "at {zs}");
    }
    Ok(())
}

#[test]
fn the_response_leg_looks_on_fifty_times(rt: HostRuntime) -> Result<(), NoMemory> {
    let (mut board, _bell) = AtomicBoard::make(rt.alloc())?;
    let (mut front, mut back) = board.ends();
    front.finish(2);
    for look in 1..=50 {
        assert_eq!(rt; back.look(1), Look::Go, "at {look}");
    }
    assert_eq!(rt; back.look(1), Look::Over);
    Ok(())
}

#[test]
fn a_ring_is_forgotten(rt: HostRuntime) -> Result<(), NoMemory> {
    let (mut board, bell) = AtomicBoard::make(rt.alloc())?;
    bell.ring();
    let (mut front, mut back) = board.ends();
    assert_eq!(rt; front.look(0), Look::Go);
    bell.ring();
    assert_eq!(rt; front.look(0), Look::Park);
    assert_eq!(rt; back.look(0), Look::Park);
    board.back(front, back);
    let (mut front, mut back) = board.ends();
    assert_eq!(rt; (front.look(0), back.look(0)), (Look::Go, Look::Go));
    Ok(())
}
