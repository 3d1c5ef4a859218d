ghost use Rattle.std.specs.Prelude.{◌≡◌};

use super::*;
use pgw_frames::NoMemory;
use proxy_outside::Machine;
use std::alloc::Global;
use std::process::Abort;
use std::sync::Wait;
use std::test::*;
use std::thread::{Threads, join};

/// Adds up the numbers that it is told, and replies the sum.
#[derive(Drop)]
struct Sum {
    all: u64,
}

impl Machine for Sum {
    type Command = u64;

    type Reply = u64;

    ghost use Rattle.std.specs.Prelude.{◌≡◌, ℕ, ◌+◌, ◌%◌, ◌^◌};

    ghost State = { ℕ };

    ghost rules = { record { first = 0; next = λ s c. (s + c) % 2 ^ 64; reply = λ s c. (s + c) % 2 ^ 64 } };

    ghost stands_for = { λ m s. m.all ≡ s };

    fn opening(_alloc: Global) -> Result<Sum, NoMemory> {
        Ok(Sum { all: 0 })
    }

    fn step(&mut self, c: &u64) -> Result<u64, NoMemory> {
        self.all = self.all.wrapping_add(*c);
        Ok(self.all)
    }
}

/// Calls the desk, and gives place and reply.
fn told<R: Wait>(
    rt: &R,
    desk: &Desk<Sum>,
    seat: &mut Seat<Sum>,
    number: u64,
) -> Result<(u64, u64), CallFault>
    requires { seat.old.desk ≡ desk.now }
    ensures { seat.new.desk ≡ desk.now }
{
    let receipt = desk.call(rt, seat, number)?;
    Ok((receipt.place, receipt.reply))
}

#[test]
fn calls_are_answered_in_order(rt: HostRuntime) -> Result<(), Fail> {
    let (desk, mut seat) = Desk::<Sum>::make(rt.alloc(), 3)?;
    assert_eq!(rt; told(&rt, &desk, &mut seat, 5), Ok((0, 5)));
    assert_eq!(rt; told(&rt, &desk, &mut seat, 7), Ok((1, 12)));
    seat.has_seen_a_legal_history();
    Ok(())
}

#[test]
fn a_full_journal_takes_no_call(rt: HostRuntime) -> Result<(), Fail> {
    let (desk, mut seat) = Desk::<Sum>::make(rt.alloc(), 2)?;
    assert_eq!(rt; told(&rt, &desk, &mut seat, 5), Ok((0, 5)));
    assert_eq!(rt; told(&rt, &desk, &mut seat, 7), Ok((1, 12)));
    assert_eq!(rt;
        told(&rt, &desk, &mut seat, 9),
        Err(CallFault::JournalFull(2))
    );
    match desk.close(seat) {
        Closed::Whole(machine, journal) => {
            assert_eq!(rt; machine.all, 12);
            assert_eq!(rt; journal.len(), 2);
            assert_eq!(rt; journal.get(0), Some(&(0, 5)));
            assert_eq!(rt; journal.get(1), Some(&(1, 7)));
            assert_eq!(rt; journal.get(2), None);
        }
        Closed::Held => panic!(rt; "the value is out"),
    }
    Ok(())
}

#[test]
fn a_journal_of_no_entries(rt: HostRuntime) -> Result<(), Fail> {
    let (desk, mut seat) = Desk::<Sum>::make(rt.alloc(), 0)?;
    assert_eq!(rt;
        told(&rt, &desk, &mut seat, 5),
        Err(CallFault::JournalFull(0))
    );
    assert!(rt; matches!(desk.close(seat), Closed::Whole(_, _)));
    Ok(())
}

#[test]
fn two_seats_of_one_desk(rt: HostRuntime) -> Result<(), Fail> {
    let (desk, mut seat) = Desk::<Sum>::make(rt.alloc(), 10)?;
    assert_eq!(rt; told(&rt, &desk, &mut seat, 1), Ok((0, 1)));
    let mut other = desk.split(&mut seat)?;
    assert_eq!(rt; told(&rt, &desk, &mut other, 2), Ok((1, 3)));
    assert_eq!(rt; told(&rt, &desk, &mut seat, 3), Ok((2, 6)));
    desk.join(&mut seat, other);
    assert_eq!(rt; told(&rt, &desk, &mut seat, 4), Ok((3, 10)));
    Ok(())
}

/// What the replies of one thread's calls add up to.
fn hundred<R: Wait>(rt: &R, desk: &Desk<Sum>, mut seat: Seat<Sum>) -> (Seat<Sum>, u64)
    requires { seat.desk ≡ desk.now }
    ensures { result.0.desk ≡ desk.now }
{
    let mut replies: u64 = 0;
    for _ in 0..100 {
        if let Ok((_, reply)) = told(rt, desk, &mut seat, 1) {
            replies = replies.wrapping_add(reply);
        }
    }
    (seat, replies)
}

fn two_hundred<R: Threads + Wait + Sync>(
    rt: &R,
    desk: &Desk<Sum>,
    one: Seat<Sum>,
    other: Seat<Sum>,
) -> (Seat<Sum>, u64)
    requires one { one.desk ≡ desk.now }
    requires other { other.desk ≡ desk.now }
    ensures { result.0.desk ≡ desk.now }
{
    let (a, b) = join(rt, || hundred(rt, desk, one), || hundred(rt, desk, other));
    let (mut one, m) = a;
    let (other, n) = b;
    desk.join(&mut one, other);
    (one, m.wrapping_add(n))
}

fn four_hundred<R: Threads + Wait + Sync>(
    rt: &R,
    desk: &Desk<Sum>,
    seats: (Seat<Sum>, Seat<Sum>, Seat<Sum>, Seat<Sum>),
) -> (Seat<Sum>, u64)
    requires { (seats.0.desk ≡ desk.now) × (seats.1.desk ≡ desk.now) × (seats.2.desk ≡ desk.now) × (seats.3.desk ≡ desk.now) }
    ensures { result.0.desk ≡ desk.now }
{
    let (a, b, c, d) = seats;
    let (left, right) = join(
        rt,
        || -> (Seat<Sum>, u64)
            requires one { a.desk ≡ desk.now }
            requires other { b.desk ≡ desk.now }
            ensures { result.0.desk ≡ desk.entry.now }
        { two_hundred(rt, desk, a, b) },
        || -> (Seat<Sum>, u64)
            requires one { c.desk ≡ desk.now }
            requires other { d.desk ≡ desk.now }
            ensures { result.0.desk ≡ desk.entry.now }
        { two_hundred(rt, desk, c, d) },
    );
    let (mut one, m) = left;
    let (other, n) = right;
    desk.join(&mut one, other);
    (one, m.wrapping_add(n))
}

#[test]
fn four_seats_on_four_threads(rt: HostRuntime) -> Result<(), Fail> {
    let (desk, mut a) = Desk::<Sum>::make(rt.alloc(), 1000)?;
    let b = desk.split(&mut a)?;
    let c = desk.split(&mut a)?;
    let d = desk.split(&mut a)?;
    let (seat, replies) = four_hundred(&rt, &desk, (a, b, c, d));
    // What 1 to 400 add up to.
    assert_eq!(rt; replies, 80_200);
    match desk.close(seat) {
        Closed::Whole(machine, journal) => {
            assert_eq!(rt; machine.all, 400);
            assert_eq!(rt; journal.len(), 400);
            assert_eq!(rt; journal.get(399), Some(&(399, 1)));
        }
        Closed::Held => panic!(rt; "the value is out"),
    }
    Ok(())
}
