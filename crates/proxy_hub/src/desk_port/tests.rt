ghost use Rattle.std.specs.Prelude.{◌≡◌};

use super::*;
use crate::tests::{CLIENT, TENANT, row};
use access_lists::Lists;
use counted_desk::{CallFault, Closed};
use pgw_frames::NoMemory;
use proxy_outside::SessionNo;
use std::alloc::Global;
use std::collections::BTreeSet;
use std::test::*;
use std::thread::{Threads, join};

const ADMIT: HubCommand = HubCommand::Admit {
    addr: CLIENT,
    tenant: TENANT,
    now: 0,
};

/// The place of a call, or why it was not taken.
fn place<R: Wait>(
    rt: &R,
    desk: &Desk<Hub>,
    seat: &mut Seat<Hub>,
    command: HubCommand,
) -> Result<u64, CallFault>
    requires { seat.old.desk ≡ desk.now }
    ensures { seat.new.desk ≡ desk.now }
{
    Ok(desk.call(rt, seat, command)?.place)
}

/// The lists are set, and the tenant has a pod.
fn opened<R: Wait>(
    rt: &R,
    alloc: Global,
    desk: &Desk<Hub>,
    seat: &mut Seat<Hub>,
) -> Result<(u64, u64), Fail>
    requires { seat.old.desk ≡ desk.now }
    ensures { seat.new.desk ≡ desk.now }
{
    let row = row(alloc, 1, 0, 1)?;
    let lists = place(rt, desk, seat, HubCommand::SetLists(Lists::new(alloc)))?;
    let update = place(rt, desk, seat, HubCommand::Update(row))?;
    Ok((lists, update))
}

#[test]
fn a_full_desk_admits_nobody(rt: HostRuntime) -> Result<(), Fail> {
    let (desk, mut seat) = Desk::<Hub>::make(rt.alloc(), 2)?;
    let places = opened(&rt, rt.alloc(), &desk, &mut seat);
    let mut port = DeskPort::make(&desk, seat);
    let fault = port.ask(&rt, ADMIT).err();
    port.asks_in_one_legal_history();
    drop(port);
    drop(desk);
    assert_eq!(rt; places?, (0, 1));
    assert_eq!(rt; fault, Some(HubFault::JournalFull(2)));
    Ok(())
}

/// The numbers that a hundred clients are given.
fn admit_hundred<R: Wait, P: HubPort>(
    rt: &R,
    alloc: Global,
    port: &mut P,
) -> Result<Vec<u32>, NoMemory>
    ensures { (P.port port.new).desk ≡ (P.port port.old).desk }
{
    let mut numbers = Vec::new(alloc);
    for _ in 0..100 {
        if let Ok(HubReply::Admitted(session)) = port.ask(rt, ADMIT) {
            numbers.push(session.0)?;
        }
    }
    Ok(numbers)
}

type Admitted = (Seat<Hub>, Result<Vec<u32>, NoMemory>);

/// A hundred clients of one thread.
fn hundred<R: Wait>(rt: &R, alloc: Global, desk: &Desk<Hub>, seat: Seat<Hub>) -> Admitted
    requires { seat.desk ≡ desk.now }
    ensures { result.0.desk ≡ desk.now }
{
    let mut port = DeskPort::make(desk, seat);
    let numbers = admit_hundred(rt, alloc, &mut port);
    (port.end(), numbers)
}

fn both(
    one: Result<Vec<u32>, NoMemory>,
    other: Result<Vec<u32>, NoMemory>,
) -> Result<Vec<u32>, NoMemory> {
    let mut all = one?;
    for number in other?.as_slice() {
        all.push(*number)?;
    }
    Ok(all)
}

fn joined(desk: &Desk<Hub>, one: Admitted, other: Admitted) -> Admitted
    requires one { one.0.desk ≡ desk.now }
    requires other { other.0.desk ≡ desk.now }
    ensures { result.0.desk ≡ desk.now }
{
    let (mut seat, m) = one;
    let (other, n) = other;
    desk.join(&mut seat, other);
    (seat, both(m, n))
}

/// Clients of two threads, a hundred each.
fn two_hundred<R: Threads + Wait + Sync>(
    rt: &R,
    alloc: Global,
    desk: &Desk<Hub>,
    mut seat: Seat<Hub>,
) -> Admitted
    requires { seat.desk ≡ desk.now }
    ensures { result.0.desk ≡ desk.now }
{
    match desk.split(&mut seat) {
        Err(e) => (seat, Err(e)),
        Ok(other) => {
            let (a, b) = join(
                rt,
                || hundred(rt, alloc, desk, seat),
                || hundred(rt, alloc, desk, other),
            );
            joined(desk, a, b)
        }
    }
}

/// Clients of four threads, a hundred each.
fn four_hundred<R: Threads + Wait + Sync>(
    rt: &R,
    alloc: Global,
    desk: &Desk<Hub>,
    mut seat: Seat<Hub>,
) -> Admitted
    requires { seat.desk ≡ desk.now }
    ensures { result.0.desk ≡ desk.now }
{
    match desk.split(&mut seat) {
        Err(e) => (seat, Err(e)),
        Ok(other) => {
            let (a, b) = join(
                rt,
                || -> Admitted
                    requires { seat.desk ≡ desk.now }
                    ensures { result.0.desk ≡ desk.entry.now }
                { two_hundred(rt, alloc, desk, seat) },
                || -> Admitted
                    requires { other.desk ≡ desk.now }
                    ensures { result.0.desk ≡ desk.entry.now }
                { two_hundred(rt, alloc, desk, other) },
            );
            joined(desk, a, b)
        }
    }
}

/// How many numbers there are, each of which was given once; the first and the last of them.
fn all_different(numbers: &[u32], alloc: Global) -> Result<(usize, u32, u32), Fail> {
    let mut once = BTreeSet::new(alloc);
    for number in numbers {
        if !once.insert(*number)? {
            return Err("a number was given twice")?;
        }
    }
    let first = once.first().copied().unwrap_or(0);
    let last = once.last().copied().unwrap_or(0);
    Ok((once.len(), first, last))
}

#[test]
fn four_threads_admit_four_hundred(rt: HostRuntime) -> Result<(), Fail> {
    let (desk, mut seat) = Desk::<Hub>::make(rt.alloc(), 1_000)?;
    let places = opened(&rt, rt.alloc(), &desk, &mut seat);
    let (seat, numbers) = four_hundred(&rt, rt.alloc(), &desk, seat);
    let entries = match desk.close(seat) {
        Closed::Whole(hub, journal) => {
            drop(hub);
            let entries = journal.len();
            drop(journal);
            Some(entries)
        }
        Closed::Held => None,
    };
    places?;
    let numbers = numbers?;
    let seen = all_different(numbers.as_slice(), rt.alloc())?;
    assert_eq!(rt; seen, (400, 1, 400));
    assert_eq!(rt; entries, Some(402));
    Ok(())
}
