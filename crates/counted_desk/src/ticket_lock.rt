//! The ticket lock of a desk: two words, and the one value behind them.
//!
//! A ticket is drawn only where all that were drawn before were served, so that a thread that waits has
//! none. Calls are served in the order in which they drew, which may not be the one in which they came.
ghost use Rattle.std.specs.Prelude.{◌≡◌, ℕ, ◌<◌, ◌+◌, ◌^◌, [], ◌∷◌, ◌≤◌, Some, None, IfOk, IfSome};
ghost use Rattle.pgw_frames.specs.Frames.{Begins};
ghost use Rattle.counted_desk.specs.History.{IsLegal, IsOwnOf, log_of};
ghost use Rattle.counted_desk.specs.Rule.{Took, HasTurn, IsDue, IsAtEnd, drawn, at_turn, after_turn, copied, joined, newcomer};
ghost use Rattle.counted_desk.specs.declared.entry.Role.TheVariants.{Idle, Waiting, Turn};

use crate::entry::View;
use crate::logged::{Held, Logged};
use crate::rule::{Compare, CopySeat, DeskRule, Draw, JoinSeats, Leave, Look};
use crate::sleepers::Sleepers;
use atomic_table::{Refused, Table};
use pgw_frames::NoMemory;
use proxy_outside::Machine;
use std::alloc::Global;
use std::boxed::Box;
use std::hint::spin_loop;
use std::sync::Wait;
use std::thread;

// The word with the ticket that is drawn next.
const TICKET: usize = 0;

// The word with the ticket whose turn it is.
const SERVING: usize = 1;

// How often a waiting thread spins between two looks: each look slows down the thread that is served.
const SPINS: [u32; 7] = [1, 2, 4, 8, 16, 32, 64];

// How often it then lets other threads run before it sleeps.
const YIELDS: u32 = 3;

fn spin(times: u32) {
    for _ in 0..times {
        spin_loop();
    }
}

pub type LockSeat<M> = atomic_table::Seat<
    Held<M>,
    View<<M as Machine>::Command, <M as Machine>::Reply>,
>;

pub type LockTable<M> = Table<
    Held<M>,
    View<<M as Machine>::Command, <M as Machine>::Reply>,
    u32,
    DeskRule<M>,
    Global,
>;

#[derive(Drop)]
pub struct TicketLock<M: Machine> {
    pub table: LockTable<M>,
    pub most: u32,
    sleepers: Sleepers,
    ghost sized: { (table.shared.table_id.words ≡ 2) × (table.shared.table_id.slots ≡ 1) },
    ghost keyed: { table.shared.key ≡ most },
}

impl<M: Machine> TicketLock<M> {
    /// A lock with no ticket drawn, over a machine at its opening.
    pub fn open(alloc: Global, most: u32) -> Result<(TicketLock<M>, LockSeat<M>), NoMemory>
        ensures most { IfOk result (λ r. r.0.most ≡ most) }
        ensures here { IfOk result (λ r. r.1.table_id ≡ r.0.table.shared.table_id) }
        ensures seat { IfOk result (λ r. r.1.me ≡ (newcomer most [], [])) }
    {
        let machine = M::opening(alloc)?;
        let journal = Vec::new(alloc);
        let Ok(logged) = Box::new(alloc, Logged { machine, journal }) else {
            return Err(NoMemory);
        };
        let Ok(mut slots) = Vec::with_capacity(alloc, 1) else {
            return Err(NoMemory);
        };
        slots.push_reserved(Some(logged));
        match Table::new(alloc, &[0, 0], slots, &most) {
            Ok((table, seat)) => {
                let sleepers = Sleepers::new();
                Ok((
                    TicketLock {
                        table,
                        most,
                        sleepers,
                    },
                    seat,
                ))
            }
            Err(Refused { slots: _ }) => Err(NoMemory),
        }
    }

    // The next ticket, where all that were drawn before were served.
    fn vacancy(&self) -> Option<u64>
        ensures { IfSome result (λ n. n + 1 < 2 ^ 64) }
    {
        let shared = &self.table.shared;
        let served = shared.peek(SERVING);
        if served < u64::MAX && served == shared.peek(TICKET) {
            return Some(served);
        }
        None
    }

    // Looks for a while, ever less often, and lets other threads run. Says whether a ticket can be drawn.
    fn looks_out(&self) -> bool {
        for spins in SPINS {
            if self.vacancy().is_some() {
                return true;
            }
            spin(spins);
        }
        for _ in 0..YIELDS {
            if self.vacancy().is_some() {
                return true;
            }
            thread::yield_now();
        }
        false
    }

    // Sleeps until a call ends, where no ticket can be drawn.
    fn sleep<R: Wait>(&self, rt: &R) {
        self.sleepers.announce();
        if self.vacancy().is_none() {
            self.sleepers.sleep(rt);
        }
    }

    // A ticket that no other call has.
    fn draw<R: Wait>(&self, rt: &R, seat: &mut LockSeat<M>) -> u64
        requires here { seat.old.table_id ≡ self.now.table.shared.table_id }
        requires idle { seat.old.me.0.role ≡ Idle }
        ensures here { seat.new.table_id ≡ seat.old.table_id }
        ensures drawn { seat.new.me ≡ (drawn seat.old.me.0 result, seat.old.me.1) }
    {
        let shared = &self.table.shared;
        let mut waits = false;
        for _ in rt.forever() {
            if let Some(next) = self.vacancy() {
                if waits {
                    self.sleepers.announce();
                }
                let found = shared.compare_exchange::<Draw<M>>(seat, TICKET, next, next + 1);
                if found == next {
                    if waits {
                        self.sleepers.part();
                    }
                    return next;
                }
            }
            if self.looks_out() {
                continue;
            }
            if !waits {
                self.sleepers.join();
                waits = true;
            }
            self.sleep(rt);
        }
        unreachable!()
    }

    // Goes on once the ticket is served.
    fn wait_turn<R: Wait>(&self, rt: &R, seat: &mut LockSeat<M>, ticket: u64)
        requires here { seat.old.table_id ≡ self.now.table.shared.table_id }
        requires waiting { seat.old.me.0.role ≡ Waiting ticket }
        ensures here { seat.new.table_id ≡ seat.old.table_id }
        ensures took { HasTurn M.stands_for M.rules ticket seat.old.me seat.new.me }
    {
        let shared = &self.table.shared;
        for _ in rt.forever() {
            let served = shared.load::<Look<M>>(seat, SERVING);
            if served == ticket {
                return;
            }
            thread::yield_now();
        }
        unreachable!()
    }

    /// Draws a ticket, waits for its turn and takes the value out.
    pub fn enter<R: Wait>(
        &self,
        rt: &R,
        seat: &mut LockSeat<M>,
    ) -> (u64, Box<Logged<M, M::Command>>)
        requires here { seat.old.table_id ≡ self.now.table.shared.table_id }
        requires idle { seat.old.me.0.role ≡ Idle }
        requires free { seat.old.me.1 ≡ [] }
        ensures here { seat.new.table_id ≡ seat.old.table_id }
        ensures took { Took M.stands_for M.rules result.0 seat.old.me.0 result.1.value }
        ensures view { seat.new.me ≡ (at_turn seat.old.me.0 result.0 (log_of M.rules result.1.value.journal.items), (0, None) ∷ []) }
    {
        let ticket = self.draw(rt, seat);
        self.wait_turn(rt, seat, ticket);
        let value = self.table.shared.exchange(seat, 0, None);
        (ticket, value.unwrap())
    }

    /// Gives the value back and serves the next ticket. It wakes a thread where some may sleep.
    pub fn leave(&self, seat: &mut LockSeat<M>, logged: Box<Logged<M, M::Command>>)
        requires here { seat.old.table_id ≡ self.now.table.shared.table_id }
        requires out { seat.old.me.1 ≡ (0, None) ∷ [] }
        requires due { (n : ℕ) × (added : _) × IsDue M.stands_for M.rules n seat.old.me.0 logged.value added }
        ensures here { seat.new.table_id ≡ seat.old.table_id }
        ensures view { seat.new.me ≡ (after_turn seat.old.me.0 (log_of M.rules logged.value.journal.items), []) }
        ensures own { IsOwnOf seat.new.me.0.own seat.new.me.0.seen }
    {
        let shared = &self.table.shared;
        let out = shared.exchange(seat, 0, Some(logged));
        let None = out else { unreachable!() };
        shared.fetch_add::<Leave<M>>(seat, SERVING, 1);
        self.sleepers.wake_one();
    }

    /// A second seat, which has seen what the first one has.
    pub fn split(&self, seat: &mut LockSeat<M>) -> LockSeat<M>
        requires here { seat.old.table_id ≡ self.now.table.shared.table_id }
        requires idle { seat.old.me.0.role ≡ Idle }
        ensures kept { (seat.new.table_id ≡ seat.old.table_id) × (seat.new.me ≡ seat.old.me) }
        ensures there { result.table_id ≡ seat.old.table_id }
        ensures new { result.me ≡ (copied seat.old.me.0, []) }
    {
        self.table.shared.split_seat::<CopySeat>(seat)
    }

    /// One seat of two. The load behind it tells that the longer history begins with the shorter.
    pub fn join(&self, into: &mut LockSeat<M>, other: LockSeat<M>)
        requires here { into.old.table_id ≡ self.now.table.shared.table_id }
        requires same { other.table_id ≡ self.now.table.shared.table_id }
        requires idle { (into.old.me.0.role ≡ Idle) × (other.me.0.role ≡ Idle) }
        requires free { (into.old.me.1 ≡ []) × (other.me.1 ≡ []) }
        ensures here { into.new.table_id ≡ into.old.table_id }
        ensures view { into.new.me ≡ (joined into.old.me.0 other.me.0, []) }
        ensures longer { Begins into.new.me.0.met into.new.me.0.seen }
        ensures own { IsOwnOf into.new.me.0.own into.new.me.0.seen }
    {
        let shared = &self.table.shared;
        shared.join_seat::<JoinSeats>(into, other);
        shared.load::<Compare<M>>(into, TICKET);
    }

    /// The value. Nothing comes back where a call that never returned has it out.
    pub fn shut(self, seat: LockSeat<M>) -> Held<M>
        requires { seat.table_id ≡ self.table.shared.table_id }
        ensures { IfSome result (λ y. IsAtEnd M.stands_for M.rules seat.me.0 self.most y.value) }
    {
        let TicketLock {
            table,
            most: _,
            sleepers: _,
        } = self;
        let mut closed = table.close_with(seat);
        let drawn = closed.word(TICKET);
        let served = closed.word(SERVING);
        let value = closed.take(0);
        closed.free();
        if drawn == served { value } else { None }
    }
}
