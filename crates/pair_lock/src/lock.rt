//! How a lock is made and closed, and how a seat takes the value.
ghost use Rattle.std.specs.Prelude.{◌≡◌, ◌||◌, true, [], ◌∷◌, IfOk, IfErr, IfSome, IfNone, Some, None, is_some};
ghost use Rattle.std.specs.Fn.{FnOnceTakesAtMut, FnOnceReturnsAtMut};
ghost use Rattle.pair_lock.specs.Meetings.{MayMeet, Met, CalledWith, TakesWith, MayMeetWith, MetWith};
ghost use Rattle.pair_lock.specs.Seats.{view_of, IsOf, IsSeatOf, Knows, IsNext, lock_id};
ghost use Rattle.pair_lock.specs.Turns.{Fits, FollowsKnown, Keeps};
ghost use Rattle.pair_lock.specs.Views.{after_taking, after_try, after_giving, Learns, LearnsLater};
ghost use Rattle.s7_events.specs.declared.entry.Side.TheVariants.{A, B};

use crate::seat::{PairLock, Seat};
use crate::view::{Give, JoinSides, SplitSides, Take, View};
use atomic_table::{Refused, Table};
use event_record::History;
use s7_events::NoMemory;
use std::alloc::Global;
use std::snapshot::Snapshot;
use std::sync::Wait;
use std::thread;

/// The turn was held by the other seat. The seat and the function come back.
#[derive(Drop)]
pub struct Taken<T, F> {
    pub seat: Seat<T>,
    pub f: F,
}

fn call_on<T, R, F: FnOnce(&mut T) -> R>(value: &mut T, f: F) -> R
    requires { FnOnceTakesAtMut F.FnOnce f value.old }
    ensures { FnOnceReturnsAtMut F.FnOnce f value.old result value.new }
{
    f(value)
}

fn call_with<T, S, R, F: FnOnce(&mut T, &mut S) -> R>(value: &mut T, state: &mut S, f: F) -> R
    requires { TakesWith F.FnOnce f value.old state.old }
    ensures { CalledWith F.FnOnce f value.old state.old result value.new state.new }
{
    f(value, state)
}

impl<T: History> PairLock<T> {
    /// Makes a lock of this value, with the seat of side A and the seat of side B. Both know the value. Where memory runs
    /// out the value comes back.
    pub fn make(alloc: Global, value: T) -> Result<(PairLock<T>, Seat<T>, Seat<T>), (NoMemory, T)>
        ensures made { IfOk result (λ r. IsOf (lock_id r.0) r.1 × IsOf (lock_id r.0) r.2
            × Knows A r.1 value × Knows B r.2 value) }
        ensures back { IfErr result (λ r. r.1 ≡ value) }
    {
        let mut slots = match Vec::with_capacity(alloc, 1) {
            Ok(slots) => slots,
            Err(_) => return Err((NoMemory, value)),
        };
        let about = Snapshot::of(&value);
        match slots.push(Some(value)) {
            Ok(()) => {}
            Err(_) => unreachable!(),
        }
        match Table::new(alloc, &[0], slots, &about) {
            Ok((table, mut seat)) => {
                let other = table.shared.split_seat::<SplitSides>(&mut seat);
                Ok((PairLock { table }, Seat { seat }, Seat { seat: other }))
            }
            Err(Refused { mut slots }) => {
                let last = slots.pop();
                slots.destroy_empty();
                match last {
                    Some(Some(value)) => Err((NoMemory, value)),
                    _ => unreachable!(),
                }
            }
        }
    }

    // Takes the turn, and the value with it, where the turn is free. Else one more try is counted.
    fn take(&self, seat: &mut atomic_table::Seat<Option<T>, View<T>>) -> Option<T>
        requires lock { seat.old.table_id ≡ lock_id self.now }
        requires idle { (seat.old.me.1 ≡ []) × (seat.old.me.0.took ≡ None)
            × ((is_some seat.old.me.0.a || is_some seat.old.me.0.b) ≡ true) }
        ensures lock { seat.new.table_id ≡ seat.old.table_id }
        ensures free { IfSome result (λ v. Fits T.entries T.own seat.old.me.0 v
            × (seat.new.me ≡ (after_taking seat.old.me.0 v, (0, None) ∷ []))) }
        ensures held { IfNone result (seat.new.me ≡ (after_try seat.old.me.0, [])) }
    {
        if self.table.shared.compare_exchange::<Take>(seat, 0, 0, 1) != 0 {
            return None;
        }
        self.table.shared.exchange(seat, 0, None)
    }

    // Puts the value back, and then gives the turn.
    fn give(&self, seat: &mut atomic_table::Seat<Option<T>, View<T>>, value: T)
        requires lock { seat.old.table_id ≡ lock_id self.now }
        requires out { (v : T) × (seat.old.me.0.took ≡ Some v) × (seat.old.me.1 ≡ (0, None) ∷ [])
            × Keeps T.entries T.own seat.old.me.0 v value }
        ensures lock { seat.new.table_id ≡ seat.old.table_id }
        ensures given { seat.new.me ≡ (after_giving seat.old.me.0 value, []) }
    {
        let left = self.table.shared.exchange(seat, 0, Some(value));
        let None = left else { unreachable!() };
        self.table.shared.store::<Give>(seat, 0, 0);
    }

    /// Calls f once on the value where the turn is free. Where this call finds the turn held it is `Taken`: f is not
    /// called, and comes back with the seat, in which one more try is counted. Takes no memory.
    ///
    /// The value that f gets begins with all entries that this seat has seen, and has this side's own part as the seat
    /// knew it. What f leaves is what the seat knows from then on.
    pub fn try_meet<R, F: FnOnce(&mut T) -> R>(
        &self,
        seat: Seat<T>,
        f: F,
    ) -> Result<(Seat<T>, R), Taken<T, F>>
        requires lock { IsOf (lock_id self.now) seat }
        requires call { MayMeet T.entries T.own F.FnOnce f (view_of seat) }
        ensures met { IfOk result (λ m. IsNext seat m.0 × (v : T) × (w : T)
            × Met T.entries T.own F.FnOnce f (view_of seat) v m.1 w × Learns (view_of seat) w (view_of m.0)) }
        ensures taken { IfErr result (λ t. IsNext seat t.seat × (t.f ≡ f)
            × (view_of t.seat ≡ after_try (view_of seat))) }
    {
        let Seat { seat: mut inner } = seat;
        match self.take(&mut inner) {
            Some(mut value) => {
                let answer = call_on(&mut value, f);
                self.give(&mut inner, value);
                Ok((Seat { seat: inner }, answer))
            }
            None => Err(Taken {
                seat: Seat { seat: inner },
                f,
            }),
        }
    }

    /// Calls f once on the value, as `try_meet` does, once the turn is this seat's. It may wait without end. Takes no
    /// memory.
    pub fn meet<W: Wait, R, F: FnOnce(&mut T) -> R>(
        &self,
        rt: &W,
        seat: Seat<T>,
        f: F,
    ) -> (Seat<T>, R)
        requires lock { IsOf (lock_id self.now) seat }
        requires call { MayMeet T.entries T.own F.FnOnce f (view_of seat) }
        ensures met { IsNext seat result.0 × (v : T) × (w : T)
            × Met T.entries T.own F.FnOnce f (view_of seat) v result.1 w
            × LearnsLater (view_of seat) w (view_of result.0) }
    {
        let mut seat = seat;
        let mut f = f;
        for _ in rt.forever() {
            match self.try_meet(seat, f) {
                Ok(met) => return met,
                Err(taken) => {
                    let Taken {
                        seat: again,
                        f: same,
                    } = taken;
                    seat = again;
                    f = same;
                    thread::yield_now();
                }
            }
        }
        unreachable!()
    }

    /// Calls f once on the value, as `meet` does, and lends it `state` beside it: so that a contract says what f leaves
    /// in `state`. It may wait without end. Takes no memory.
    pub fn meet_with<W: Wait, S, R, F: FnOnce(&mut T, &mut S) -> R>(
        &self,
        rt: &W,
        seat: Seat<T>,
        state: &mut S,
        f: F,
    ) -> (Seat<T>, R)
        requires lock { IsOf (lock_id self.now) seat }
        requires call { MayMeetWith T.entries T.own F.FnOnce f (view_of seat) state.old }
        ensures met { IsNext seat result.0 × (v : T) × (w : T)
            × MetWith T.entries T.own F.FnOnce f (view_of seat) v state.old result.1 w state.new
            × LearnsLater (view_of seat) w (view_of result.0) }
    {
        let Seat { seat: mut inner } = seat;
        for _ in rt.forever() {
            if let Some(mut value) = self.take(&mut inner) {
                let answer = call_with(&mut value, state, f);
                self.give(&mut inner, value);
                return (Seat { seat: inner }, answer);
            }
            thread::yield_now();
        }
        unreachable!()
    }

    /// Gives the value back, and ends the lock and both seats: that of side A and that of side B. The value begins with
    /// all entries that either seat has seen, and has each side's own part as that side's seat knew it. Takes no memory.
    pub fn close(self, a: Seat<T>, b: Seat<T>) -> T
        requires lock { IsOf (lock_id self) a × IsOf (lock_id self) b }
        requires sides { IsSeatOf A a × IsSeatOf B b }
        ensures { FollowsKnown T.entries T.own A (view_of a).a result
            × FollowsKnown T.entries T.own B (view_of b).b result }
    {
        let Seat { seat: mut first } = a;
        let Seat { seat: second } = b;
        self.table.shared.join_seat::<JoinSides>(&mut first, second);
        let PairLock { table } = self;
        let mut closed = table.close_with(first);
        let last = closed.take(0);
        closed.free();
        match last {
            Some(value) => value,
            None => unreachable!(),
        }
    }
}
