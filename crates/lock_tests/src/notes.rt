//! The lock over a small history: notes that the two sides leave.
ghost use Rattle.std.specs.Prelude.{◌≡◌, IfSome};
ghost use Rattle.s7_events.specs.declared.entry.Side.TheVariants.{A, B};
ghost use Rattle.pair_lock.specs.Seats.{lock_id, IsOf, IsNext, Knows};
ghost use mathlib.Core.List.{IsPrefix};
ghost use Rattle.lock_tests.specs.declared.notes.Notes.{Notes};

use event_record::History;
use pair_lock::*;
use std::alloc::Global;
use std::sync::Wait;
use std::test::Fail;
use std::thread::{Threads, join};

/// The notes in the order in which they were left, and the last note of each side.
#[derive(Drop)]
struct Notes {
    notes: Vec<u32>,
    last_of_a: u32,
    last_of_b: u32,
}

impl History for Notes {
    ghost use Rattle.std.specs.Prelude.{ℕ};
    ghost use Rattle.s7_events.specs.declared.entry.Side.TheVariants.{A, B};

    ghost Entry = { ℕ };

    ghost Own = { ℕ };

    ghost entries = { λ n. n.notes.items };

    ghost own = { λ n. elim [ A ↦ n.last_of_a | B ↦ n.last_of_b ] };
}

impl Notes {
    fn none(alloc: Global) -> Notes {
        Notes {
            notes: Vec::new(alloc),
            last_of_a: 0,
            last_of_b: 0,
        }
    }

    fn leave_a(&mut self, note: u32)
        ensures notes { IsPrefix self.old.notes.items self.new.notes.items }
        ensures last { (self.new.last_of_a ≡ note) × (self.new.last_of_b ≡ self.old.last_of_b) }
    {
        let _ = self.notes.push(note);
        self.last_of_a = note;
    }

    fn leave_b(&mut self, note: u32)
        ensures notes { IsPrefix self.old.notes.items self.new.notes.items }
        ensures last { (self.new.last_of_b ≡ note) × (self.new.last_of_a ≡ self.old.last_of_a) }
    {
        let _ = self.notes.push(note);
        self.last_of_b = note;
    }
}

#[test]
fn each_side_finds_what_the_other_left(rt: HostRuntime) -> Result<(), Fail> {
    let Ok((lock, a, b)) = PairLock::make(rt.alloc(), Notes::none(rt.alloc())) else {
        return Err("no memory".into());
    };
    let (a, ()) = lock.meet(&rt, a, |notes| notes.leave_a(7));
    let (b, found) = lock.meet(&rt, b, |notes| {
        let found = notes.last_of_a;
        notes.leave_b(8);
        found
    });
    assert_eq!(rt; found, 7);
    let mut count = 0;
    let (a, ()) = lock.meet_with(&rt, a, &mut count, |notes, count| {
        *count = notes.notes.len();
        notes.leave_a(9);
    });
    assert_eq!(rt; count, 2);
    let notes = lock.close(a, b);
    assert!(rt; notes.notes.as_slice() == [7, 8, 9].as_slice());
    assert!(rt; notes.last_of_a == 9 && notes.last_of_b == 8);
    Ok(())
}

fn finds_it_held(lock: &PairLock<Notes>, seat: Seat<Notes>) -> (bool, Seat<Notes>)
    requires { IsOf (lock_id lock.now) seat }
    ensures { IsNext seat result.1 }
{
    match lock.try_meet(seat, |_| ()) {
        Ok((seat, ())) => (false, seat),
        Err(taken) => (true, taken.seat),
    }
}

#[test]
fn a_try_inside_a_meeting_finds_the_turn_held(rt: HostRuntime) -> Result<(), Fail> {
    let Ok((lock, a, b)) = PairLock::make(rt.alloc(), Notes::none(rt.alloc())) else {
        return Err("no memory".into());
    };
    let met = lock.try_meet(a, |_| finds_it_held(&lock, b));
    let Ok((a, (held, b))) = met else {
        return Err("nobody held the turn".into());
    };
    assert!(rt; held);
    let Ok((b, ())) = lock.try_meet(b, |_| ()) else {
        return Err("the turn was not given".into());
    };
    drop((lock, a, b));
    Ok(())
}

fn leave_all_of_a<W: Wait>(
    rt: &W,
    seat: Seat<Notes>,
    lock: &PairLock<Notes>,
    count: u32,
) -> Seat<Notes>
    requires lock { IsOf (lock_id lock.now) seat }
    requires side { (x : Notes) × Knows A seat x }
    ensures seat { IsOf (lock_id lock.now) result }
    ensures last { (x : Notes) × Knows A result x × (x.last_of_a ≡ count) }
{
    let mut seat = seat;
    for note in 0..count {
        seat = lock.meet(rt, seat, |notes| notes.leave_a(note)).0;
    }
    lock.meet(rt, seat, |notes| notes.leave_a(count)).0
}

fn leave_all_of_b<W: Wait>(
    rt: &W,
    seat: Seat<Notes>,
    lock: &PairLock<Notes>,
    count: u32,
) -> Seat<Notes>
    requires lock { IsOf (lock_id lock.now) seat }
    requires side { (x : Notes) × Knows B seat x }
    ensures seat { IsOf (lock_id lock.now) result }
    ensures last { (x : Notes) × Knows B result x × (x.last_of_b ≡ count) }
{
    let mut seat = seat;
    for note in 0..count {
        seat = lock.meet(rt, seat, |notes| notes.leave_b(note)).0;
    }
    lock.meet(rt, seat, |notes| notes.leave_b(count)).0
}

// Two threads leave notes. What each left last is in the value that comes out of the lock.
fn notes_of_two_threads<R: Threads + Wait + Sync>(
    rt: &R,
    alloc: Global,
    count: u32,
) -> Option<Notes>
    ensures { IfSome result (λ n. (n.last_of_a ≡ count) × (n.last_of_b ≡ count)) }
{
    let Ok((lock, a, b)) = PairLock::make(alloc, Notes::none(alloc)) else {
        return None;
    };
    let (a, b) = join(
        rt,
        || -> Seat<Notes>
            requires { IsOf (lock_id lock) a × ((x : Notes) × Knows A a x) }
            ensures { IsOf (lock_id lock) result × ((x : Notes) × Knows A result x × (x.last_of_a ≡ count)) }
        { leave_all_of_a(rt, a, &lock, count) },
        || -> Seat<Notes>
            requires { IsOf (lock_id lock) b × ((x : Notes) × Knows B b x) }
            ensures { IsOf (lock_id lock) result × ((x : Notes) × Knows B result x × (x.last_of_b ≡ count)) }
        { leave_all_of_b(rt, b, &lock, count) },
    );
    Some(lock.close(a, b))
}

#[test]
fn two_threads_take_turns(rt: HostRuntime) -> Result<(), Fail> {
    let Some(notes) = notes_of_two_threads(&rt, rt.alloc(), 1000) else {
        return Err("no memory".into());
    };
    assert_eq!(rt; notes.notes.len(), 2002);
    Ok(())
}
