//! What no clause says: that a lock is made, and that threads take turns to their end.
ghost use Rattle.std.specs.Prelude.{◌≡◌, ◌+◌, ◌-◌, ◌*◌, ◌<◌, ◌≤◌, [], ℕ, length, vec_len, vec_capacity, MatchBool, IfOk};
ghost use Rattle.std.specs.Bool.{OnTrue};
ghost use Rattle.std.specs.Thread.{IsSync};
ghost use Rattle.esb_turns.specs.Passes.{own_of, shares_of, IsPassOf};

use super::*;
use esb_base::Memory;
use std::alloc::Global;
use std::sync::Wait;
use std::test::Fail;
use std::thread;
use std::thread::Threads;

// A book that is its list.
#[derive(Drop)]
struct Numbers {
    items: Vec<u64>,
}

impl Book for Numbers {
    type Entry = u64;

    ghost use Rattle.std.specs.Prelude.{⊤, ◌<◌, vec_len, vec_capacity};

    ghost entries = { λ book. book.items.items };

    ghost is_ready = { λ book _. vec_len book.items < vec_capacity book.items };

    ghost is_at_rest = { λ _. ⊤ };

    fn add(&mut self, entry: u64) {
        self.items.push_reserved(entry);
    }
}

impl Numbers {
    fn new(alloc: Global) -> Numbers
        ensures { result.items.items ≡ [] }
    {
        Numbers {
            items: Vec::new(alloc),
        }
    }

    fn make_room(&mut self) -> bool
        ensures list { self.new.items.items ≡ self.old.items.items }
        ensures room { OnTrue result (vec_len self.new.items < vec_capacity self.new.items) }
    {
        self.items.reserve(1).is_ok()
    }
}

// Leaves with the number. False: there was no room for it.
fn note(
    rt: &impl Wait,
    lock: &TurnLock<Numbers>,
    pass: Pass<Numbers>,
    number: u64,
) -> (Pass<Numbers>, bool)
    requires { IsPassOf lock.now pass }
    ensures lock { IsPassOf lock.now result.0 }
    ensures shares { shares_of result.0 ≡ shares_of pass }
    ensures own { MatchBool result.1 (length (own_of result.0) ≡ length (own_of pass) + 1) (own_of result.0 ≡ own_of pass) }
{
    let mut held = lock.enter(rt, pass);
    if held.book().make_room() {
        (held.leave_with(number), true)
    } else {
        (held.leave(), false)
    }
}

// Leaves with each number below 1,000, and answers how many were added.
fn note_all(rt: &impl Wait, lock: &TurnLock<Numbers>, pass: Pass<Numbers>) -> (Pass<Numbers>, u64)
    requires { IsPassOf lock.now pass }
    ensures lock { IsPassOf lock.now result.0 }
    ensures shares { shares_of result.0 ≡ shares_of pass }
    ensures own { length (own_of result.0) ≡ length (own_of pass) + result.1 }
    ensures few { result.1 ≤ 1000 }
{
    let mut pass = pass;
    let mut noted = 0;
    while noted < 1000 {
        let (next, added) = note(rt, lock, pass, noted);
        pass = next;
        if !added {
            break;
        }
        noted += 1;
    }
    (pass, noted)
}

// Each of the callers notes all numbers in a thread of its own.
fn note_by<R: Threads + Wait + Sync>(
    rt: &R,
    lock: &TurnLock<Numbers>,
    pass: Pass<Numbers>,
    callers: u32,
) -> (Pass<Numbers>, u64)
    requires lock { IsPassOf lock.now pass }
    requires callers { (1 ≤ callers) × (shares_of pass ≡ callers) }
    ensures lock { IsPassOf lock.now result.0 }
    ensures shares { shares_of result.0 ≡ callers }
    ensures own { length (own_of result.0) ≡ length (own_of pass) + result.1 }
    ensures few { result.1 ≤ 1000 * callers }
{
    if callers == 1 {
        return note_all(rt, lock, pass);
    }
    let half = callers / 2;
    let rest = callers - half;
    let (left, right) = lock.split(pass, half);
    let ((left, some), (right, more)) = thread::join(
        rt,
        move || -> (Pass<Numbers>, u64)
            requires { IsSync R.row × IsPassOf lock.now left × (1 ≤ rest) × (shares_of left ≡ rest) }
            ensures { IsPassOf lock.entry.now result.0 × (shares_of result.0 ≡ rest) × (length (own_of result.0) ≡ length (own_of left) + result.1) × (result.1 ≤ 1000 * rest) }
        { note_by(rt, lock, left, rest) },
        move || -> (Pass<Numbers>, u64)
            requires { IsSync R.row × IsPassOf lock.now right × (1 ≤ half) × (shares_of right ≡ half) }
            ensures { IsPassOf lock.entry.now result.0 × (shares_of result.0 ≡ half) × (length (own_of result.0) ≡ length (own_of right) + result.1) × (result.1 ≤ 1000 * half) }
        { note_by(rt, lock, right, half) },
    );
    (lock.join(left, right), some + more)
}

// The list that the callers make has as many entries as they added.
fn list_by<R: Threads + Wait + Sync>(
    rt: &R,
    alloc: Global,
    callers: u32,
) -> Result<(Numbers, u64), Memory>
    requires { 1 ≤ callers }
    ensures { IfOk result (λ r. vec_len r.0.items ≡ r.1) }
{
    let (lock, pass) = TurnLock::new(alloc, Numbers::new(alloc), callers)?;
    let (whole, added) = note_by(rt, &lock, pass, callers);
    each_entry_is_owned::<u64>();
    Ok((lock.close(whole), added))
}

#[test]
fn two_callers_take_turns(rt: HostRuntime) -> Result<(), Fail> {
    let alloc = rt.alloc();
    let (lock, pass) = TurnLock::new(alloc, Numbers::new(alloc), 2)?;
    let (pass, five) = note(&rt, &lock, pass, 5);
    let (pass, second) = lock.split(pass, 1);
    let (second, six) = note(&rt, &lock, second, 6);
    let whole = lock.join(pass, second);
    let numbers = lock.close(whole);
    assert!(rt; five && six && numbers.items.as_slice() == [5, 6].as_slice());
    Ok(())
}

#[test]
fn a_turn_may_end_with_no_entry(rt: HostRuntime) -> Result<(), Fail> {
    let alloc = rt.alloc();
    let (lock, pass) = TurnLock::new(alloc, Numbers::new(alloc), 1)?;
    let pass = lock.enter(&rt, pass).leave();
    own_entries_stand(&pass);
    let numbers = lock.close(pass);
    assert!(rt; numbers.items.is_empty());
    Ok(())
}

#[test]
fn eight_threads_enter_a_thousand_times_each(rt: HostRuntime) -> Result<(), Fail> {
    let (numbers, added) = list_by(&rt, rt.alloc(), 8)?;
    assert_eq!(rt; (added, numbers.items.len()), (8000, 8000));
    for number in [0, 1, 499, 998, 999] {
        let times = numbers.items.iter().filter(|item| **item == number).count();
        assert_eq!(rt; times, 8, "at {number}");
    }
    Ok(())
}

// Entries below 1,000 are small, and give themselves.
struct Small;

impl Fact<u64> for Small {
    ghost use Rattle.std.specs.Prelude.{◌<◌};

    ghost holds = { λ _ entry. entry < 1000 };
}

impl Kind<u64> for Small {
    type Item = u64;

    ghost use Rattle.std.specs.Prelude.{[], ◌∷◌, nat_lt, if◌then◌else◌};
    ghost use mathlib.Core.Path.{ap};

    ghost is_of = { λ entry. nat_lt entry 1000 };

    ghost gives = { λ _ entry. if nat_lt entry 1000 then entry ∷ [] else [] };

    ghost others_give_none = { λ _ entry other. ap (λ small. if small then entry ∷ [] else []) other };
}

#[test]
fn laws_are_stated_at_a_type(_rt: HostRuntime) {
    facts_stay::<u64, Small>();
    facts_of_a_new_entry::<u64, Small>();
    facts_of_both::<u64, Small>();
    facts_hold_of_all::<u64, Small>();
    facts_hold_by_induction::<u64, Small>();
    places_go_up::<u64, Small>();
    items_stay::<u64, Small>();
    items_of_a_new_entry::<u64, Small, Small>();
    entries_of_a_kind::<u64, Small>();
}
