//! Seats of the bound, one after another and in threads of their own.
ghost use Rattle.std.specs.Prelude.{◌≡◌, IfOk};
ghost use denote.Param.Send.{IsSync};

use std::alloc::{AllocError, Global};
use std::test::Fail;
use std::thread::{Threads, join};
use tcc_bound::{Bound, Seat};

// A bound whose floor is 0, so that every cost may be offered.
fn open(alloc: Global) -> Result<(Bound, Seat), AllocError>
    ensures { IfOk result (λ made. (made.1.bound ≡ made.0) × (made.1.known.floor ≡ 0)) }
{
    let made = Bound::new(alloc)?;
    Ok(made)
}

#[test]
fn offer_is_seen(rt: HostRuntime) -> Result<(), Fail> {
    let (bound, mut one) = open(rt.alloc())?;
    let mut other = bound.split(&mut one);
    assert_eq!(rt; bound.look(&mut one), u64::MAX);
    assert_eq!(rt; bound.offer(&mut other, 5), 5);
    assert_eq!(rt; bound.look(&mut one), 5);
    bound.join(&mut one, other);
    assert_eq!(rt; bound.close(one), 5);
    Ok(())
}

#[test]
fn offer_of_a_dropped_seat_counts(rt: HostRuntime) -> Result<(), Fail> {
    let (bound, mut one) = open(rt.alloc())?;
    let mut other = bound.split(&mut one);
    assert_eq!(rt; bound.offer(&mut other, 4), 4);
    drop(other);
    assert_eq!(rt; bound.look(&mut one), 4);
    assert_eq!(rt; bound.offer(&mut one, 6), 4);
    assert_eq!(rt; bound.close(one), 4);
    Ok(())
}

#[test]
fn only_a_lower_offer_changes_the_word(rt: HostRuntime) -> Result<(), Fail> {
    let (bound, mut seat) = open(rt.alloc())?;
    let most = u64::MAX - 1;
    assert_eq!(rt; bound.offer(&mut seat, most), most);
    for (cost, word) in [(7u32, 7), (8, 7), (7, 7), (3, 3), (4, 3), (0, 0)] {
        let after = bound.offer(&mut seat, u64::from(cost));
        assert_eq!(rt;
            (after, bound.look(&mut seat)),
            (word, word),
            "after {cost}"
        );
    }
    assert_eq!(rt; bound.close(seat), 0);
    Ok(())
}

// Under `rt try --test --fail-alloc 1` the first call is refused.
#[test]
fn refused_memory_stops_no_later_call(rt: HostRuntime) -> Result<(), Fail> {
    let (bound, seat) = match open(rt.alloc()) {
        Ok(made) => made,
        Err(_) => open(rt.alloc())?,
    };
    assert_eq!(rt; bound.close(seat), u64::MAX);
    Ok(())
}

// Offers 999 more than the cost, and so on down to the cost.
fn offer_down_to(bound: &Bound, seat: &mut Seat, cost: u32)
    requires { (seat.old.bound ≡ bound.now) × (seat.old.known.floor ≡ 0) }
    ensures { (seat.new.bound ≡ bound.now) × (seat.new.known.floor ≡ 0) }
{
    for more in (0..1000u64).rev() {
        bound.offer(seat, u64::from(cost) + more);
    }
}

// Each cost in a thread of its own.
#[cycle(halving)]
fn offer_all<R: Threads + Sync>(rt: &R, bound: &Bound, mut seat: Seat, costs: &[u32]) -> Seat
    requires { (seat.bound ≡ bound.now) × (seat.known.floor ≡ 0) }
    ensures { (result.bound ≡ bound.now) × (result.known.floor ≡ 0) }
{
    if costs.len() < 2 {
        if let [cost] = costs {
            offer_down_to(bound, &mut seat, *cost);
        }
        return seat;
    }
    let (left, right) = costs.split_at(costs.len() / 2);
    let other = bound.split(&mut seat);
    let (mut seat, other) = join(
        rt,
        move || -> Seat
            requires { IsSync R.row × (seat.bound ≡ bound.now) × (seat.known.floor ≡ 0) }
            ensures { (result.bound ≡ bound.entry.now) × (result.known.floor ≡ 0) }
        { offer_all(rt, bound, seat, left) },
        move || -> Seat
            requires { IsSync R.row × (other.bound ≡ bound.now) × (other.known.floor ≡ 0) }
            ensures { (result.bound ≡ bound.entry.now) × (result.known.floor ≡ 0) }
        { offer_all(rt, bound, other, right) },
    );
    bound.join(&mut seat, other);
    seat
}

#[test]
fn eight_threads_end_in_the_least(rt: HostRuntime) -> Result<(), Fail> {
    let (bound, seat) = open(rt.alloc())?;
    let seat = offer_all(&rt, &bound, seat, &[19, 14, 17, 13, 18, 16, 15, 21]);
    assert_eq!(rt; bound.close(seat), 13);
    Ok(())
}
