//! How long a look and an offer at a shared bound take, from one thread and from four.
ghost use Rattle.std.specs.Prelude.{◌≡◌, ◌<◌, Contains, IfOk};
ghost use denote.Param.Send.{IsSync};

use std::alloc::{Alloc, AllocError, Global};
use std::io::{Eprint, Print};
use std::thread::{Threads, join};
use std::time::{Clock, Instant};
use std::{fmt, io};
use tcc_bound::{Bound, Seat};

#[derive(Clone, Copy)]
enum Call {
    Look,
    Offer,
}

impl fmt::Display for Call {
    fn fmt<W: fmt::Write>(&self, f: &mut fmt::Formatter<W>) -> fmt::Result {
        f.write_str(match self {
            Call::Look => "look",
            Call::Offer => "offer",
        })
    }
}

// A bound whose floor is 0.
fn open(alloc: Global) -> Result<(Bound, Seat), AllocError>
    ensures { IfOk result (λ made. (made.1.bound ≡ made.0) × (made.1.known.floor ≡ 0)) }
{
    let made = Bound::new(alloc)?;
    Ok(made)
}

// Each offer is lower than the one before, and the last one is 0.
fn call_often(bound: &Bound, seat: &mut Seat, call: Call, times: u32)
    requires { (seat.old.bound ≡ bound.now) × (seat.old.known.floor ≡ 0) }
    ensures seat { (seat.new.bound ≡ bound.now) × (seat.new.known.floor ≡ 0) }
    ensures last { call ≡ Call.Offer → 0 < times → Contains seat.new.known.offers 0 }
{
    for cost in (0..times).rev() {
        match call {
            Call::Look => bound.look(seat),
            Call::Offer => bound.offer(seat, u64::from(cost)),
        };
    }
}

#[cycle(halving)]
fn call_in_threads<R: Threads + Sync>(
    rt: &R,
    bound: &Bound,
    mut seat: Seat,
    call: Call,
    times: u32,
    threads: u32,
) -> Seat
    requires { (seat.bound ≡ bound.now) × (seat.known.floor ≡ 0) }
    ensures seat { (result.bound ≡ bound.now) × (result.known.floor ≡ 0) }
    ensures last { call ≡ Call.Offer → 0 < times → Contains result.known.offers 0 }
{
    if threads < 2 {
        call_often(bound, &mut seat, call, times);
        return seat;
    }
    let half = threads / 2;
    let rest = threads - half;
    let other = bound.split(&mut seat);
    let (mut seat, other) = join(
        rt,
        move || -> Seat
            requires { IsSync R.row × (seat.bound ≡ bound.now) × (seat.known.floor ≡ 0) }
            ensures seat { (result.bound ≡ bound.entry.now) × (result.known.floor ≡ 0) }
            ensures last { call ≡ Call.Offer → 0 < times → Contains result.known.offers 0 }
        { call_in_threads(rt, bound, seat, call, times, half) },
        move || -> Seat
            requires { IsSync R.row × (other.bound ≡ bound.now) × (other.known.floor ≡ 0) }
            ensures seat { (result.bound ≡ bound.entry.now) × (result.known.floor ≡ 0) }
        { call_in_threads(rt, bound, other, call, times, rest) },
    );
    bound.join(&mut seat, other);
    seat
}

// The last word of a bound at which the threads made their calls. Since offers come down to 0, it is then 0.
fn last_word<R: Threads + Sync>(
    rt: &R,
    bound: Bound,
    seat: Seat,
    call: Call,
    times: u32,
    threads: u32,
) -> u64
    requires { (seat.bound ≡ bound) × (seat.known.floor ≡ 0) }
    ensures { call ≡ Call.Offer → 0 < times → result ≡ 0 }
{
    let seat = call_in_threads(rt, &bound, seat, call, times, threads);
    bound.close(seat)
}

fn measure<R: Threads + Clock + Print + Eprint + Alloc<A = Global> + Sync>(
    rt: &R,
    threads: u32,
    call: Call,
    times: u32,
) -> io::Result<()> {
    let (bound, seat) = open(rt.alloc())?;
    let start = Instant::now(rt)?;
    let word = last_word(rt, bound, seat, call, times, threads);
    let spent = start.elapsed(rt)?;
    println!(rt; "threads: {threads}, calls of {call} in each: {times}, word: {word}")?;
    let nanoseconds = spent.as_secs_f64() * 1e9 / f64::from(times.max(1));
    eprintln!(rt; "threads: {threads}, {nanoseconds:.1} ns for each {call} of a thread")
}

/// Makes `times` calls of each kind in each thread. Standard output has their result, and standard error the time.
pub fn measure_calls<R: Threads + Clock + Print + Eprint + Alloc<A = Global> + Sync>(
    rt: &R,
    times: u32,
) -> io::Result<()> {
    for threads in [1, 4] {
        measure(rt, threads, Call::Look, times)?;
        measure(rt, threads, Call::Offer, times)?;
    }
    Ok(())
}
