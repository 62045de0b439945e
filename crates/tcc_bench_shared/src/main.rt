//! How long calls take on what threads share: the bound of searches, and the book of recorders.
//!
//! `tcc_bench_shared TIMES` makes TIMES calls at the bound in each thread, or a million without an argument. Standard
//! output has what was counted, and standard error the times.
#![tactic(auto)]

mod books;
mod bounds;

use crate::books::measure_copies;
use crate::bounds::measure_calls;
use std::alloc::{Alloc, Global};
use std::env;
use std::io::{Eprint, Print};
use std::process::ExitCode;
use std::thread::Threads;
use std::time::Clock;

/// How many calls at the bound the first argument asks for.
fn asked_times(rt: &HostRuntime) -> Option<u32> {
    let word = env::args(rt).ok()?.nth(1);
    Some(
        word.and_then(|word| word.as_str().parse().ok())
            .unwrap_or(1_000_000),
    )
}

/// Measures the calls at the bound, and then the copies of books.
fn run<R: Threads + Clock + Print + Eprint + Alloc<A = Global> + Sync>(
    rt: &R,
    times: u32,
) -> Option<()> {
    measure_calls(rt, times).ok()?;
    measure_copies(rt)
}

fn main(rt: HostRuntime) -> ExitCode {
    let Some(times) = asked_times(&rt) else {
        return ExitCode::from(64);
    };
    match run(&rt, times) {
        Some(()) => ExitCode::SUCCESS,
        None => ExitCode::from(6),
    }
}
