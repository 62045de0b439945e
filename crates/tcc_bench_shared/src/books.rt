//! How long a copy of a book takes, which a seal makes under the lock, compared with recording what it copies.
ghost use Rattle.std.specs.Prelude.{◌≡◌, ◌+◌, IfSome, length};

use std::alloc::{Alloc, Global};
use std::io::{Eprint, Print};
use std::time::{Clock, Instant};
use tcc_book::BookState;
use tcc_txn::{Name, Op, Txn};

/// How many operations a transaction has.
const OPERATIONS: u64 = 8;

/// How many books of each size are filled and copied; the least times are reported.
const BOOKS: u32 = 50;

/// Seconds of filling a book and of copying it, and how many transactions were copied.
#[derive(Clone, Copy)]
struct Spent {
    record: f64,
    copy: f64,
    copied: usize,
}

/// A transaction of `OPERATIONS` writes.
fn transaction(alloc: Global, key: Name) -> Option<Txn> {
    let mut ops = Vec::new(alloc);
    for before in 0..OPERATIONS {
        let value = before + 1;
        ops.push(Op::Put { key, value }).ok()?;
    }
    Txn::new(ops, true).ok()
}

/// Records the transaction `count` times.
fn fill(alloc: Global, book: &mut BookState, session: &Name, txn: &Txn, count: u32) -> Option<()>
    ensures { IfSome result (λ done. length book.new.journal ≡ length book.old.journal + count) }
{
    for held in 0..count {
        book.record(session, held, txn.copy(alloc).ok()?).ok()?;
    }
    Some(())
}

/// Fills a book with `count` transactions, and copies it.
fn measure<R: Clock + Alloc<A = Global>>(rt: &R, count: u32) -> Option<Spent> {
    let alloc = rt.alloc();
    let session = Name::read(b"a").ok()?;
    let txn = transaction(alloc, session)?;
    let mut book = BookState::new(alloc).ok()?;
    book.open(alloc, session).ok()?;
    let start = Instant::now(rt).ok()?;
    fill(alloc, &mut book, &session, &txn, count)?;
    let record = start.elapsed(rt).ok()?.as_secs_f64();
    let start = Instant::now(rt).ok()?;
    let copy = book.copy(alloc).ok()?;
    let seconds = start.elapsed(rt).ok()?.as_secs_f64();
    let (_, txns) = copy.session(0)?;
    Some(Spent {
        record,
        copy: seconds,
        copied: txns.len(),
    })
}

/// The least times of many books of one size.
fn least<R: Clock + Alloc<A = Global>>(rt: &R, count: u32) -> Option<Spent> {
    let mut least = measure(rt, count)?;
    for _ in 1..BOOKS {
        let spent = measure(rt, count)?;
        least.record = least.record.min(spent.record);
        least.copy = least.copy.min(spent.copy);
    }
    Some(least)
}

/// Fills books with more and more transactions, and copies them. Standard output has how many were copied, and standard
/// error the times. None where memory, the clock or an output failed.
pub fn measure_copies<R: Clock + Print + Eprint + Alloc<A = Global>>(rt: &R) -> Option<()> {
    for count in [500, 1_000, 2_000, 4_000] {
        let spent = least(rt, count)?;
        let one = 1e9 / f64::from(count);
        let (record, copy) = (spent.record * one, spent.copy * one);
        let whole = spent.copy * 1e6;
        eprintln!(rt;
            "{count}: {whole:.0} us for a copy, {copy:.0} ns of it for each transaction; {record:.0} ns for a record"
        ).ok()?;
        println!(rt; "transactions: {count}, copied: {}", spent.copied).ok()?;
    }
    Some(())
}
