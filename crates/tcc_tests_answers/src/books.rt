//! Books, and recorders that record in them.
use std::alloc::Global;
use std::sync::Wait;
use std::thread::Threads;
use tcc_answer::Answer;
use tcc_book::{Book, Pass};
use tcc_explain::{OpenGate, Workers};
use tcc_graph::Level;
use tcc_run::{AuditFault, audit};
use tcc_txn::{Name, Op, Txn};

/// The passes of some sessions, opened in this order.
pub fn opened(rt: &impl Wait, alloc: Global, book: &Book, sessions: &[&[u8]]) -> Option<Vec<Pass>> {
    let mut passes = Vec::new(alloc);
    for session in sessions {
        let name = Name::read(session).ok()?;
        passes.push(book.open(rt, alloc, name).ok()?).ok()?;
    }
    Some(passes)
}

/// Records a transaction of one operation.
pub fn record(rt: &impl Wait, alloc: Global, book: &Book, pass: &mut Pass, op: Op) -> Option<()> {
    let mut ops = Vec::new(alloc);
    ops.push(op).ok()?;
    let txn = Txn::new(ops, true).ok()?;
    book.record(rt, alloc, pass, txn).ok()?;
    Some(())
}

/// The key of a session's writes.
fn key_of(session: &Name) -> Option<Name> {
    let key = if session.bytes().first() == Some(&b'a') {
        b"x"
    } else {
        b"y"
    };
    Name::read(key).ok()
}

/// All that a recorder does: a write, and a read of the initial value after it.
pub fn recorder(rt: &impl Wait, alloc: Global, book: &Book, pass: Pass) -> Option<Pass> {
    let mut pass = pass;
    let key = key_of(pass.session())?;
    record(rt, alloc, book, &mut pass, Op::Put { key, value: 1 })?;
    record(rt, alloc, book, &mut pass, Op::Get { key, value: 0 })?;
    Some(pass)
}

/// The answer at `Causal`, by one worker.
pub fn audited(
    rt: &(impl Threads + Wait + Sync),
    alloc: Global,
    book: &Book,
    passes: &[Pass],
) -> Result<Answer, AuditFault> {
    audit(
        rt,
        alloc,
        book,
        passes,
        Level::Causal,
        Workers::ONE,
        &OpenGate,
    )
}
