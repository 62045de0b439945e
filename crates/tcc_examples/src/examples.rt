//! The examples in the doc comments of public calls: each is the body of the function here that is named after the call.

use anyhow::Result;
use std::alloc::Global;
use std::io::{self, Read, Write};
use std::sync::Wait;
use std::thread::Threads;
use tcc_answer::{Answer, write_json, write_text};
use tcc_book::{Book, Pass};
use tcc_cert::read;
use tcc_check::{Verdict, check};
use tcc_explain::{OpenGate, Workers, explain};
use tcc_graph::{Graph, Level};
use tcc_reads::{ResolveFault, resolve};
use tcc_rows::{Item, Rows};
use tcc_run::{Options, audit, run_explain};
use tcc_txn::{Name, NoMemory, Op, Snapshot, Txn};

/// What some records finish, in the order in which it ends.
pub fn example_rows(alloc: Global, records: &[u8]) -> Result<Vec<(Name, Txn)>> {
    let mut rows = Rows::new(alloc, records)?;
    let mut finished = Vec::new(alloc);
    for _ in 0..u64::MAX {
        match rows.next(alloc)? {
            Item::Finished(session, txn) => finished.push((session, txn))?,
            Item::Unknown(..) | Item::Seal => {}
            Item::End => break,
        }
    }
    Ok(finished)
}

/// A snapshot of one session, whose one transaction writes a value and reads it.
pub fn example_snapshot(alloc: Global) -> Result<Snapshot> {
    let (session, key) = (Name::read(b"a")?, Name::read(b"x")?);
    let ops = vec![in alloc; Op::Put { key, value: 1 }, Op::Get { key, value: 1 }]?;
    let txn = Txn::new(ops, true).map_err(|refused| refused.0)?;
    let parts = vec![in alloc; (session, vec![in alloc; txn]?)]?;
    let snapshot = Snapshot::new(parts).map_err(|refused| refused.0)?;
    Ok(snapshot)
}

/// How many operations of a snapshot no source explains.
pub fn example_resolve(alloc: Global, snapshot: &Snapshot) -> Result<usize> {
    match resolve(alloc, snapshot) {
        Ok(_resolved) => Ok(0),
        Err(ResolveFault::Reads(faults)) => Ok(faults.len()),
        Err(ResolveFault::NoMemory) => Err(NoMemory.into()),
    }
}

/// The labels of the transactions that read from others.
pub fn example_graph_build(alloc: Global, snapshot: &Snapshot) -> Result<Vec<String>> {
    let resolved = resolve(alloc, snapshot)?;
    let graph = Graph::build(alloc, resolved)?;
    let mut readers = Vec::new(alloc);
    for n in 0..graph.count() {
        if !graph.reads(n).is_empty() {
            readers.push(graph.label(alloc, n)?)?;
        }
    }
    Ok(readers)
}

/// What is found in a snapshot.
pub fn example_explain<W: Write>(
    rt: &(impl Threads + Sync),
    alloc: Global,
    snapshot: &Snapshot,
    workers: Workers,
    out: &mut W,
) -> Result<Answer> {
    let answer = explain(rt, alloc, snapshot, Level::Causal, workers, &OpenGate)?;
    match &answer {
        Answer::Commit(commit) => writeln!(out, "{} in order", commit.order().len())?,
        Answer::Anomaly(anomaly) => writeln!(out, "a cycle of {} steps", anomaly.cost())?,
    }
    Ok(answer)
}

/// The text of an answer.
pub fn example_write_text(alloc: Global, answer: &Answer) -> Result<Vec<u8>> {
    let mut text = Vec::new(alloc);
    write_text(alloc, answer, &mut text)?;
    Ok(text)
}

/// Whether the certificate of an answer shows what it claims of a history.
pub fn example_check(alloc: Global, graph: &Graph, answer: &Answer) -> Result<bool> {
    let mut text = Vec::new(alloc);
    answer.write_certificate(&mut text)?;
    let certificate = read(alloc, text.as_slice())?;
    let verdict = check(alloc, graph, &certificate)?;
    Ok(verdict == Verdict::Accepted)
}

/// A book in which one session has recorded a transaction, with the pass of that session.
pub fn example_book(rt: &impl Wait, alloc: Global, txn: Txn) -> Result<(Book, Vec<Pass>)> {
    let book = Book::new(alloc)?;
    let mut pass = book.open(rt, alloc, Name::read(b"a")?)?;
    if let Err((fault, _txn)) = book.record(rt, alloc, &mut pass, txn) {
        return Err(fault.into());
    }
    let passes = vec![in alloc; pass]?;
    Ok((book, passes))
}

/// The answer for what the passes of a book recorded, as a line of JSON.
pub fn example_audit<W: Write>(
    rt: &(impl Threads + Wait + Sync),
    alloc: Global,
    book: &Book,
    passes: &[Pass],
    workers: Workers,
    out: &mut W,
) -> Result<()> {
    let answer = audit(rt, alloc, book, passes, Level::Causal, workers, &OpenGate)?;
    write_json(alloc, &answer, out)?;
    Ok(())
}

/// What `tcc explain` prints for some records, and the status of the run. The certificate of the last answer is written to
/// the file, if there is one.
pub fn example_run_explain<R: Read + Drop, W: Write, C: Write>(
    rt: &(impl Threads + Sync),
    alloc: Global,
    records: R,
    workers: Workers,
    out: &mut W,
    file: &mut Option<C>,
) -> u8 {
    let mut notes = io::sink();
    let options = Options {
        level: Level::Causal,
        workers,
        json: false,
        required: 1,
    };
    run_explain(
        rt, alloc, records, out, file, &mut notes, options, &OpenGate,
    )
}
