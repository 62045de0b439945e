//! The examples of the doc comments of public calls, one after the other, and the result of each.
#![tactic(auto)]

mod examples;

use anyhow::Result;
use examples::{
    example_audit, example_book, example_check, example_explain, example_graph_build,
    example_resolve, example_rows, example_run_explain, example_snapshot, example_write_text,
};
use std::alloc::{Alloc, Global};
use std::io::{self, Write};
use std::sync::Wait;
use std::thread::Threads;
use tcc_answer::Answer;
use tcc_explain::Workers;
use tcc_graph::Graph;
use tcc_reads::resolve;
use tcc_txn::Snapshot;

/// A session writes x, and its next transaction reads the initial x.
const RECORDS: &[u8] = b"a,begin\na,w,x,1\na,commit\na,begin\na,r,x,0\na,commit\n";

/// The examples of histories.
fn show_history<W: Write>(alloc: Global, snapshot: &Snapshot, out: &mut W) -> Result<()> {
    writeln!(out, "{} faults", example_resolve(alloc, snapshot)?)?;
    writeln!(
        out,
        "{} readers",
        example_graph_build(alloc, snapshot)?.len()
    )?;
    Ok(())
}

/// Whether the certificate of an answer is accepted.
fn is_accepted(alloc: Global, snapshot: &Snapshot, answer: &Answer) -> Result<bool> {
    let resolved = resolve(alloc, snapshot)?;
    let graph = Graph::build(alloc, resolved)?;
    example_check(alloc, &graph, answer)
}

/// The examples of answers.
fn show_answers<W: Write>(rt: &(impl Threads + Sync), alloc: Global, out: &mut W) -> Result<()> {
    let snapshot = example_snapshot(alloc)?;
    show_history(alloc, &snapshot, out)?;
    let answer = example_explain(rt, alloc, &snapshot, Workers::ONE, out)?;
    out.write_all(&example_write_text(alloc, &answer)?)?;
    writeln!(out, "accepted: {}", is_accepted(alloc, &snapshot, &answer)?)?;
    Ok(())
}

/// The examples of a book.
fn show_books<W: Write>(
    rt: &(impl Threads + Wait + Sync),
    alloc: Global,
    out: &mut W,
) -> Result<()> {
    for (session, txn) in example_rows(alloc, RECORDS)? {
        writeln!(out, "{session} finished {} operations", txn.ops().len())?;
        let (book, passes) = example_book(rt, alloc, txn)?;
        example_audit(rt, alloc, &book, &passes, Workers::ONE, out)?;
    }
    Ok(())
}

fn main(rt: HostRuntime) -> Result<()> {
    let alloc = rt.alloc();
    let mut out = io::writer(&rt);
    show_answers(&rt, alloc, &mut out)?;
    show_books(&rt, alloc, &mut out)?;
    let mut file = Some(Vec::new(alloc));
    let status = example_run_explain(&rt, alloc, RECORDS, Workers::ONE, &mut out, &mut file);
    writeln!(out, "status {status}")?;
    if let Some(certificate) = file {
        out.write_all(&certificate)?;
    }
    Ok(())
}
