//! One history, from the bytes of its records to a line.
ghost use Rattle.std.specs.Prelude.{◌≡◌, IfSome, None, Some, []};
ghost use Rattle.tcc_batch.specs.Findings.{IsFinding, IsFoundIn, IsWritten, options_of};
ghost use Rattle.tcc_run.specs.Runs.{IsExplainRun};
ghost use Rattle.tcc_watch_run.specs.Quiet.{IsQuietRun};

use crate::finding::Finding;
use crate::headline::headline;
use std::alloc::Global;
use std::io::{self, Read};
use std::thread::Threads;
use tcc_base::Workers;
use tcc_graph::Level;
use tcc_print::{Options, Status};
use tcc_run::{OpenGate, run_explain};
use tcc_txn::{Limits, NoMemory};
use tcc_watch_run::run_quiet;

/// How histories are judged.
#[derive(Clone, Copy)]
pub struct BatchOptions {
    /// The level to judge at.
    pub level: Level,
    /// The limits of each history.
    pub limits: Limits,
}

impl BatchOptions {
    /// The options of a run for one history.
    fn options(&self) -> Options
        ensures { result ≡ options_of self.now }
    {
        Options {
            level: self.level,
            workers: Workers::ONE,
            json: false,
            required: 0,
        }
    }
}

/// What a run writes, and the code that it ends with.
#[derive(Drop)]
struct Written {
    text: Vec<u8>,
    code: u8,
}

/// What a run within the default limits writes.
fn run_small<R: Read + Drop>(
    rt: &(impl Threads + Sync),
    alloc: Global,
    reader: R,
    options: Options,
) -> Written
    ensures { IfSome (R.remaining reader) (λ bytes. IsExplainRun options bytes (Some []) (Some result.text.items) None None result.code) }
{
    let mut text = Vec::new(alloc);
    let mut certificate: Option<Vec<u8>> = None;
    let code = run_explain(
        rt,
        alloc,
        reader,
        &mut text,
        &mut certificate,
        &mut io::sink(),
        options,
        &OpenGate,
    );
    Written { text, code }
}

/// What a run within the large limits writes.
fn run_large<R: Read + Drop>(
    rt: &(impl Threads + Sync),
    alloc: Global,
    reader: R,
    options: Options,
) -> Written
    ensures { IfSome (R.remaining reader) (λ bytes. IsQuietRun options bytes (Some []) (Some result.text.items) result.code) }
{
    let mut text = Vec::new(alloc);
    let code = run_quiet(
        rt,
        alloc,
        reader,
        &mut text,
        &mut io::sink(),
        options,
        &OpenGate,
    );
    Written { text, code }
}

/// What a run writes for the records.
fn run<R: Read + Drop>(
    rt: &(impl Threads + Sync),
    alloc: Global,
    reader: R,
    asked: &BatchOptions,
) -> Written
    ensures { IfSome (R.remaining reader) (λ bytes. IsWritten asked.now bytes result.text.items result.code) }
{
    match asked.limits {
        Limits::Small => run_small(rt, alloc, reader, asked.options()),
        Limits::Large => run_large(rt, alloc, reader, asked.options()),
    }
}

/// What is said of a history for which a run wrote this.
fn finding_of(alloc: Global, written: &Written) -> Finding
    ensures { IsFoundIn written.now.text.items written.now.code result }
{
    match headline(alloc, &written.text) {
        // A writer in memory fails only where memory is out. A reader that failed has its line.
        Ok(line) if written.code == Status::Device.code() && !line.starts_with("row ") => {
            Finding::NoMemory
        }
        Ok(line) => Finding::Answered {
            line,
            code: written.code,
        },
        Err(NoMemory) => Finding::NoMemory,
    }
}

/// What is said of the history that the reader has the records of.
pub fn judge<R: Read + Drop>(
    rt: &(impl Threads + Sync),
    alloc: Global,
    reader: R,
    asked: &BatchOptions,
) -> Finding
    ensures { IfSome (R.remaining reader) (λ bytes. IsFinding asked.now bytes result) }
{
    let written = run(rt, alloc, reader, asked);
    finding_of(alloc, &written)
}
