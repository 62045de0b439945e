//! What a run says about a snapshot, for programs that print it elsewhere.
ghost use Rattle.std.specs.Prelude.{◌≡◌, IfOk};
ghost use Rattle.tcc_print.specs.{Courses.AreSaidFaults, declared.options.Options.Options};
ghost use Rattle.tcc_run.specs.{LargeRuns.IsExplained, private.Stages.outcome_said};

use crate::outcome::Outcome;
use crate::running::decide;
use crate::watching::Watcher;
use std::alloc::Global;
use std::thread::Threads;
use tcc_print::{Options, RunContext, Status};
use tcc_reads::ReadFault;
use tcc_txn::{LargeSnapshot, NoMemory};

/// What is said about a snapshot.
#[derive(Drop)]
pub struct Explained {
    /// Its text.
    pub text: Vec<u8>,
    /// How a run ends whose last text this is.
    pub status: Status,
    /// The read faults that it reports; none where it reports an answer.
    pub faults: Vec<ReadFault>,
}

/// The read faults that are reported.
fn faults_of(alloc: Global, outcome: Outcome) -> Vec<ReadFault>
    ensures { (options : Options) → AreSaidFaults options (outcome_said options outcome) result.items }
{
    match outcome {
        Outcome::Unresolved(faults) => faults,
        _ => Vec::new(alloc),
    }
}

/// The text of an outcome.
fn text_of(alloc: Global, options: &Options, outcome: &Outcome) -> Result<Vec<u8>, NoMemory>
    ensures { IfOk result (λ text. text.items ≡ (outcome_said options.now outcome.now).text) }
{
    let mut text = Vec::new(alloc);
    match outcome.send(alloc, options, &mut text) {
        Ok(()) => Ok(text),
        Err(_) => Err(NoMemory),
    }
}

/// What `run_large` says about a snapshot, with no certificate.
pub fn explain_large_snapshot<T: Threads + Sync, G: Watcher>(
    run: &RunContext<T, G>,
    snapshot: &LargeSnapshot,
) -> Result<Explained, NoMemory>
    ensures { IfOk result (IsExplained run.now.options.now snapshot.now) }
{
    let decided = decide(run, snapshot, false)?;
    let outcome = decided.into_outcome();
    Ok(Explained {
        text: text_of(run.alloc, run.options, &outcome)?,
        status: outcome.status(run.options.required),
        faults: faults_of(run.alloc, outcome),
    })
}
