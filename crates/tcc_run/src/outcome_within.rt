//! What a run within limits says about a snapshot: its first answer, or all its read faults.
ghost use Rattle.std.specs.Prelude.{◌≡◌, IfOk, true};
ghost use Rattle.tcc_txn.specs.Finished.{KeepsLimits};
ghost use Rattle.tcc_answering.specs.Answered.{IsAnswered};
ghost use Rattle.tcc_print.specs.Saying.{IsTold};
ghost use Rattle.tcc_run.specs.private.Stages.{IsCertifiable, IsOutcome, course};

use crate::held_graph::HeldSmallGraph;
use crate::outcome::{Outcome, is_small};
use std::alloc::Global;
use std::io::Write;
use std::marker::{Model, PhantomData};
use std::thread::Threads;
use tcc_answering::{Answered, AnsweredBounds, AsSmall, first_answer};
use tcc_explain::{Gate, explain_with_graph};
use tcc_graph::Level;
use tcc_print::{Options, Printable, RunContext};
use tcc_reads::{ReadFault, ResolveFault};
use tcc_txn::{Bounds, NoMemory, Snapshot, SnapshotWithin};

/// The order to judge by, if it is wanted.
fn kept_if(is_wanted: bool, order: Option<Vec<u32>>) -> Option<Vec<u32>> {
    if is_wanted { order } else { None }
}

/// What is to be said about a snapshot within the small limits whose certificate is wanted.
fn tabled<T: Threads + Sync, G: Gate>(
    run: &RunContext<T, G>,
    snapshot: &Snapshot,
) -> Result<Outcome, NoMemory>
    ensures outcome { IfOk result (IsOutcome run.now.options.now.level snapshot.now) }
    ensures certifiable { IfOk result (IsCertifiable true) }
{
    snapshot.keeps_limits();
    let (level, workers) = (run.options.level, run.options.workers);
    match explain_with_graph(run.rt, run.alloc, snapshot, level, workers, run.gate) {
        Ok(explanation) => {
            let graph = HeldSmallGraph::new(run.alloc, explanation.graph)?;
            let answer = explanation.answer;
            Ok(Outcome::Tabled { graph, answer })
        }
        Err(ResolveFault::Reads(faults)) => Ok(Outcome::Unresolved(faults)),
        Err(ResolveFault::NoMemory) => Err(NoMemory),
    }
}

/// What is to be said about a snapshot by its first answer, without tables. Where the certificate of a large one isn't wanted, the judge
/// isn't asked whether a cycle of more than four steps is a least one.
fn of_answered<B: Bounds>(
    alloc: Global,
    level: Level,
    snapshot: &SnapshotWithin<B>,
    answered: Answered,
    is_certified: bool,
) -> Result<Outcome, NoMemory>
    requires answered { IsAnswered level snapshot.now answered }
    requires certified { KeepsLimits snapshot.now → is_certified ≡ true → ⊥ }
    ensures outcome { IfOk result (IsOutcome level snapshot.now) }
    ensures certifiable { IfOk result (IsCertifiable is_certified) }
{
    let Answered {
        graph,
        first,
        order,
    } = answered;
    if is_small(snapshot) {
        Outcome::of_small(alloc, level, graph, first)
    } else {
        let order = kept_if(is_certified, order);
        Outcome::of_large(alloc, level, graph, first, &order)
    }
}

/// What is to be said about a snapshot, without tables.
fn untabled<T: Threads + Sync, G, B: AnsweredBounds>(
    run: &RunContext<T, G>,
    snapshot: &SnapshotWithin<B>,
    is_certified: bool,
) -> Result<Outcome, NoMemory>
    requires certified { KeepsLimits snapshot.now → is_certified ≡ true → ⊥ }
    ensures outcome { IfOk result (IsOutcome run.now.options.now.level snapshot.now) }
    ensures certifiable { IfOk result (IsCertifiable is_certified) }
{
    let (alloc, level) = (run.alloc, run.options.level);
    match first_answer(run.rt, alloc, snapshot, level, run.options.workers) {
        Ok(answered) => of_answered(alloc, level, snapshot, answered, is_certified),
        Err(ResolveFault::Reads(faults)) => Ok(Outcome::Unresolved(faults)),
        Err(ResolveFault::NoMemory) => Err(NoMemory),
    }
}

/// What is to be said about a snapshot: with the tables of its certificate where that is wanted and the snapshot keeps the small limits.
fn outcome_of<T: Threads + Sync, G: Gate, B: AnsweredBounds>(
    run: &RunContext<T, G>,
    snapshot: &SnapshotWithin<B>,
    is_certified: bool,
) -> Result<Outcome, NoMemory>
    ensures outcome { IfOk result (IsOutcome run.now.options.now.level snapshot.now) }
    ensures certifiable { IfOk result (IsCertifiable is_certified) }
{
    if !is_certified {
        return untabled(run, snapshot, false);
    }
    match B::as_small(run.alloc, snapshot)? {
        AsSmall::Lent(small) => tabled(run, small),
        AsSmall::Copied(small) => tabled(run, &small),
        AsSmall::Past => untabled(run, snapshot, true),
    }
}

/// What a run at the limits that `B` represents says about a snapshot.
#[derive(Drop)]
pub(crate) struct OutcomeWithin<B: Bounds> {
    outcome: Outcome,
    bounds: PhantomData<B>,
}

impl<B: Bounds> Model for OutcomeWithin<B> {
    ghost use Rattle.tcc_run.specs.declared.outcome.Outcome.{Outcome};

    ghost Value = { Outcome };

    ghost view = { λ o. o.outcome };
}

impl<B: AnsweredBounds> OutcomeWithin<B> {
    /// What is to be said about a snapshot, and whether its certificate may be wanted.
    pub(crate) fn of<T: Threads + Sync, G: Gate>(
        run: &RunContext<T, G>,
        snapshot: &SnapshotWithin<B>,
        is_certified: bool,
    ) -> Result<OutcomeWithin<B>, NoMemory>
        ensures told { IfOk result (IsTold (course B.limits run.now.options.now) snapshot.now) }
        ensures certifiable { IfOk result (IsCertifiable is_certified) }
    {
        // This call says how many sessions and transactions there are.
        let _sessions = snapshot.sessions();
        let outcome = outcome_of(run, snapshot, is_certified)?;
        Ok(OutcomeWithin {
            outcome,
            bounds: PhantomData,
        })
    }
}

impl<B: Bounds> OutcomeWithin<B> {
    /// What is said, by reference.
    pub(crate) fn get(&self) -> &Outcome
        ensures { result.now ≡ self.now }
    {
        &self.outcome
    }

    /// What is said.
    pub(crate) fn into_outcome(self) -> Outcome
        ensures { result ≡ self }
    {
        self.outcome
    }
}

impl<B: Bounds> Printable for OutcomeWithin<B> {
    ghost use Rattle.std.specs.Prelude.{refl};
    ghost use Rattle.tcc_run.specs.private.Stages.{course};

    ghost course = { course B.limits };

    fn send<W: Write>(&self, alloc: Global, options: &Options, out: &mut W) -> Result<(), u8> {
        self.outcome.send(alloc, options, out)
    }

    fn read_faults(&self) -> &[ReadFault] {
        self.outcome.read_faults()
    }

    ghost asked = { λ options. refl };
}
