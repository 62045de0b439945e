//! Many histories, several at a time.
ghost use Rattle.std.specs.Prelude.{◌<◌, ℕ, length, slice_index_or};
ghost use Rattle.tcc_batch.specs.Reports.{IsJudgedAs};

use crate::judging::{BatchOptions, judge};
use crate::report::History;
use std::alloc::Global;
use std::io::Read;
use std::thread::{self, Threads};
use tcc_base::Workers;

/// Judges a history whose records weren't read yet.
fn judge_one<R: Read + Drop>(
    rt: &(impl Threads + Sync),
    alloc: Global,
    history: &mut History<R>,
    asked: &BatchOptions,
)
    ensures { IsJudgedAs asked.now R.remaining history.old history.new }
{
    if let Some(reader) = history.records.take() {
        history.report.finding = judge(rt, alloc, reader, asked);
    }
}

/// Judges the histories whose records weren't read yet, by at most `workers` threads, each in the same way whatever their number is.
pub fn judge_each<R: Read + Drop + Send>(
    rt: &(impl Threads + Sync),
    alloc: Global,
    histories: &mut [History<R>],
    asked: &BatchOptions,
    workers: Workers,
)
    ensures { (at : ℕ) (d : History R) → at < length histories.old
        → IsJudgedAs asked.now R.remaining (slice_index_or histories.old at d) (slice_index_or histories.new at d) }
{
    thread::for_each_mut(
        rt,
        histories,
        workers.count() as usize,
        &|_at: usize, history: &mut History<R>|
            ensures { IsJudgedAs asked.entry.now R.remaining history.entry.now history.exit.now }
        { judge_one(rt, alloc, history, asked) },
    );
}
