//! Whether version 3 of the text of certificates has room for the runs of an order.
ghost use Rattle.std.specs.Prelude.{◌↔◌, IsTrue};
ghost use Rattle.tcc_cert.specs.LargeTexts.{HasRunText, HaveRunsText};

use tcc_cert::Run;
use tcc_cert::version_3::{V3_MAX_NUMBER, V3_MAX_RUNS, V3_MAX_SESSION};

/// Whether there is room for a run.
fn has_run_text(run: &Run) -> bool
    ensures { IsTrue result ↔ HasRunText run.now }
{
    run.session <= V3_MAX_SESSION && run.count >= 1 && run.count <= V3_MAX_NUMBER
}

/// Whether there is room for the runs of an order.
pub(crate) fn have_runs_text(runs: &[Run]) -> bool
    ensures { IsTrue result ↔ HaveRunsText runs.now }
{
    runs.len() <= V3_MAX_RUNS as usize && runs.iter().all(|run| has_run_text(run))
}
