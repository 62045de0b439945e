//! Histories by their names, and the worst of them.
ghost use Rattle.std.specs.Prelude.{◌≡◌, map};
ghost use Rattle.tcc_batch.specs.Reports.{is_anomaly, is_consistent, is_unjudged, worst_code};

use crate::finding::Finding;
use tcc_print::Status;

/// The name of a history, and what is said of it.
#[derive(Drop)]
pub struct Report {
    pub name: String,
    pub finding: Finding,
}

impl Report {
    /// Whether a run for this history alone ends with status 0.
    pub fn is_consistent(&self) -> bool
        ensures { result ≡ is_consistent self.now }
    {
        self.finding.code() == 0
    }

    /// Whether it is one with an anomaly.
    pub fn is_anomaly(&self) -> bool
        ensures { result ≡ is_anomaly self.now }
    {
        self.finding.code() == Status::Anomaly.code()
    }

    /// Whether the history wasn't judged, or not to the end.
    pub fn is_unjudged(&self) -> bool
        ensures { result ≡ is_unjudged self.now }
    {
        self.finding.code() > Status::Anomaly.code()
    }
}

/// A history: its records as long as they aren't judged, and what is said of it.
#[derive(Drop)]
pub struct History<R> {
    pub records: Option<R>,
    pub report: Report,
}

/// The greatest of the codes; 0 where there are no histories.
pub fn worst_code<R>(histories: &[History<R>]) -> u8
    ensures { result ≡ worst_code (map (λ history. history.report) histories.now) }
{
    let mut worst = 0;
    for history in histories {
        worst = history.report.finding.code().max(worst);
    }
    worst
}
