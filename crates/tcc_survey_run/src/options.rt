//! What a run of survey is asked for.
use tcc_graph::Level;

/// How a survey is wanted.
#[derive(Clone, Copy)]
pub struct SurveyOptions {
    /// The level at which reads are contradicted.
    pub level: Level,
    /// In lines of JSON.
    pub json: bool,
    /// Records are taken up to the large limits.
    pub large: bool,
}
