//! The words of usual names.
ghost use Rattle.std.specs.Prelude.{◌≡◌};
ghost use Rattle.tcc_survey_run.specs.Told.{name_words};

use tcc_survey::UsualName;

/// The words of a usual name.
pub(crate) fn name_words(name: UsualName) -> &'static str
    ensures { result.now ≡ name_words name }
{
    match name {
        UsualName::ReadYourWrites => "read your writes",
        UsualName::FracturedRead => "fractured read",
        UsualName::MonotonicReads => "monotonic reads",
        UsualName::MonotonicWrites => "monotonic writes",
        UsualName::WritesFollowReads => "writes follow reads",
        UsualName::CausalChain => "causal chain",
    }
}
