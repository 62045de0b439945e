//! What each version of the certificate's text allows.
ghost use Rattle.std.specs.Prelude.{◌≡◌, ◌≤◌};
ghost use Rattle.tcc_cert.specs.{declared.version_2.TheConstants.V2_MAX_LINE_BYTES, Ranges.ranges_at, Ranges.ranges_of};

use crate::Version;
use crate::version_1::{
    V1_MAX_COST, V1_MAX_COUNT, V1_MAX_LINE_BYTES, V1_MAX_NUMBER, V1_MAX_SESSIONS,
};
use crate::version_2::{
    V2_MAX_COST, V2_MAX_COUNT, V2_MAX_LINE_BYTES, V2_MAX_NUMBER, V2_MAX_SESSIONS,
};
use crate::version_3::{
    V3_MAX_COST, V3_MAX_COUNT, V3_MAX_LINE_BYTES, V3_MAX_NUMBER, V3_MAX_SESSIONS,
};

/// The most bytes of the first line, which says the version, without its line feed.
pub(crate) const MAX_HEADER_BYTES: usize = 8191;

/// The greatest count, index of a transaction, number of sessions and cost, and the most bytes of a line after the first.
#[derive(Clone, Copy)]
pub(crate) struct Ranges {
    pub(crate) count: u32,
    pub(crate) number: u32,
    pub(crate) sessions: u32,
    pub(crate) cost: u32,
    pub(crate) line_bytes: usize,
}

/// The ranges of a version.
pub(crate) fn ranges_of(version: Version) -> Ranges
    ensures value { result ≡ ranges_of version }
    ensures lines { result.line_bytes ≤ V2_MAX_LINE_BYTES }
{
    match version {
        Version::One => Ranges {
            count: V1_MAX_COUNT,
            number: V1_MAX_NUMBER,
            sessions: V1_MAX_SESSIONS,
            cost: V1_MAX_COST,
            line_bytes: V1_MAX_LINE_BYTES,
        },
        Version::Two => Ranges {
            count: V2_MAX_COUNT,
            number: V2_MAX_NUMBER,
            sessions: V2_MAX_SESSIONS,
            cost: V2_MAX_COST,
            line_bytes: V2_MAX_LINE_BYTES,
        },
    }
}

/// How large the numbers of a text may be.
#[derive(Clone, Copy)]
pub enum TextFormat {
    /// As a version with tables has them.
    Small(Version),
    /// As version 3 has them.
    Large,
}

/// The ranges of a text.
pub(crate) fn ranges_at(scale: TextFormat) -> Ranges
    ensures value { result ≡ ranges_at scale }
    ensures lines { result.line_bytes ≤ V2_MAX_LINE_BYTES }
{
    match scale {
        TextFormat::Small(version) => ranges_of(version),
        TextFormat::Large => Ranges {
            count: V3_MAX_COUNT,
            number: V3_MAX_NUMBER,
            sessions: V3_MAX_SESSIONS,
            cost: V3_MAX_COST,
            line_bytes: V3_MAX_LINE_BYTES,
        },
    }
}
