//! The ranges of version 3 of the certificate's text. They too belong to the format.

/// The greatest count of transactions, of links, or of the steps of a walk. The least is 1.
pub const V3_MAX_COUNT: u32 = 16_777_216;

/// The greatest index of a transaction, and the most transactions of a run.
pub const V3_MAX_NUMBER: u32 = 16_777_215;

/// The greatest count of sessions.
pub const V3_MAX_SESSIONS: u32 = 65_535;

/// The greatest number of a session.
pub const V3_MAX_SESSION: u32 = 65_534;

/// The most runs of an order. The least are none.
pub const V3_MAX_RUNS: u32 = 16_777_215;

/// The greatest cost of a cycle.
pub const V3_MAX_COST: u32 = u32::MAX;

/// The most bytes of a line after the first, without its line feed.
pub const V3_MAX_LINE_BYTES: usize = 127;
