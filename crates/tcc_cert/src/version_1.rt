//! The ranges of version 1 of the certificate's text. They belong to the format: whatever the limits of a history become, a
//! text of version 1 is one within these.

/// The greatest count of transactions, of links, or of the steps of a walk. The least is 1.
pub const V1_MAX_COUNT: u32 = 1024;

/// The greatest count of sessions.
pub const V1_MAX_SESSIONS: u32 = 64;

/// The greatest index of a transaction, and the greatest place in a clock.
pub const V1_MAX_NUMBER: u32 = 1023;

/// The greatest cost of a cycle, and the greatest number in its tables.
pub const V1_MAX_COST: u32 = 1_049_600;

/// The most bytes of a line, without its line feed.
pub const V1_MAX_LINE_BYTES: usize = 8191;
