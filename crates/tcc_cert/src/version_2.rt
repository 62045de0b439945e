//! The ranges of version 2 of the certificate's text. They too belong to the format.

/// The greatest count of transactions, of links, or of the steps of a walk. The least is 1.
pub const V2_MAX_COUNT: u32 = 4096;

/// The greatest count of sessions.
pub const V2_MAX_SESSIONS: u32 = 64;

/// The greatest index of a transaction, and the greatest place in a clock.
pub const V2_MAX_NUMBER: u32 = 4095;

/// The greatest cost of a cycle, and the greatest number in its tables.
pub const V2_MAX_COST: u32 = 16_781_312;

/// The most bytes of a line after the first, without its line feed.
pub const V2_MAX_LINE_BYTES: usize = 36_863;
