//! Limits for judging a claim that a cycle is least. No call here checks them.

/// At most this many transactions, among which cycles are looked for.
pub const MOST_MEMBERS: usize = 4096;
/// Cycles are looked for below at most this many steps.
pub const MOST_STEPS: u32 = 64;
/// The number of transactions from which links back are looked for, times the steps below which a cycle is, is at most this.
pub const MOST_SWEPT: usize = 262_144;
