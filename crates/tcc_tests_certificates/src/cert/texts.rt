//! Certificates of worked histories, and texts altered in a line.
use std::alloc::{AllocError, Global};

pub const NO_TRANSACTIONS: &str = "tcc-certificate 1\norder 1 0\n0\nclocks\n\nend\n";

pub const STALE_READ: &str = "tcc-certificate 1\ncycle 3 2 3\nS 0 1\nD 1 0 x 2 1\nS 1 2\n\
    near\n3 1 1\n3 3 1\n3 3 3\nfar\n3 1 1\n2 3 1\n3 3 3\nend\n";

pub const STALE_READ_UPWARD: &str =
    "tcc-certificate 2 causal\ncycle 3 2 3\nS 0 1\nD 1 0 x 2 1\nS 1 2\n\
    near\n3 1 1\n3 3 1\n3 3 3\nfar\n3 1 1\n3 1\n3\nend\n";

pub const TWO_READS: &str = "tcc-certificate 1\ncycle 3 2 2\nR 1 2 x\nR 2 1 y\n\
    near\n2 1 1\n2 2 1\n2 1 2\nfar\n2 1 1\n2 2 1\n2 1 2\nend\n";

pub const TWO_WRITES: &str =
    "tcc-certificate 1\ncycle 4 2 4\nD 1 2 x 3 1\nR 1 3 x\nD 2 1 x 3 1\nR 2 3 x\n\
    near\n4 1 1 1\n4 4 4 1\n4 4 4 1\n4 4 4 4\nfar\n4 1 1 1\n4 4 2 1\n4 2 4 1\n4 4 4 4\nend\n";

pub const TWO_WRITES_UPWARD: &str =
    "tcc-certificate 2 atomic\ncycle 4 2 4\nD 1 2 x 3 1\nR 1 3 x\nD 2 1 x 3 1\nR 2 3 x\n\
    near\n4 1 1 1\n4 4 4 1\n4 4 4 1\n4 4 4 4\nfar\n4 1 1 1\n4 2 1\n4 1\n4\nend\n";

pub const NO_CLOCKS: &str = "tcc-certificate 1 atomic\norder 4 2\n0 1 2 3\nend\n";

pub const NO_CLOCKS_UPWARD: &str = "tcc-certificate 2 atomic\norder 4 2\n0 1 2 3\nend\n";

pub const ONE_SESSION_UPWARD: &str =
    "tcc-certificate 2 causal\norder 3 1\n0 1 2\nclocks\n0\n0\n1\nend\n";

pub const LONG_FORK: &str = "tcc-certificate 1\norder 5 4\n0 1 2 3 4\nclocks\n\
    0 0 0 0\n0 0 0 0\n0 0 0 0\n1 0 0 0\n0 1 0 0\nend\n";

pub const ONE_SESSION: &str = "tcc-certificate 1\norder 3 1\n0 1 2\nclocks\n0\n0\n1\nend\n";

pub const ONE_TRANSACTION: &str = "tcc-certificate 1\norder 2 1\n0 1\nclocks\n0\n0\nend\n";

/// All of them.
pub const TEXTS: [&str; 12] = [
    NO_TRANSACTIONS,
    STALE_READ,
    TWO_READS,
    TWO_WRITES,
    LONG_FORK,
    ONE_SESSION,
    ONE_TRANSACTION,
    STALE_READ_UPWARD,
    TWO_WRITES_UPWARD,
    NO_CLOCKS,
    NO_CLOCKS_UPWARD,
    ONE_SESSION_UPWARD,
];

/// A text with another line in place of one, counted from 1.
pub fn altered(alloc: Global, text: &str, line: usize, other: &str) -> Result<Vec<u8>, AllocError> {
    let mut changed = Vec::new(alloc);
    for (index, old) in text.lines().enumerate() {
        let new = if index + 1 == line { other } else { old };
        changed.extend_from_slice(new.as_bytes())?;
        changed.push(b'\n')?;
    }
    Ok(changed)
}
