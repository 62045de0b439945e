//! The limits of an input, each in one place.
ghost use Rattle.std.specs.Prelude.{◌≡◌};
ghost use Rattle.tcc_txn.specs.declared.limits.Limits.TheVariants.{Small, Large};
ghost use Rattle.tcc_txn.specs.Limits.{most_bytes, most_keys, most_of, most_seals, most_sessions, most_transactions};

// For each input.

/// The bytes of a name.
pub const MAX_NAME_BYTES: usize = 32;
/// The operations of a transaction.
pub const MAX_OPERATIONS: usize = 256;

// The small limits.

/// The sessions of an input or a snapshot.
pub const MAX_SESSIONS: usize = 64;
/// The transactions of an input or a snapshot, aborted ones among them.
pub const MAX_TRANSACTIONS: usize = 4095;
/// The transactions of a history: those of a snapshot and the initial one.
pub const MAX_COUNT: usize = MAX_TRANSACTIONS + 1;
/// The keys of an input.
pub const MAX_KEYS: usize = 1024;
/// The seals of an input.
pub const MAX_SEALS: usize = 256;
/// The bytes of an input.
pub const MAX_INPUT_BYTES: u64 = 134_217_728;

// The large limits.

/// The sessions of a large input or snapshot.
pub const LARGE_SESSIONS: usize = 65_535;
/// The transactions of a large input or snapshot, aborted ones among them.
pub const LARGE_TRANSACTIONS: usize = 16_777_215;
/// The transactions of a large history: those of a snapshot and the initial one.
pub const LARGE_COUNT: usize = LARGE_TRANSACTIONS + 1;
/// The keys of a large input.
pub const LARGE_KEYS: usize = 16_777_216;
/// The seals of a large input: an answer a second for twelve days.
pub const LARGE_SEALS: usize = 1_048_576;
/// The bytes of a large input.
pub const LARGE_INPUT_BYTES: u64 = 17_179_869_184;

/// The limits that an input or a snapshot keeps. Those on names and operations are the same in both.
#[derive(Clone, Copy, Debug, PartialEq, Eq)]
pub enum Limits {
    /// `MAX_SESSIONS`, `MAX_TRANSACTIONS`, `MAX_KEYS`, `MAX_SEALS` and `MAX_INPUT_BYTES`.
    Small,
    /// `LARGE_SESSIONS`, `LARGE_TRANSACTIONS`, `LARGE_KEYS`, `LARGE_SEALS` and `LARGE_INPUT_BYTES`.
    Large,
}

impl Limits {
    /// One value for the small limits, and another for the large ones.
    fn most_of(self, small: usize, large: usize) -> usize
        ensures { result ≡ most_of small large self }
    {
        match self {
            Limits::Small => small,
            Limits::Large => large,
        }
    }

    /// The most sessions.
    pub fn sessions(self) -> usize
        ensures { result ≡ most_sessions self }
    {
        self.most_of(MAX_SESSIONS, LARGE_SESSIONS)
    }

    /// The most transactions, aborted ones among them.
    pub fn transactions(self) -> usize
        ensures { result ≡ most_transactions self }
    {
        self.most_of(MAX_TRANSACTIONS, LARGE_TRANSACTIONS)
    }

    /// The most keys.
    pub fn keys(self) -> usize
        ensures { result ≡ most_keys self }
    {
        self.most_of(MAX_KEYS, LARGE_KEYS)
    }

    /// The most seals.
    pub fn seals(self) -> usize
        ensures { result ≡ most_seals self }
    {
        self.most_of(MAX_SEALS, LARGE_SEALS)
    }

    /// The most bytes.
    pub fn bytes(self) -> u64
        ensures { result ≡ most_bytes self }
    {
        match self {
            Limits::Small => MAX_INPUT_BYTES,
            Limits::Large => LARGE_INPUT_BYTES,
        }
    }
}

/// A type that names limits. By it the type of a snapshot says which limits it keeps.
pub trait Bounds {
    ghost use Rattle.tcc_txn.specs.declared.limits.Limits.{Limits};

    ghost limits: { Limits };

    /// The limits that the type names.
    fn limits() -> Limits
        ensures { result ≡ limits };
}

/// The type of `Limits::Small`.
pub struct SmallLimits;

impl Bounds for SmallLimits {
    ghost limits = { Small };

    fn limits() -> Limits {
        Limits::Small
    }
}

/// The type of `Limits::Large`.
pub struct LargeLimits;

impl Bounds for LargeLimits {
    ghost limits = { Large };

    fn limits() -> Limits {
        Limits::Large
    }
}
