//! What a contradicted read is usually called.
ghost use Rattle.std.specs.Prelude.{◌≡◌};
ghost use Rattle.tcc_survey.specs.Names.{rank};

/// By what the reader should have known of the writer that contradicts its read.
#[derive(Clone, Copy, PartialEq, Eq)]
pub enum UsualName {
    /// The reader's own session wrote it before.
    ReadYourWrites,
    /// The reader read another value of the writer.
    FracturedRead,
    /// The reader's session read it before.
    MonotonicReads,
    /// The reader, or its session before, read a value of a later transaction of the writer's session.
    MonotonicWrites,
    /// The reader, or its session before, read a value of a transaction that had read it, or of a later one of its session.
    WritesFollowReads,
    /// It is known by a longer chain of sessions and reads.
    CausalChain,
}

/// The usual names, in the order in which the first that fits is taken.
pub const NAMES: [UsualName; 6] = [
    UsualName::ReadYourWrites,
    UsualName::FracturedRead,
    UsualName::MonotonicReads,
    UsualName::MonotonicWrites,
    UsualName::WritesFollowReads,
    UsualName::CausalChain,
];

impl UsualName {
    /// The index of the name among the names.
    pub fn rank(self) -> u32
        ensures { result ≡ rank self }
    {
        match self {
            UsualName::ReadYourWrites => 0,
            UsualName::FracturedRead => 1,
            UsualName::MonotonicReads => 2,
            UsualName::MonotonicWrites => 3,
            UsualName::WritesFollowReads => 4,
            UsualName::CausalChain => 5,
        }
    }
}
