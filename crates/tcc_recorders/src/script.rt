//! What the clients do, round by round.

use crate::store::Replica;

/// An access of a transaction.
#[derive(Clone, Copy)]
pub enum Access {
    /// It reads the key.
    Get {
        key: &'static str,
    },
    /// It writes the value at the key, which reaches the far replica `late` rounds later than the near one.
    Put {
        key: &'static str,
        value: u64,
        late: u32,
    },
}

/// A transaction, and the round in which it is done.
#[derive(Clone, Copy)]
pub struct PlannedTxn {
    pub round: u32,
    pub accesses: &'static [Access],
}

/// A client: the name of its session, the replica that it reads at, and its transactions.
#[derive(Clone, Copy)]
pub struct Role {
    pub session: &'static str,
    pub replica: Replica,
    pub turns: &'static [PlannedTxn],
}

/// After this round there is an answer for what was recorded so far.
pub const SEALED: u32 = 3;

/// How many rounds there are.
pub const ROUNDS: u32 = 5;

const SEE_BOTH: &[Access] = &[Access::Get { key: "comment" }, Access::Get { key: "photo" }];

/// Alice puts up a photo, and Bob, who sees it, a comment. Dave reads both where they were written. Carol reads at the
/// far replica, which the comment reaches in round 4, and the photo, which is larger, in round 5.
pub const ROLES: [Role; 4] = [
    Role {
        session: "alice",
        replica: Replica::Near,
        turns: &[PlannedTxn {
            round: 1,
            accesses: &[Access::Put {
                key: "photo",
                value: 1,
                late: 3,
            }],
        }],
    },
    Role {
        session: "bob",
        replica: Replica::Near,
        turns: &[PlannedTxn {
            round: 2,
            accesses: &[
                Access::Get { key: "photo" },
                Access::Put {
                    key: "comment",
                    value: 1,
                    late: 1,
                },
            ],
        }],
    },
    Role {
        session: "carol",
        replica: Replica::Far,
        turns: &[
            PlannedTxn {
                round: 3,
                accesses: SEE_BOTH,
            },
            PlannedTxn {
                round: 4,
                accesses: SEE_BOTH,
            },
            PlannedTxn {
                round: 5,
                accesses: SEE_BOTH,
            },
        ],
    },
    Role {
        session: "dave",
        replica: Replica::Near,
        turns: &[PlannedTxn {
            round: 3,
            accesses: SEE_BOTH,
        }],
    },
];
