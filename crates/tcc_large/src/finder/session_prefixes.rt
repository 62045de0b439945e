//! Which transactions of each session a search backwards has taken in: a prefix of the session, since all earlier ones come before. So each
//! is returned once in a search, and the next search needs no preparation.
use crate::cells::Cells;
use crate::finder::pairs::PairSpans;
use std::alloc::Global;
use tcc_txn::NoMemory;

/// For each session the number below which all were taken in; it serves many searches, each with a turn of its own.
#[derive(Drop)]
pub(crate) struct SessionPrefixes {
    turns: Cells,
    ends: Cells,
}

impl SessionPrefixes {
    /// For this many sessions, before the first search.
    pub(crate) fn new(alloc: Global, sessions: usize) -> Result<SessionPrefixes, NoMemory> {
        Ok(SessionPrefixes {
            turns: Cells::new(alloc, sessions, 0)?,
            ends: Cells::new(alloc, sessions, 0)?,
        })
    }

    /// The number from which on those before this one in its session weren't taken in yet; they count as taken in from now on.
    pub(crate) fn take(&mut self, pairs: &PairSpans<'_>, number: u32, turn: u32) -> u32 {
        let owner = pairs.owner(number);
        let mut low = pairs.first(owner);
        if self.turns.get(owner) == turn {
            low = low.max(self.ends.get(owner));
        }
        if low < number {
            self.turns.set(owner, turn);
            self.ends.set(owner, number);
        }
        low
    }
}
