//! The tables of a claim, whose rows come one at a time.
ghost use Rattle.std.specs.Prelude.{◌≡◌, ◌+◌, ℕ};
ghost use Rattle.tcc_cert.specs.Shapes.{columns_in, height, most_in, part_of, word_before};

use crate::ranges::ranges_of;
use crate::{Numbers, Part, Version};

/// Which table, and how long it is.
#[derive(Clone, Copy)]
pub(crate) enum TableShape {
    /// A row for each transaction, with a number for each session.
    Clocks { transactions: u32, sessions: u32 },
    /// A row for each transaction, with a number for each.
    Near { transactions: u32 },
    /// A row for each transaction, with a number for each from the lowest of the row on.
    Far { transactions: u32 },
}

impl TableShape {
    /// The word of the line before its rows.
    pub(crate) fn word(self) -> &'static [u8]
        ensures { result.now ≡ word_before self }
    {
        match self {
            TableShape::Clocks { .. } => b"clocks",
            TableShape::Near { .. } => b"near",
            TableShape::Far { .. } => b"far",
        }
    }

    /// How many rows it has.
    pub(crate) fn height(self) -> u32
        ensures { result ≡ height self }
    {
        match self {
            TableShape::Clocks { transactions, .. } => transactions,
            TableShape::Near { transactions } | TableShape::Far { transactions } => transactions,
        }
    }

    /// How many numbers the next row has where `left` rows are left.
    pub(crate) fn columns(self, version: Version, left: u32) -> u32
        ensures { (from : ℕ) → from + left ≡ height self → result ≡ columns_in version self from }
    {
        match (self, version) {
            (TableShape::Clocks { sessions, .. }, _) => sessions,
            (TableShape::Near { transactions }, _) => transactions,
            (TableShape::Far { transactions }, Version::One) => transactions,
            (TableShape::Far { .. }, Version::Two) => left,
        }
    }

    /// The greatest number that may be in it.
    pub(crate) fn most(self, version: Version) -> u32
        ensures { result ≡ most_in version self }
    {
        match self {
            TableShape::Clocks { .. } => ranges_of(version).number,
            TableShape::Near { .. } | TableShape::Far { .. } => ranges_of(version).cost,
        }
    }

    /// A row of it as a part of the text.
    pub(crate) fn part(self, row: Numbers) -> Part
        ensures { result ≡ part_of self row }
    {
        match self {
            TableShape::Clocks { .. } => Part::Clocks(row),
            TableShape::Near { .. } => Part::Near(row),
            TableShape::Far { .. } => Part::Far(row),
        }
    }
}
