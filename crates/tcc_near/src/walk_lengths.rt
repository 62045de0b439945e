//! The least number of steps of a walk from each transaction to each.
ghost use Rattle.std.specs.Prelude.{◌≡◌, ◌<◌, length};
ghost use Rattle.tcc_near.specs.WalkLengths.{IsSquare, least};
ghost use Rattle.tcc_graph.specs.Tables.{row_of};

use std::marker::Model;
use tcc_bits::Row;
use tcc_graph::Level;

/// What a table holds in place of a number: no walk leads there, or no link.
pub const NONE: u16 = u16::MAX;

/// The least number of steps of a walk that a level allows, from each transaction of a graph to each, itself among them.
#[derive(Drop)]
pub struct Near {
    level: Level,
    rows: Vec<Row<u16>>,
}

impl Model for Near {
    ghost use Rattle.std.specs.Prelude.{length};
    ghost use Rattle.tcc_near.specs.WalkLengths.{IsSquare, NearTable};

    ghost Value = { NearTable };

    ghost view = { λ n. record { level = n.level; rows = n.rows.items } };

    ghost invariant = { λ n. IsSquare (length n.rows.items) n.rows.items };
}

impl Near {
    /// The table of a level with these rows.
    pub(crate) fn new(level: Level, rows: Vec<Row<u16>>) -> Near
        requires { IsSquare (length rows.items) rows.items }
        ensures { result ≡ record { level = level; rows = rows.items } }
    {
        Near { level, rows }
    }

    /// The level that allows the walks.
    pub fn level(&self) -> Level
        ensures { result ≡ self.now.level }
    {
        self.level
    }

    /// The least number of steps of a walk from `a` to `b`, at least one; none if no walk leads there. It is for a single
    /// length: whoever goes through many takes `row`.
    pub fn least(&self, a: u32, b: u32) -> Option<u32>
        requires from { a < length self.now.rows }
        requires to { b < length self.now.rows }
        ensures { result ≡ least self.now.rows a b }
    {
        let steps = self.row(a)[b as usize];
        if steps == NONE {
            None
        } else {
            Some(steps as u32)
        }
    }

    /// The least number of steps from `a` to each transaction, `NONE` if no walk leads there.
    pub fn row(&self, a: u32) -> &[u16]
        requires { a < length self.now.rows }
        ensures value { result.now ≡ row_of self.now.rows a }
        ensures long { length result.now ≡ length self.now.rows }
    {
        self.rows[a as usize].as_slice()
    }

    /// The rows by value, for callers that keep them in another form.
    pub fn into_rows(self) -> Vec<Row<u16>>
        ensures { result.items ≡ self.rows }
    {
        self.rows
    }
}
