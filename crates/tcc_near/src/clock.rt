//! Vector clocks: how much of each session reaches each transaction.
ghost use Rattle.std.specs.Prelude.{◌≡◌, ◌<◌, length, slice_index};
ghost use Rattle.tcc_graph.specs.Tables.{row_of};

use std::marker::Model;
use tcc_bits::Row;

/// For each transaction of a graph and each session, the last place from which the transaction is reached.
#[derive(Drop)]
pub struct Clocks {
    rows: Vec<Row<u32>>,
}

impl Model for Clocks {
    ghost use Rattle.std.specs.Prelude.{ℕ, List};

    ghost Value = { List (List ℕ) };

    ghost view = { λ c. c.rows.items };
}

impl Clocks {
    /// The clocks with these rows.
    pub(crate) fn new(rows: Vec<Row<u32>>) -> Clocks
        ensures { result ≡ rows.items }
    {
        Clocks { rows }
    }

    /// The greatest place of a transaction of the session from which `t` is reached, 0 for none.
    pub fn last(&self, t: u32, session: u32) -> u32
        requires transaction { t < length self.now }
        requires session { session < length (row_of self.now t) }
        ensures { result ≡ slice_index (row_of self.now t) session }
    {
        self.row(t)[session as usize]
    }

    /// The last place of each session that reaches `t`.
    pub fn row(&self, t: u32) -> &[u32]
        requires { t < length self.now }
        ensures { result.now ≡ row_of self.now t }
    {
        self.rows[t as usize].as_slice()
    }
}
