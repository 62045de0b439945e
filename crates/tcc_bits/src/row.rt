//! Rows of tables.
use tcc_txn::ListOf;

/// A thread computes at least this many rows of a table. For fewer none is started, since its stack takes more than they do.
pub const ROWS_A_THREAD: usize = 128;

/// One row of a table: a table of rows is a list of lists.
pub type Row<T> = ListOf<T>;
