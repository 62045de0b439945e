//! What certificates are made of: lists of numbers, of rows and of links.
use tcc_graph::Link;
use tcc_txn::ListOf;

/// Numbers in order.
pub type Numbers = ListOf<u32>;

/// Rows of numbers, of whatever lengths.
pub type Table = ListOf<Numbers>;

/// Links in order. The contracts about cycles say that each begins where the one before it ends.
pub type Links = ListOf<Link>;
