//! Names, transactions, records and snapshots, the recorders' book, who read from whom, and the graph.
mod book;
mod builders;
mod graph;
mod large;
mod largest;
mod nesting;
mod reads;
mod txn;
