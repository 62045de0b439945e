//! Transactions with their positions in a snapshot.
use std::marker::Model;
use tcc_txn::{Name, Recorded};

/// The position of a transaction in a snapshot, and its number.
#[derive(Clone, Copy)]
pub(crate) struct Place {
    /// The index of its session, in byte order of the names.
    pub session: u32,
    /// How many transactions are before it in the session, aborted ones counted.
    pub before: u32,
    /// One more than the count of committed transactions before it: its number, if it was committed.
    pub number: u32,
}

/// A transaction with its position.
#[derive(Drop)]
pub(crate) struct LocatedTxn<'a> {
    /// The index of its session, in byte order of the names.
    pub session: u32,
    /// The name of its session.
    pub name: &'a Name,
    /// Its place in the session, from 1, aborted ones counted.
    pub place: u32,
    /// One more than the count of committed transactions before it: its number, if it was committed.
    pub number: u32,
    pub txn: Recorded<'a>,
}

impl<'a> Model for LocatedTxn<'a> {
    ghost use Rattle.tcc_reads.specs.private.Numbers.{Numbered, numbered_code};

    ghost Value = { Numbered };

    ghost coded = { numbered_code };

    ghost view = { λ s. record { number = s.number; stand = record { session = s.session; name = s.name.now; place = s.place; txn = s.txn } } };
}
