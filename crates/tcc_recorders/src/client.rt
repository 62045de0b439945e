//! Clients, who are the recorders of their own sessions.
ghost use Rattle.std.specs.Prelude.{◌≡◌, ◌++◌, ◌∷◌, [], OnOk};

use crate::halt::PlayError;
use crate::script::{Access, Role};
use crate::store::Store;
use std::alloc::Global;
use std::sync::Wait;
use tcc_book::{Book, Pass, Receipt, RecordFault};
use tcc_txn::{Name, Op, Txn};

/// A client with the pass of its session.
#[derive(Drop)]
pub struct Client {
    pub pass: Pass,
    role: Role,
    /// The last transaction that was refused for memory, and recorded again.
    pub again: Option<Receipt>,
}

/// Records a transaction. Where memory is refused, the transaction is returned and recorded again; the receipt is then that
/// of the second time.
fn record_again(
    rt: &impl Wait,
    alloc: Global,
    book: &Book,
    pass: &mut Pass,
    txn: Txn,
) -> Result<Option<Receipt>, PlayError>
    ensures { OnOk result (pass.new.recorded ≡ pass.old.recorded ++ txn ∷ []) }
{
    let Err((fault, txn)) = book.record(rt, alloc, pass, txn) else {
        return Ok(None);
    };
    if fault != RecordFault::NoMemory {
        return Err(PlayError::from(fault));
    }
    match book.record(rt, alloc, pass, txn) {
        Ok(receipt) => Ok(Some(receipt)),
        Err((fault, _refused)) => Err(PlayError::from(fault)),
    }
}

impl Client {
    /// A client whose session is open in the book.
    pub fn open(
        rt: &impl Wait,
        alloc: Global,
        book: &Book,
        role: Role,
    ) -> Result<Client, PlayError> {
        let session = Name::read(role.session.as_bytes())?;
        Ok(Client {
            pass: book.open(rt, alloc, session)?,
            role,
            again: None,
        })
    }

    /// What the client sees and writes.
    fn observe(
        &self,
        alloc: Global,
        store: &Store,
        round: u32,
        accesses: &[Access],
    ) -> Result<Txn, PlayError> {
        let mut ops = Vec::new(alloc);
        for access in accesses {
            let op = match access {
                Access::Get { key } => {
                    let key = Name::read(key.as_bytes())?;
                    let value = store.get(self.role.replica, &key, round);
                    Op::Get { key, value }
                }
                Access::Put { key, value, .. } => Op::Put {
                    key: Name::read(key.as_bytes())?,
                    value: *value,
                },
            };
            ops.push(op)?;
        }
        match Txn::new(ops, true) {
            Ok(txn) => Ok(txn),
            Err((fault, _ops)) => Err(PlayError::from(fault)),
        }
    }

    /// Does the client's transaction of this round, if it has one, and records it.
    pub fn take_turn(
        self,
        rt: &impl Wait,
        alloc: Global,
        book: &Book,
        store: &Store,
        round: u32,
    ) -> Result<Client, PlayError> {
        let mut client = self;
        for turn in client.role.turns {
            if turn.round == round {
                let txn = client.observe(alloc, store, round, turn.accesses)?;
                let again = record_again(rt, alloc, book, &mut client.pass, txn)?;
                client.again = again.or(client.again);
            }
        }
        Ok(client)
    }

    /// Puts what the client wrote in this round into the store, from which the replicas get it.
    pub fn deliver(&self, store: &mut Store, round: u32) -> Result<(), PlayError> {
        for turn in self.role.turns {
            for access in turn.accesses {
                if let Access::Put { key, value, late } = access {
                    if turn.round == round {
                        store.put(Name::read(key.as_bytes())?, *value, round, *late)?;
                    }
                }
            }
        }
        Ok(())
    }
}
