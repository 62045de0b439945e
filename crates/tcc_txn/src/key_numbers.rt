//! The keys of a snapshot's operations, each by its number in a symbol table. Packed operations have it. The others cost a
//! look-up each.
ghost use Rattle.std.specs.Prelude.{◌≡◌, ◌++◌, ◌∷◌, [], List, ℕ, IfOk, OnOk, map};
ghost use Rattle.tcc_txn.specs.{KeyNumbers.AreNumbers, KeyNumbers.keys_in, KeyNumbers.keys_of, Snapshots.parts_of, Transactions.op_key};

use crate::{Name, NoMemory, Op, SymbolTable, Txn};
use std::alloc::Global;

/// The keys of operations.
#[derive(Drop)]
pub struct KeyNumbers {
    /// The names of the keys, each at its number.
    pub names: Vec<Name>,
    /// The number of the key of each operation, in order.
    pub numbers: Vec<u32>,
}

/// Adds the number of a key.
fn number_key(keys: &mut SymbolTable, numbers: &mut Vec<u32>, key: Name) -> Result<(), NoMemory>
    ensures { OnOk result ((done : List (List ℕ)) → AreNumbers keys.old numbers.old.items done
        → AreNumbers keys.new numbers.new.items (done ++ key ∷ [])) }
{
    let number = keys.number(key)?;
    numbers.push(number)?;
    Ok(())
}

/// Adds the numbers of the keys of some operations.
fn number_ops(keys: &mut SymbolTable, numbers: &mut Vec<u32>, ops: &[Op]) -> Result<(), NoMemory>
    ensures { OnOk result ((done : List (List ℕ)) → AreNumbers keys.old numbers.old.items done
        → AreNumbers keys.new numbers.new.items (done ++ map op_key ops.now)) }
{
    for op in ops {
        number_key(keys, numbers, op.key())?;
    }
    Ok(())
}

/// Adds the numbers of the keys of some transactions.
fn number_txns(keys: &mut SymbolTable, numbers: &mut Vec<u32>, txns: &[Txn]) -> Result<(), NoMemory>
    ensures { OnOk result ((done : List (List ℕ)) → AreNumbers keys.old numbers.old.items done
        → AreNumbers keys.new numbers.new.items (done ++ keys_of txns.now)) }
{
    for txn in txns {
        number_ops(keys, numbers, txn.ops())?;
    }
    Ok(())
}

/// The numbers of the keys of the operations of sessions.
fn number_parts(
    keys: &mut SymbolTable,
    alloc: Global,
    parts: &[(Name, Vec<Txn>)],
) -> Result<Vec<u32>, NoMemory>
    ensures { IfOk result (λ numbers. AreNumbers keys.new numbers.items (keys_in (parts_of parts.now))) }
{
    let mut numbers = Vec::new(alloc);
    for part in parts {
        number_txns(keys, &mut numbers, &part.1)?;
    }
    Ok(numbers)
}

/// The keys of the operations of sessions, by the numbers of a symbol table.
pub(crate) fn numbered(alloc: Global, parts: &[(Name, Vec<Txn>)]) -> Result<KeyNumbers, NoMemory>
    ensures { IfOk result (λ keys. AreNumbers keys.names.items keys.numbers.items (keys_in (parts_of parts.now))) }
{
    let mut keys = SymbolTable::new(alloc);
    let numbers = number_parts(&mut keys, alloc, parts)?;
    Ok(KeyNumbers {
        names: keys.into_names(),
        numbers,
    })
}
