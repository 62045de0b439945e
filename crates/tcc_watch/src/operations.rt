//! What the operations of a transaction write. A transaction has a few hundred operations at most, so each is compared with all before it.
ghost use Rattle.std.specs.Prelude.{◌≡◌, IfOk, OnOk};
ghost use Rattle.std.specs.List.{list_any};
ghost use Rattle.tcc_txn.specs.Symbols.{is_symbol, with_symbol};
ghost use Rattle.tcc_reads.specs.Faults.{puts};
ghost use Rattle.tcc_reads.specs.Sources.{visible_write};
ghost use Rattle.tcc_watch.specs.private.Operations.{AddsKey, AreKeys};

use std::alloc::Global;
use tcc_txn::{Name, NoMemory, Op};

/// Whether an operation writes a value at a key.
fn puts(key: &Name, value: u64, op: &Op) -> bool
    ensures { result ≡ puts key.now value op.now }
{
    match op {
        Op::Put {
            key: other,
            value: written,
        } => other == key && *written == value,
        Op::Get { .. } => false,
    }
}

/// Whether one of some operations writes a value at a key.
pub(crate) fn are_putting(ops: &[Op], key: &Name, value: u64) -> bool
    ensures { result ≡ list_any (puts key.now value) ops.now }
{
    ops.iter().any(|op| puts(key, value, op))
}

/// The value that operations write visibly at a key.
pub(crate) fn visible_write(ops: &[Op], key: &Name) -> Option<u64>
    ensures { result ≡ visible_write key.now ops.now }
{
    let mut visible = None;
    for op in ops {
        if let Op::Put {
            key: written,
            value,
        } = op
        {
            if written == key {
                visible = Some(*value);
            }
        }
    }
    visible
}

/// Whether a key is among others.
fn has_key(keys: &[Name], key: Name) -> bool
    ensures { result ≡ is_symbol key keys.now }
{
    keys.iter().any(|other| key == *other)
}

/// One key more, where it isn't there.
fn add_key(keys: &mut Vec<Name>, key: Name) -> Result<(), NoMemory>
    ensures { OnOk result (keys.new.items ≡ with_symbol key keys.old.items) }
{
    if !has_key(keys, key) {
        keys.push(key)?;
    }
    Ok(())
}

/// The key that an operation writes is there too.
fn add_written(keys: &mut Vec<Name>, op: &Op) -> Result<(), NoMemory>
    ensures { OnOk result (AddsKey op.now keys.old.items keys.new.items) }
{
    match op {
        Op::Put { key, .. } => add_key(keys, *key),
        Op::Get { .. } => Ok(()),
    }
}

/// The keys that operations write, each once.
pub(crate) fn written_keys(alloc: Global, ops: &[Op]) -> Result<Vec<Name>, NoMemory>
    ensures { IfOk result (λ keys. AreKeys ops.now keys.items) }
{
    let mut keys = Vec::new(alloc);
    for op in ops {
        add_written(&mut keys, op)?;
    }
    Ok(keys)
}
