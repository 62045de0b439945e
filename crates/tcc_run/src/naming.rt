//! That the keys of a snapshot are names, whoever built it.
ghost use Rattle.std.specs.Prelude.{All};
ghost use Rattle.tcc_txn.specs.Finished.{KeepsLimits};
ghost use Rattle.tcc_explain.specs.Keys.{HasNames, NamesKey, NamesKeys};

use tcc_txn::{Op, Snapshot, Txn};

/// The key of an operation is a name.
fn names_key(op: &Op)
    ensures { NamesKey op.now }
{
    let key = op.key();
    key.bytes();
}

/// The keys of operations are names.
fn names_keys(ops: &[Op])
    ensures { All NamesKey ops.now }
{
    for op in ops {
        names_key(op);
    }
}

/// The keys of the operations of transactions are names.
fn all_name_keys(txns: &[Txn])
    ensures { All NamesKeys txns.now }
{
    for txn in txns {
        names_keys(txn.ops());
    }
}

/// A snapshot keeps the limits, and its keys are names, whoever built it. `laws::written` of `tcc_explain` requires this, so that the
/// certificate of its answer has a text, which is read as this certificate. It looks at each operation once, and changes nothing.
pub fn names(snapshot: &Snapshot)
    ensures limits { KeepsLimits snapshot.now }
    ensures names { HasNames snapshot.now }
{
    for i in 0..snapshot.sessions() {
        if let Some((_, txns)) = snapshot.session(i) {
            all_name_keys(txns);
        }
    }
}
