//! Whether one snapshot continues another.
ghost use Rattle.std.specs.Prelude.{◌≡◌, true, false, MatchResult};
ghost use Rattle.tcc_txn.specs.Nested.{IsFirstCut, IsNested, IsPrefix, list_of};

use crate::agreement::found;
use tcc_txn::{Name, Snapshot, Txn, are_same};

/// Whether the list begins with these transactions.
fn begins_with(all: &[Txn], front: &[Txn]) -> bool
    ensures yes { result ≡ true → IsPrefix front.now all.now }
    ensures no { result ≡ false → IsPrefix front.now all.now → ⊥ }
{
    front.len() <= all.len() && are_same(front, &all[..front.len()])
}

/// What the session has in the snapshot, or nothing if there is no such session.
fn list_of<'a>(snapshot: &'a Snapshot, session: &Name) -> &'a [Txn]
    ensures { result.now ≡ list_of snapshot.now session.now }
{
    match found(snapshot, session) {
        Some(txns) => txns,
        None => &[],
    }
}

/// Whether every list of the first snapshot is a prefix of the list of that session in the second. Otherwise it returns the
/// least session, in byte order of the names, for which it isn't. A session that isn't in the second has an empty list there.
/// It is for those who take snapshots at several moments, and want to know that each continues the one before.
pub fn nested<'a>(earlier: &'a Snapshot, later: &Snapshot) -> Result<(), &'a Name>
    ensures { MatchResult result (λ _. IsNested earlier.now later.now) (λ name. IsFirstCut earlier.now later.now name.now) }
{
    for i in 0..earlier.sessions() {
        let Some((name, txns)) = earlier.session(i) else {
            unreachable!()
        };
        if !begins_with(list_of(later, name), txns) {
            return Err(name);
        }
    }
    Ok(())
}
