//! Named parts in byte order of their names: binary search for the index of a session's part.
ghost use Rattle.std.specs.Prelude.{◌≡◌, T, true, false, MatchResult};
ghost use Rattle.std.specs.Cmp.Lexicographic.{slice_cmp};
ghost use Rattle.std.specs.FinMap.Entries.{is_sorted};
ghost use Rattle.std.specs.Ordering.{nat_cmp};
ghost use Rattle.tcc_txn.specs.private.SnapshotStorage.{StandsAt, index_in};

use crate::Name;

/// How many parts are before the session.
fn index_of<X>(parts: &[(Name, X)], session: &Name) -> usize
    requires { T (is_sorted (slice_cmp nat_cmp) parts.now) }
    ensures { result ≡ index_in session.now parts.now }
{
    parts.partition_point(|part| part.0 < *session)
}

/// Whether the part at the index is the session's.
fn stands_at<X>(parts: &[(Name, X)], at: usize, session: &Name) -> bool
    ensures stands { result ≡ true → StandsAt parts.now session.now at }
    ensures not { result ≡ false → StandsAt parts.now session.now at → ⊥ }
{
    match parts.get(at) {
        Some(part) => part.0 == *session,
        None => false,
    }
}

/// The index of the session's part, or else the one that it would have.
pub(crate) fn part_of<X>(parts: &[(Name, X)], session: &Name) -> Result<usize, usize>
    requires { T (is_sorted (slice_cmp nat_cmp) parts.now) }
    ensures { MatchResult result
        (λ at. (at ≡ index_in session.now parts.now) × StandsAt parts.now session.now at)
        (λ at. (at ≡ index_in session.now parts.now) × (StandsAt parts.now session.now at → ⊥)) }
{
    let at = index_of(parts, session);
    if stands_at(parts, at, session) {
        Ok(at)
    } else {
        Err(at)
    }
}
