//! Whether a copy of the book has exactly what the passes recorded.
ghost use Rattle.std.specs.Prelude.{◌≡◌, true, false, option_map, Some};
ghost use Rattle.std.specs.FinMap.{get};
ghost use Rattle.std.specs.List.{list_any};
ghost use Rattle.tcc_txn.specs.Bytes.{same};
ghost use Rattle.tcc_book.specs.Passes.{Agrees, LeastTorn, first_missing, has_pass};
ghost use Rattle.tcc_book.specs.private.{Copies.IsSealedCopy, Copies.IsWholeCopy, Lesser.lesser};

use crate::fault::{SealFault, WholeFault};
use crate::pass::Pass;
use tcc_txn::{Name, Snapshot, Txn, are_same};

/// What the session has in the snapshot.
pub(crate) fn found<'a>(copy: &'a Snapshot, session: &Name) -> Option<&'a [Txn]>
    ensures { option_map (λ txns. txns.now) result ≡ get copy.now session.now }
{
    for i in 0..copy.sessions() {
        let Some((name, txns)) = copy.session(i) else {
            return None;
        };
        if *name == *session {
            return Some(txns);
        }
    }
    None
}

/// Whether the snapshot has exactly what the pass recorded.
fn agrees(copy: &Snapshot, pass: &Pass) -> bool
    ensures yes { result ≡ true → Agrees copy.now pass.now }
    ensures no { result ≡ false → Agrees copy.now pass.now → ⊥ }
{
    match found(copy, pass.session()) {
        Some(txns) => are_same(txns, pass.recorded()),
        None => false,
    }
}

/// Whether one of the passes is the session's.
fn has_pass(passes: &[Pass], session: &Name) -> bool
    ensures { result ≡ has_pass passes.now session.now }
{
    passes.iter().any(|pass| *session == *pass.session())
}

/// The first session of the snapshot that has no pass.
fn missing(copy: &Snapshot, passes: &[Pass]) -> Option<Name>
    ensures { result ≡ first_missing copy.now passes.now }
{
    for i in 0..copy.sessions() {
        let Some((name, _)) = copy.session(i) else {
            return None;
        };
        if !has_pass(passes, name) {
            return Some(*name);
        }
    }
    None
}

/// The lesser of the names, or the only one.
fn lesser(least: Option<Name>, name: &Name) -> Name
    ensures { result ≡ lesser least name.now }
{
    match least {
        Some(least) if least < *name => least,
        _ => *name,
    }
}

/// The least name of a pass with which the snapshot does not agree.
fn least_torn(copy: &Snapshot, passes: &[Pass]) -> Option<Name>
    ensures { LeastTorn copy.now passes.now result }
{
    let mut least: Option<Name> = None;
    for pass in passes {
        if !agrees(copy, pass) {
            least = Some(lesser(least, pass.session()));
        }
    }
    least
}

/// The copy of the book, if it has exactly what the pass recorded.
pub(crate) fn sealed_copy(copy: Snapshot, pass: &Pass) -> Result<Snapshot, SealFault>
    ensures { IsSealedCopy copy pass.now result }
{
    if !agrees(&copy, pass) {
        return Err(SealFault::Torn {
            session: *pass.session(),
        });
    }
    Ok(copy)
}

/// The copy of the book, if it is exactly what the passes recorded.
pub(crate) fn whole_copy(copy: Snapshot, passes: &[Pass]) -> Result<Snapshot, WholeFault>
    ensures { IsWholeCopy copy passes.now result }
{
    if let Some(session) = missing(&copy, passes) {
        return Err(WholeFault::MissingPass { session });
    }
    if let Some(session) = least_torn(&copy, passes) {
        return Err(WholeFault::Torn { session });
    }
    Ok(copy)
}
