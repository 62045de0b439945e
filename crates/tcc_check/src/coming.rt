//! The parts of a certificate's text, one after the other.
ghost use Rattle.std.specs.Prelude.{◌≡◌, ◌⊎◌, ◌<◌, ◌↔◌, ◌++◌, ◌∷◌, ⊤, [], false, true, IfOk, OnOk, IsTrue, List, map, ℕ};
ghost use Rattle.tcc_cert.specs.Ahead.{IsAhead, is_claim, is_new, rows_left};
ghost use Rattle.tcc_cert.specs.Parts.{Parts};
ghost use Rattle.tcc_cert.specs.declared.part.Part.TheVariants as part;
ghost use Rattle.tcc_check.specs.private.Coming.{Finishes, Takes};

use std::alloc::Global;
use std::io::Read;
use tcc_cert::{CertReader, Numbers, Part, Table};
use tcc_rules::StreamFault;
use tcc_txn::NoMemory;

/// The next part.
pub(crate) fn next_part<R: Read>(
    alloc: Global,
    parts: &mut CertReader<R>,
) -> Result<Part, StreamFault>
    ensures parts { (ahead : Parts) → IsAhead R.remaining parts.old ahead → Takes R.remaining ahead parts.new result }
    ensures begins { IfOk result (λ given. is_claim given ≡ is_new parts.old) }
    ensures begun { is_new parts.new ≡ false }
    ensures left { IfOk result (λ given. (is_new parts.old ≡ true) ⊎ ((given ≡ part.End) ⊎ (rows_left parts.new < rows_left parts.old))) }
{
    let part = parts.next(alloc)?;
    Ok(part)
}

/// Whether a part is the end.
fn is_end(given: Part) -> bool
    ensures { IsTrue result ↔ (given ≡ part.End) }
{
    matches!(given, Part::End)
}

/// Reads on to the end.
fn skip_rest<R: Read>(alloc: Global, parts: &mut CertReader<R>) -> Result<(), StreamFault>
    requires { is_new parts.old ≡ false }
    ensures { (ahead : Parts) → IsAhead R.remaining parts.old ahead → Finishes ahead (λ _. ⊤) result }
{
    'parts: loop {
        if is_end(next_part(alloc, parts)?) {
            return Ok(());
        }
    }
}

/// Reads on to the end, and returns whether no other part came before it.
pub(crate) fn ends<R: Read>(alloc: Global, parts: &mut CertReader<R>) -> Result<bool, StreamFault>
    ensures { (ahead : Parts) → IsAhead R.remaining parts.old ahead → Finishes ahead (λ at_once. IsTrue at_once ↔ (ahead.parts ≡ [])) result }
{
    match next_part(alloc, parts)? {
        Part::End => Ok(true),
        _ => {
            skip_rest(alloc, parts)?;
            Ok(false)
        }
    }
}

/// Keeps the row of clocks that the part is, if it is one.
fn keep_clocks(clocks: &mut Vec<Numbers>, given: Part) -> Result<(), NoMemory>
    ensures row { OnOk result ((row : List ℕ) → given ≡ part.Clocks row → clocks.new.items ≡ clocks.old.items ++ row ∷ []) }
    ensures other { OnOk result (((row : List ℕ) → given ≡ part.Clocks row → ⊥) → clocks.new.items ≡ clocks.old.items) }
{
    if let Part::Clocks(row) = given {
        clocks.push(row)?;
    }
    Ok(())
}

/// The clocks that come up to the end.
pub(crate) fn clock_rows<R: Read>(
    alloc: Global,
    parts: &mut CertReader<R>,
) -> Result<Table, StreamFault>
    requires { is_new parts.old ≡ false }
    ensures { (ahead : Parts) → IsAhead R.remaining parts.old ahead
        → Finishes ahead (λ clocks. (rows : List (List ℕ)) → ahead.parts ≡ map part.Clocks rows → clocks ≡ rows) result }
{
    let mut clocks = Vec::new(alloc);
    'parts: loop {
        let given = next_part(alloc, parts)?;
        if let Part::End = &given {
            return Ok(Table::new(clocks));
        }
        keep_clocks(&mut clocks, given)?;
    }
}
