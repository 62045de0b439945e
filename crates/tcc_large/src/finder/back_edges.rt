//! Back edges: links that lead back in an order of transactions that keeps all pairs. Each cycle has one, unless it is one of
//! pairs.
use crate::finder::kahn::Kahn;
use crate::finder::trimming::Trimmed;
use std::alloc::{AllocError, Global};
use tcc_txn::NoMemory;

/// Adds the links to a transaction from marked ones that aren't placed.
fn add_back(
    found: &mut Vec<(u32, u32)>,
    among: &Trimmed<'_>,
    kahn: &Kahn<'_>,
    number: u32,
) -> Result<(), AllocError> {
    for from in among.adjacency().links_into(number) {
        if among.has(*from) && !kahn.has(*from) {
            found.push((*from, number))?;
        }
    }
    Ok(())
}

/// Opens each marked transaction.
fn open_all(kahn: &mut Kahn<'_>, among: &Trimmed<'_>) -> Result<(), AllocError> {
    for number in 1..among.pairs().count() {
        if among.has(number) {
            kahn.open(number)?;
        }
    }
    Ok(())
}

/// The links among marked transactions that lead back in an order that keeps all pairs.
pub(crate) fn back_edges(alloc: Global, among: &Trimmed<'_>) -> Result<Vec<(u32, u32)>, NoMemory> {
    let mut kahn = Kahn::new(alloc, among.adjacency(), among.marks())?;
    open_all(&mut kahn, among)?;
    let mut found = Vec::new(alloc);
    for _turn in 0..among.pairs().count() {
        let Some(number) = kahn.next() else {
            break;
        };
        add_back(&mut found, among, &kahn, number)?;
        kahn.put(number)?;
    }
    Ok(found)
}
