//! An order of all transactions to judge by that a cycle is a least one. It is a topological order of the condensation, component by
//! component (`components`), each in an order that keeps all pairs (`kahn`). So only links within one component lead back in it. The order
//! need not be trusted, and takes O(N + R + E) for N transactions, R reads and E links.
use crate::finder::adjacency::Adjacency;
use crate::finder::components::Components;
use crate::finder::kahn::Kahn;
use crate::finder::pairs::PairSpans;
use std::alloc::Global;
use tcc_graph::LargeGraph;
use tcc_order::Stuck;
use tcc_txn::NoMemory;

/// Adds the members of a component, as far as pairs allow.
fn add_component(
    order: &mut Vec<u32>,
    kahn: &mut Kahn<'_>,
    members: &[u32],
) -> Result<(), NoMemory> {
    for number in members {
        kahn.open(*number)?;
    }
    for _member in members {
        let Some(number) = kahn.next() else {
            break;
        };
        order.push(number)?;
        kahn.put(number)?;
    }
    Ok(())
}

/// The numbers of all transactions, that of `init` first, in an order that keeps all pairs; none where pairs form a cycle.
pub(crate) fn order_to_judge(
    alloc: Global,
    graph: &LargeGraph,
    stuck: &Stuck,
) -> Result<Option<Vec<u32>>, NoMemory> {
    let pairs = PairSpans::of(alloc, graph)?;
    let adjacency = Adjacency::of(alloc, &pairs, &stuck.kept)?;
    let components = Components::of(alloc, &adjacency)?;
    let mut kahn = Kahn::new(alloc, &adjacency, components.numbers())?;
    let mut order = Vec::new(alloc);
    order.push(0)?;
    for index in 0..components.count() {
        add_component(&mut order, &mut kahn, components.members(index))?;
    }
    if order.len() == graph.count() as usize {
        Ok(Some(order))
    } else {
        Ok(None)
    }
}
