//! The links of a claim, and how many steps they have.
ghost use Rattle.std.specs.Prelude.{◌≡◌, ◌≤◌, ◌^◌, IfOk, OnErr};
ghost use Rattle.tcc_graph.specs.Links.{cost};
ghost use Rattle.tcc_cert.specs.declared.version_3.TheConstants.{V3_MAX_COST};

use std::alloc::Global;
use tcc_graph::Link;
use tcc_txn::NoMemory;

/// How many steps the links have together, as a claim has them. It is out of memory only where they are more than 32 bits count.
pub fn steps_of(links: &[Link]) -> Result<u32, NoMemory>
    ensures steps { IfOk result (λ steps. steps ≡ cost links.now) }
    ensures room { IfOk result (λ _. cost links.now ≤ V3_MAX_COST) }
    ensures many { OnErr result (2 ^ 32 ≤ cost links.now) }
{
    let Ok(steps) = u32::try_from(tcc_graph::steps_of(links)?) else {
        return Err(NoMemory);
    };
    Ok(steps)
}

/// Equal links.
pub fn copied(alloc: Global, links: &[Link]) -> Result<Vec<Link>, NoMemory>
    ensures { IfOk result (λ copy. copy.items ≡ links.now) }
{
    let mut copy = Vec::new(alloc);
    for link in links {
        copy.push(link.copy(alloc)?)?;
    }
    Ok(copy)
}
