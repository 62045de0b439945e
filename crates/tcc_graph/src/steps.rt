//! How many steps links have together.
ghost use Rattle.std.specs.Prelude.{◌≡◌, ◌≤◌, ◌^◌, IfOk, OnErr};
ghost use Rattle.tcc_graph.specs.Links.{cost};

use crate::Link;
use tcc_txn::NoMemory;

/// How many steps the links have together. It is out of memory only if there are more than 64 bits count: no memory holds such
/// links.
pub fn steps_of(links: &[Link]) -> Result<usize, NoMemory>
    ensures steps { IfOk result (λ steps. steps ≡ cost links.now) }
    ensures many { OnErr result (2 ^ 64 ≤ cost links.now) }
{
    let mut steps: usize = 0;
    for link in links {
        let Some(more) = steps.checked_add(link.cost()) else {
            return Err(NoMemory);
        };
        steps = more;
    }
    Ok(steps)
}
