//! A simple cycle out of a cycle: it follows the links until one ends where one of those passed starts, and leaves out what is before that
//! one. The position of each start that was passed is kept. So this takes at most as many turns as there are links, and a cell for each
//! transaction.
ghost use Rattle.std.specs.Prelude.{IfOk};
ghost use Rattle.tcc_graph.specs.{Levels.Judged, Routes.AreCycle};
ghost use Rattle.tcc_large.specs.{Cycles.IsSimple, private.Returning.IsClosed, private.Returning.IsFirstReturn};

use crate::cells::Cells;
use std::alloc::Global;
use tcc_graph::Link;
use tcc_txn::NoMemory;

/// The first links that lead back: from which one on, and to before which one; at numbers below a count.
fn first_return(alloc: Global, count: u32, links: &[Link]) -> Result<(usize, usize), NoMemory>
    requires { IsClosed count links.now }
    ensures { IfOk result (λ found. IsFirstReturn links.now found.0 found.1) }
{
    let mut positions = Cells::new(alloc, count as usize, 0)?;
    for (index, link) in links.iter().enumerate() {
        let position = index + 1;
        positions.set(link.from(), position as u32);
        let before = positions.get(link.to());
        if before > 0 {
            return Ok((before as usize - 1, position));
        }
    }
    unreachable!()
}

/// The links that lead back first; at numbers below a count.
pub(crate) fn simple_cycle(
    alloc: Global,
    count: u32,
    mut links: Vec<Link>,
) -> Result<Vec<Link>, NoMemory>
    requires { IsClosed count links.items }
    ensures simple { IfOk result (λ found. IsSimple found.items) }
    ensures cycle { IfOk result (λ found. (j : Judged) → AreCycle j links.items → AreCycle j found.items) }
{
    let (first, end) = first_return(alloc, count, &links)?;
    links.truncate(end);
    Ok(links.split_off(first)?)
}
