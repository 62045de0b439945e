//! Strongly connected components of the pairs and of further links, by Kosaraju and Sharir (Sharir, A strong-connectivity algorithm and its
//! applications in data flow analysis, 1981). The transaction that a depth-first search forwards leaves last begins the next component. The
//! rest of it is what a search backwards from there comes to. So between two components pairs and links lead onward. It goes over each pair
//! and link twice: O(N + R + E) for N transactions, R reads and E links.
use crate::cells::Cells;
use crate::finder::adjacency::{Adjacency, Direction};
use std::alloc::Global;
use tcc_txn::NoMemory;

/// What is left to do in a depth-first search: to go into a transaction, or to leave it.
#[derive(Clone, Copy)]
enum Visit {
    Into(u32),
    OutOf(u32),
}

/// A depth-first search forwards: which transactions were seen, and in which order they were left.
#[derive(Drop)]
struct ComponentSearch {
    seen: Cells,
    turns: Vec<Visit>,
    left: Vec<u32>,
    neighbours: Vec<u32>,
}

impl ComponentSearch {
    /// Before anything but `init` was seen.
    fn new(alloc: Global, count: u32) -> Result<ComponentSearch, NoMemory> {
        let mut seen = Cells::new(alloc, count as usize, 0)?;
        seen.set(0, 1);
        Ok(ComponentSearch {
            seen,
            turns: Vec::new(alloc),
            left: Vec::new(alloc),
            neighbours: Vec::new(alloc),
        })
    }

    /// Goes into a transaction, if it wasn't seen: those directly after it come next.
    fn enter(&mut self, adjacency: &Adjacency<'_>, number: u32) -> Result<(), NoMemory> {
        if self.seen.get(number) != 0 {
            return Ok(());
        }
        self.seen.set(number, 1);
        self.turns.push(Visit::OutOf(number))?;
        adjacency.find_neighbours(&mut self.neighbours, number, Direction::Behind)?;
        for next in &self.neighbours {
            if self.seen.get(*next) == 0 {
                self.turns.push(Visit::Into(*next))?;
            }
        }
        Ok(())
    }

    /// Searches from a transaction.
    fn search(&mut self, adjacency: &Adjacency<'_>, start: u32) -> Result<(), NoMemory> {
        self.enter(adjacency, start)?;
        for _turn in 0..u64::MAX {
            match self.turns.pop() {
                Some(Visit::Into(number)) => self.enter(adjacency, number)?,
                Some(Visit::OutOf(number)) => self.left.push(number)?,
                None => break,
            }
        }
        Ok(())
    }
}

/// All transactions but `init` in the order in which a depth-first search forwards leaves them.
fn left_one_by_one(alloc: Global, adjacency: &Adjacency<'_>) -> Result<Vec<u32>, NoMemory> {
    let mut search = ComponentSearch::new(alloc, adjacency.pairs().count())?;
    for start in 1..adjacency.pairs().count() {
        search.search(adjacency, start)?;
    }
    Ok(search.left)
}

/// All transactions but `init`, component by component, where each component begins among them, and for each transaction the number of its
/// component, from 1 on.
#[derive(Drop)]
pub(crate) struct Components {
    members: Vec<u32>,
    begins: Vec<usize>,
    numbers: Cells,
}

impl Components {
    /// Those of the pairs and links.
    pub(crate) fn of(alloc: Global, adjacency: &Adjacency<'_>) -> Result<Components, NoMemory> {
        let mut components = Components {
            members: Vec::new(alloc),
            begins: Vec::new(alloc),
            numbers: Cells::new(alloc, adjacency.pairs().count() as usize, 0)?,
        };
        let mut neighbours = Vec::new(alloc);
        for start in left_one_by_one(alloc, adjacency)?.iter().rev() {
            if components.numbers.get(*start) == 0 {
                components.add(adjacency, *start, &mut neighbours)?;
            }
        }
        Ok(components)
    }

    /// Adds the component of a transaction, which is in none yet.
    fn add(
        &mut self,
        adjacency: &Adjacency<'_>,
        start: u32,
        neighbours: &mut Vec<u32>,
    ) -> Result<(), NoMemory> {
        let begin = self.members.len();
        self.begins.push(begin)?;
        self.take(start)?;
        for index in begin..usize::MAX {
            let Some(number) = self.members.get(index).copied() else {
                break;
            };
            adjacency.find_neighbours(neighbours, number, Direction::Before)?;
            self.take_each(neighbours)?;
        }
        Ok(())
    }

    /// Takes the transactions of these that are in no component into the last one.
    fn take_each(&mut self, numbers: &[u32]) -> Result<(), NoMemory> {
        for number in numbers {
            self.take(*number)?;
        }
        Ok(())
    }

    /// Takes a transaction, if it is in no component, into the last one.
    fn take(&mut self, number: u32) -> Result<(), NoMemory> {
        if number > 0 && self.numbers.get(number) == 0 {
            let last = self.begins.len().min(1 << 31) as u32;
            self.numbers.set(number, last);
            self.members.push(number)?;
        }
        Ok(())
    }

    /// How many components there are.
    pub(crate) fn count(&self) -> usize {
        self.begins.len()
    }

    /// The members of the component at an index.
    pub(crate) fn members(&self, index: usize) -> &[u32] {
        let low = self.begins.get(index).copied().unwrap_or(0);
        let next = self.begins.get(index.saturating_add(1)).copied();
        let high = next.unwrap_or(self.members.len());
        if low < high && high <= self.members.len() {
            &self.members[low..high]
        } else {
            &[]
        }
    }

    /// For each transaction the number of its component, from 1 on.
    pub(crate) fn numbers(&self) -> &Cells {
        &self.numbers
    }
}
