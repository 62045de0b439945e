//! A two-way set-associative cache of the numbers of names. A set, picked by a hash of the name, keeps the last two numbers
//! that were put there. The caller compares the names, so any numbers are a lawful result. Names that share a set cost time
//! alone, and only if there are more than two. To ask and to put take a constant number of steps.

use crate::{Name, NoMemory};
use std::alloc::Global;

/// How many sets there are for each name, so that few names share one with two others.
const SETS_OF_A_NAME: usize = 2;

/// The least number of sets.
const LEAST_SETS: usize = 32;

/// Numbers that names probably have.
#[derive(Drop)]
pub struct Nearby {
    /// Of each set the number that was put last, and the one before it.
    sets: Vec<(u32, u32)>,
}

impl Nearby {
    /// No sets: each result is 0.
    pub fn new(alloc: Global) -> Nearby {
        Nearby {
            sets: Vec::new(alloc),
        }
    }

    /// The sets for this many names. Each has the number 0 twice.
    pub fn with_room(alloc: Global, count: usize) -> Result<Nearby, NoMemory> {
        let mut wanted = LEAST_SETS;
        for _ in 0..32u32 {
            if wanted / SETS_OF_A_NAME < count {
                wanted = wanted.saturating_mul(2);
            }
        }
        Ok(Nearby {
            sets: vec![in alloc; (0u32, 0u32); wanted]?,
        })
    }

    /// Whether there are sets for this many names.
    pub fn has_room(&self, count: usize) -> bool {
        self.sets.len() / SETS_OF_A_NAME >= count
    }

    /// The index of the set of a name.
    fn set(&self, name: &Name) -> usize {
        (name.mixed() >> 32) as usize & self.sets.len().wrapping_sub(1)
    }

    /// The numbers that the name probably has, the one that was put last first.
    pub fn numbers(&self, name: &Name) -> (u32, u32) {
        match self.sets.get(self.set(name)) {
            Some(set) => *set,
            None => (0, 0),
        }
    }

    /// Puts the number of a name into its set.
    pub fn put(&mut self, name: &Name, number: u32) {
        let at = self.set(name);
        if let Some(set) = self.sets.get_mut(at) {
            *set = (number, set.0);
        }
    }

    /// The sets for these names, each at its number.
    pub fn of(alloc: Global, names: &[Name]) -> Result<Nearby, NoMemory> {
        let mut nearby = Nearby::with_room(alloc, names.len())?;
        let mut number: u32 = 0;
        for name in names {
            nearby.put(name, number);
            number = number.wrapping_add(1);
        }
        Ok(nearby)
    }
}
