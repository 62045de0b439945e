//! A small map on two replicas. Clients write at the near one; what they write reaches the far one late, and not in the
//! order in which it was written.
ghost use Rattle.std.specs.Prelude.{◌≡◌, ◌+◌, ◌++◌, ◌∷◌, [], OnErr, OnOk};

use std::alloc::Global;
use tcc_txn::{Name, NoMemory};

/// One of the two copies of the map.
#[derive(Clone, Copy, PartialEq, Eq)]
pub enum Replica {
    Near,
    Far,
}

/// A write, with the rounds from which on each replica has it.
#[derive(Clone, Copy)]
struct StoredVersion {
    key: Name,
    value: u64,
    near: u32,
    far: u32,
}

/// All writes, in the order in which they were made.
#[derive(Drop)]
pub struct Store {
    versions: Vec<StoredVersion>,
}

impl StoredVersion {
    /// Whether the replica has it in this round.
    fn is_at(&self, replica: Replica, round: u32) -> bool {
        match replica {
            Replica::Near => self.near <= round,
            Replica::Far => self.far <= round,
        }
    }
}

impl Store {
    /// A map in which nothing was written.
    pub fn new(alloc: Global) -> Store {
        Store {
            versions: Vec::new(alloc),
        }
    }

    /// What a replica has at the key in this round; 0 where nothing written there has reached it.
    pub fn get(&self, replica: Replica, key: &Name, round: u32) -> u64 {
        let mut value = 0;
        for version in &self.versions {
            if version.key == *key && version.is_at(replica, round) {
                value = version.value;
            }
        }
        value
    }

    /// Writes a value in this round. The near replica has it from the next round on, the far one `late` rounds later.
    pub fn put(&mut self, key: Name, value: u64, round: u32, late: u32) -> Result<(), NoMemory> {
        let near = round.saturating_add(1);
        self.versions.push(StoredVersion {
            key,
            value,
            near,
            far: near.saturating_add(late),
        })?;
        Ok(())
    }
}
