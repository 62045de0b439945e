//! The law that each read of a resolved snapshot has one source.
ghost use Rattle.std.specs.Prelude.{◌≡◌, ℕ, List, []};
ghost use Rattle.tcc_txn.specs.Snapshots.{Sessions};
ghost use Rattle.tcc_reads.specs.{Faults.read_faults, OneSource.ReadsFromOthers, OneSource.HasOneSource};

/// If a snapshot has no read fault, each external read has exactly one source, and that is another transaction.
pub fn one_source()
    ensures { (s : Sessions) → read_faults s ≡ [] → (n : ℕ) (x : List ℕ) (v : ℕ) → ReadsFromOthers s n x v → HasOneSource s n x v }
{}
