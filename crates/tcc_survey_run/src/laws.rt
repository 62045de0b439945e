//! The law of surveys: of which history they speak where no read has a fault.
ghost use Rattle.std.specs.Prelude.{◌≡◌, []};
ghost use Rattle.tcc_txn.specs.Snapshots.{Sessions};
ghost use Rattle.tcc_reads.specs.{Faults.read_faults, Sources.history, Traced.traced_history};

/// Where no read has a fault, the traced history of a snapshot is its history: what `explain` answers for is what a survey looks at.
pub fn unfaulted()
    ensures { (s : Sessions) → read_faults s ≡ [] → traced_history s ≡ history s }
{}
