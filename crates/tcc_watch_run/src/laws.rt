//! The law of what is said quietly.
ghost use Rattle.std.specs.Prelude.{◌≡◌, ◌++◌, List, codes, false, ℕ};
ghost use Rattle.tcc_txn.specs.Snapshots.{Sessions};
ghost use Rattle.tcc_reads.specs.Sources.{history};
ghost use Rattle.tcc_print.specs.{Courses.Said, declared.options.Options.Options};
ghost use Rattle.tcc_run.specs.LargeRuns.{IsSaidWithLarge};
ghost use Rattle.tcc_watch_run.specs.Watching.{IsConsistent, consistent_said};

/// As text, what is said quietly of a consistent history begins what `run_large` says of it, which goes on with the line of its order.
/// The run ends alike.
pub fn first_lines()
    ensures text { (options : Options) (s : Sessions) (explained : Said) → options.json ≡ false → IsConsistent options s → IsSaidWithLarge options s explained
        → (order : List ℕ) × (explained.text ≡ (consistent_said options (history s)).text ++ (codes "order:" ++ order)) }
    ensures status { (options : Options) (s : Sessions) (explained : Said) → IsConsistent options s → IsSaidWithLarge options s explained
        → explained.status ≡ (consistent_said options (history s)).status }
{}
