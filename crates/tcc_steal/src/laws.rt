//! The law of all interleavings.
ghost use Rattle.std.specs.Prelude.{◌≡◌, ◌↔◌, ℕ, List, Option, Some, None};
ghost use Rattle.tcc_reads.specs.History.{count};
ghost use Rattle.tcc_graph.specs.{Levels.Judged, Links.cost, Routes.HasCycle, Routes.IsLeastCycle, declared.link.Link.Link};
ghost use Rattle.tcc_core.specs.Shares.{SettleAt};
ghost use Rattle.tcc_steal.specs.Worlds.{World, shares_of, first_world};
ghost use Rattle.tcc_steal.specs.Steps.{IsEnabled, Happens, Runs};
ghost use Rattle.tcc_steal.specs.Soundness.{IsSound, IsSeed, AllFinished};
ghost use Rattle.tcc_steal.specs.declared.event.Event.{Event};

/// An interleaving is any list of events, each enabled when it comes, of any number of workers, begun with or without the
/// cost of a cycle as a seed. Whatever the interleaving, the word is always the least offer and not above any sight. Every
/// row is exact and closed, and every start is once among those left, held and finished. After a run that finishes every
/// start the shares settle at the word: it is none exactly where there is no cycle, and else the cost of a least cycle. So
/// every interleaving ends with the same word.
pub fn interleavings()
    ensures enabled { (j : Judged) (old new : World) (e : Event) → Happens j old e new → IsEnabled old e }
    ensures kept { (j : Judged) (workers : ℕ) (seed : Option ℕ) (events : List Event) (world : World) → IsSeed j seed
        → Runs j (first_world (count j.history) workers seed) events world → IsSound j world }
    ensures settled { (j : Judged) (workers : ℕ) (seed : Option ℕ) (events : List Event) (world : World) → IsSeed j seed
        → Runs j (first_world (count j.history) workers seed) events world → AllFinished (count j.history) world
        → SettleAt j (shares_of world) world.word }
    ensures no_cycle { (j : Judged) (workers : ℕ) (seed : Option ℕ) (events : List Event) (world : World) → IsSeed j seed
        → Runs j (first_world (count j.history) workers seed) events world → AllFinished (count j.history) world
        → ((world.word ≡ None) ↔ (HasCycle j → ⊥)) }
    ensures least { (j : Judged) (workers : ℕ) (seed : Option ℕ) (events : List Event) (world : World) (b : ℕ) → IsSeed j seed
        → Runs j (first_world (count j.history) workers seed) events world → AllFinished (count j.history) world
        → world.word ≡ Some b → ((s : ℕ) × (links : List Link) × IsLeastCycle j s links × (cost links ≡ b)) }
    ensures same { (j : Judged) (workers others : ℕ) (seed another : Option ℕ) (events more : List Event) (world other : World)
        → IsSeed j seed → Runs j (first_world (count j.history) workers seed) events world → AllFinished (count j.history) world
        → IsSeed j another → Runs j (first_world (count j.history) others another) more other → AllFinished (count j.history) other
        → world.word ≡ other.word }
{}
