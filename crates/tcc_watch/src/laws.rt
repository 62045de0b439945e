//! The laws of histories that grow at their end.
ghost use Rattle.std.specs.Prelude.{◌≡◌, ◌<◌, ◌≤◌, ◌⊎◌, ◌↔◌, ℕ, Bool, false, List, []};
ghost use Rattle.tcc_txn.specs.{Nested.list_of, Snapshots.Sessions};
ghost use Rattle.tcc_reads.specs.{Faults.read_faults, Sources.history};
ghost use Rattle.tcc_reads.specs.History.{Entry, History, count};
ghost use Rattle.tcc_graph.specs.{Levels.Judged, Levels.judged, Links.IsLink, Links.cost, Routes.HasCycle, Routes.IsCycle, Walks.IsReached, declared.level.Level.Level, declared.link.Link.Link};
ghost use Rattle.tcc_watch.specs.Ledger.{IsLedger};
ghost use Rattle.tcc_watch.specs.{Verdicts.IsVerdict, declared.verdict.WatchVerdict.WatchVerdict};
ghost use Rattle.tcc_watch.specs.Delivered.{AllWait, AreAlike, IsBy, IsDelivered, IsDeliveryOf, MayCome, with_last};
ghost use Rattle.tcc_watch.specs.Newest.{AreCheaper, Closes, Continues, HasReader, IsNewestReader, MayAllCome, with_more};

/// Where a transaction comes after all that it needs, each link stays one. Each new link is a pair into it, or a derived link of which
/// it is the reader. Nothing that was there is reached from more than before.
pub fn sinks()
    ensures delivered { (h : History) (e : Entry) → IsDelivered h → MayCome h e → IsDelivered (with_last h e) }
    ensures kept { (h : History) (e : Entry) (level : Level) (l : Link) → IsLink (judged h level) l → IsLink (judged (with_last h e) level) l }
    ensures new { (h : History) (e : Entry) (level : Level) (l : Link) → IsDelivered h → MayCome h e → IsLink (judged (with_last h e) level) l
        → IsLink (judged h level) l ⊎ IsBy (count h) l }
    ensures reached { (h : History) (e : Entry) (a : ℕ) (b : ℕ) → IsDelivered h → MayCome h e → b < count h → IsReached (with_last h e) a b
        → IsReached h a b }
{}

/// Histories that are one but for the numbers of their transactions have a cycle at a level both or neither.
pub fn alike()
    ensures { (h : History) (k : History) (level : Level) → AreAlike h k → HasCycle (judged h level) ↔ HasCycle (judged k level) }
{}

/// Where all that a snapshot has was delivered, in whatever order, and its reads are resolved, what was delivered has a cycle at a level
/// exactly where the history of the snapshot has one.
pub fn deliveries()
    ensures { (s : Sessions) (h : History) (f : ℕ → ℕ) (level : Level) → read_faults s ≡ [] → IsDeliveryOf s h f
        → HasCycle (judged h level) ↔ HasCycle (judged (history s) level) }
{}

/// Where each transaction that hasn't come waits for another that hasn't, and some hasn't, the history has a cycle of causal pairs.
pub fn waiting()
    ensures { (h : History) (has_come : ℕ → Bool) (level : Level) (x : ℕ) → x < count h → has_come x ≡ false → AllWait h has_come
        → HasCycle (judged h level) }
{}

/// Where there is a ledger of all that a snapshot has, its reads are resolved, and its transactions were delivered as the ledger says.
pub fn ledgers()
    ensures resolved { (s : Sessions) (names : List (List ℕ)) (h : History) → IsLedger (list_of s) names h → read_faults s ≡ [] }
    ensures delivered { (s : Sessions) (names : List (List ℕ)) (h : History) → IsLedger (list_of s) names h → (f : ℕ → ℕ) × IsDeliveryOf s h f }
    ensures decided { (s : Sessions) (names : List (List ℕ)) (h : History) (level : Level) → IsLedger (list_of s) names h
        → HasCycle (judged h level) ↔ HasCycle (judged (history s) level) }
{}

/// A snapshot has only one verdict at a level, in whatever order its sessions came, and whatever was known before.
pub fn verdicts()
    ensures { (s : Sessions) (level : Level) (v : WatchVerdict) (w : WatchVerdict) → IsVerdict s level v → IsVerdict s level w → v ≡ w }
{}

/// Where transactions have their numbers in the order of delivery, the newest one that a cycle names is no end of its links. It's the
/// reader of a derived one. So a cycle that new transactions bring has a new reader. Where the least cost of a snapshot falls as it goes
/// on, each least cycle has one. What a cycle costs is the walk to its newest reader, the read, and a route over older transactions.
pub fn newest_reader()
    ensures reader { (j : Judged) (s : ℕ) (links : List Link) → IsDelivered j.history → IsCycle j s links → (z : ℕ) × IsNewestReader z links }
    ensures brought { (h : History) (more : List Entry) (level : Level) (s : ℕ) (links : List Link) → IsDelivered h → MayAllCome h more
        → IsCycle (judged (with_more h more) level) s links
        → IsCycle (judged h level) s links ⊎ ((z : ℕ) × (count h ≤ z) × IsNewestReader z links) }
    ensures falls { (small large : Sessions) (h : History) (more : List Entry) (f g : ℕ → ℕ) (level : Level) (s : ℕ) (links : List Link)
        → Continues small large h more f g → IsCycle (judged (history large) level) s links → AreCheaper (judged (history small) level) links
        → (z : ℕ) × (count h ≤ z) × (z < count (with_more h more)) × HasReader links (g z) }
    ensures costs { (j : Judged) (s : ℕ) (links : List Link) → IsDelivered j.history → IsCycle j s links → (z : ℕ) × Closes j z (cost links) }
{}
