//! The laws of shares: how a search ends in one, and what shares that settle show. The laws of least cycles: the first one
//! is picked from the back, and so are the walks of its links. They also say what its parts cost, and what it can cost at
//! most.
ghost use Rattle.std.specs.Prelude.{◌≡◌, ◌↔◌, ℕ, List, Option, None, Contains, ◌≤◌, ◌==◌, ◌∷◌, ◌++◌, ◌+◌, ◌*◌, All, filter, length, Some};
ghost use Rattle.tcc_graph.specs.{Levels.Judged, Links.cost, declared.link.Link.Link, Levels.judged, Links.link_from, declared.limits.TheConstants.MAX_CYCLE_COST, declared.level.Level.Level, declared.step.Step.Step, declared.link.Link.TheVariants.Derived};
ghost use Rattle.tcc_graph.specs.Routes.{HasCycle, IsLeastCycle, IsDistance, IsRoute};
ghost use Rattle.tcc_core.specs.Rows.{in_row, cap_of};
ghost use Rattle.tcc_core.specs.Searches.{Search, IsSearchOf, Settles};
ghost use Rattle.tcc_core.specs.Shares.{Share, Returned, Cut, IsNotAbove, IsFinished, SettleAt, EachFinished, IsCappedDistance, capped};
ghost use Rattle.tcc_core.specs.declared.settled.Settled.TheVariants as settled;
ghost use Rattle.std.specs.FinMap.{entries};
ghost use Rattle.tcc_txn.specs.{declared.limits.TheConstants.MAX_COUNT, declared.limits.TheConstants.MAX_SESSIONS, Snapshots.Sessions};
ghost use Rattle.tcc_reads.specs.{History.count, Sources.history};
ghost use Rattle.tcc_graph.specs.Ties.{IsFirstCycle, link_kind, link_walk};
ghost use Rattle.tcc_derive.specs.Backwards.{IsFirstWalk};
ghost use Rattle.tcc_derive.specs.Picked.{IsPickedCycle, IsPickedWalk};

/// Shares settle at a word. The word is then none exactly where there is no cycle, and else the cost of a least cycle. Each
/// row, capped at the word where there is one, is the capped distance over numbers from its start upward. Each start whose
/// distance to itself is the word has returned. Every cycle, begun at its lowest number, is a route over numbers from there
/// upward.
pub fn settled()
    ensures no_cycle { (j : Judged) (shares : List Share) (word : Option ℕ) → SettleAt j shares word
        → ((word ≡ None) ↔ (HasCycle j → ⊥)) }
    ensures least { (j : Judged) (shares : List Share) (b : ℕ) → SettleAt j shares (Some b)
        → ((s : ℕ) × (links : List Link) × IsLeastCycle j s links × (cost links ≡ b)) }
    ensures rows { (j : Judged) (shares : List Share) (word : Option ℕ) → SettleAt j shares word
        → EachFinished shares (λ f. (v : ℕ) → IsCappedDistance j f.start v word (capped word (in_row f.row v))) }
    ensures returned { (j : Judged) (shares : List Share) (b : ℕ) → SettleAt j shares (Some b)
        → EachFinished shares (λ f. IsDistance j f.start f.start b → f.stop ≡ Returned b) }
{}

/// A search has returned at a cost that its worker offered, or was cut at no less than what its worker saw last before it
/// came to its start. Such a search may be in a share. Until it returns, its start is outside its row.
pub fn ended()
    ensures more { (j : Judged) (s cap : ℕ) (old new : List (Option ℕ)) → Settles j s cap old new settled.More
        → in_row old s ≡ None → in_row new s ≡ None }
    ensures returned { (j : Judged) (s cap c : ℕ) (old : List (Option ℕ)) (search : Search) (share : Share)
        → IsSearchOf j s search → Settles j s cap old search.row (settled.Returned c) → Contains share.offers c
        → IsFinished j share (record { start = s; row = search.row; stop = Returned c }) }
    ensures cut { (j : Judged) (s cap k : ℕ) (old : List (Option ℕ)) (search : Search) (share : Share)
        → IsSearchOf j s search → Settles j s cap old search.row (settled.Cut k) → in_row search.row s ≡ None
        → IsNotAbove share.sight (cap_of k)
        → IsFinished j share (record { start = s; row = search.row; stop = Cut (cap_of k) }) }
{}

/// The first of the least cycles by the rule of ties is the one picked from the back, and there is at most one. The first
/// of the shortest walks that the level allows between two transactions is picked in the same way. The walk of each derived
/// link of the first cycle is such a walk.
pub fn picked()
    ensures first { (j : Judged) (s : ℕ) (links : List Link) → (IsFirstCycle j s links ↔ IsPickedCycle j s links) }
    ensures one { (j : Judged) (s t : ℕ) (links others : List Link) → IsFirstCycle j s links → IsFirstCycle j t others
        → (s ≡ t) × (links ≡ others) }
    ensures walk { (j : Judged) (b c : ℕ) (walk : List Step) → (IsFirstWalk j b c walk ↔ IsPickedWalk j b c walk) }
    ensures walks { (j : Judged) (s : ℕ) (front : List Link) (b a : ℕ) (x : List ℕ) (c : ℕ) (walk : List Step) (rest : List Link)
        → IsFirstCycle j s (front ++ Derived b a x c walk ∷ rest) → IsPickedWalk j b c walk }
{}

/// No least cycle from the start of the first one meets a number below that start, so its first links cost the distance
/// from there to where they lead. No route at all between two transactions costs less than a part of a least cycle that
/// leads from the one to the other.
pub fn parts()
    ensures above { (j : Judged) (s : ℕ) (links : List Link) → IsFirstCycle j s links
        → (front : List Link) (l : Link) (rest : List Link) → IsLeastCycle j s (front ++ l ∷ rest) → s ≤ link_from l }
    ensures front { (j : Judged) (s v : ℕ) (links front rest : List Link) → IsFirstCycle j s links
        → IsLeastCycle j s (front ++ rest) → IsRoute j s v front → IsDistance j s v (cost front) }
    ensures least { (j : Judged) (s u v : ℕ) (front part rest others : List Link) → IsLeastCycle j s (front ++ (part ++ rest))
        → IsRoute j u v part → IsRoute j u v others → cost part ≤ cost others }
{}

/// What a least cycle costs at most. By the number of transactions: it begins at most one link at each of them (`links`),
/// and none of its links takes a longer walk than over all of them once (`walks`). That a graph has no more than
/// `MAX_COUNT` is a clause of `Graph::count`.
/// In the history of a snapshot there is also a bound by its sessions alone, however many transactions they have. Apart
/// from `init`, a least cycle meets at most two transactions of a session, and at most one derived link begins there. The
/// walk of such a link begins at most two steps in a session. With 64 sessions these are 129 links, of which 65 are
/// derived, and walks of 128 steps: 8,449 in all.
pub fn bounded()
    ensures transactions { (j : Judged) (s : ℕ) (links : List Link) → count j.history ≤ MAX_COUNT → IsLeastCycle j s links
        → cost links ≤ MAX_CYCLE_COST }
    ensures links { (j : Judged) (s : ℕ) (links : List Link) → IsLeastCycle j s links → length links ≤ count j.history }
    ensures walks { (j : Judged) (s : ℕ) (links : List Link) → IsLeastCycle j s links
        → All (λ l. length (link_walk l) ≤ count j.history) links }
    ensures sessions { (snapshot : Sessions) (level : Level) (s : ℕ) (links : List Link) → length (entries snapshot) ≤ MAX_SESSIONS
        → IsLeastCycle (judged (history snapshot) level) s links
        → (length (filter (λ l. link_kind l == 2) links) ≤ MAX_SESSIONS + 1)
        × (cost links ≤ (2 * MAX_SESSIONS + 1) + 2 * MAX_SESSIONS * (MAX_SESSIONS + 1)) }
{}
