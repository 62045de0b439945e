//! The laws that what is accepted is true, and that one's own claims are accepted.
ghost use Rattle.std.specs.Prelude.{◌≡◌, ◌≤◌, ◌↔◌, ℕ, List, Some};
ghost use Rattle.tcc_reads.specs.History.{History};
ghost use Rattle.tcc_graph.specs.{declared.level.Level.Level, declared.link.Link.Link, Levels.judged, Orders.IsCommitOrder, Links.cost, Routes.IsCycle, Routes.IsLeastCycle};
ghost use Rattle.tcc_cert.specs.{RunsTold.order_claim_of, declared.large.LargeCertificate.LargeCertificate, declared.large.LinksClaim.LinksClaim, declared.large.Run.Run, declared.large.RunsClaim.RunsClaim};
ghost use Rattle.tcc_least.specs.Shapes.{AreLeast};
ghost use Rattle.tcc_judge.specs.{Runs.order_of, Claims.cycle_claim_of, Claims.short_claim_of, Cycles.IsRightCycle, declared.verdict.LargeRule.LargeRule};
ghost use Rattle.tcc_judge.specs.Verdicts.{HasOrderSizes, cycle_rules, least_rules, order_rules, rules_of};
ghost use Rattle.tcc_rules.specs.{declared.verdict.Verdict.Verdict, Asked.AllHold, Asked.IsVerdictOf};
ghost use Rattle.tcc_rules.specs.declared.verdict.Verdict.TheVariants as verdict;

use tcc_graph::LargeGraph;

/// For a history whose reads are resolved, the rules on a claim of an order hold exactly where its sizes are those of the history and its
/// runs encode a commit order of its level.
pub fn accepted_order(graph: &LargeGraph)
    ensures { (k : RunsClaim) → AllHold (order_rules graph.now k)
        ↔ (HasOrderSizes graph.now k × IsCommitOrder (judged graph.now k.level) (order_of graph.now k.runs)) }
{
    graph.sessions();
    graph.count();
}

/// Where the rule on links holds, the links are a cycle at the level of the claim, and cost what is claimed.
pub fn accepted_cycle()
    ensures { (h : History) (k : LinksClaim) → IsRightCycle h k
        → ((s : ℕ) × IsCycle (judged h k.level) s k.links) × (cost k.links ≡ k.cost) }
{}

/// Where the rules that no cycle costs less hold too, it is a least one.
pub fn accepted_least()
    ensures { (h : History) (k : LinksClaim) (runs : List Run) → IsRightCycle h k → AllHold (least_rules h k.level k.cost runs)
        → (s : ℕ) × IsLeastCycle (judged h k.level) s k.links }
{}

/// A claim that keeps the rules, and claims a least cycle, is true, whatever it costs.
pub fn is_least()
    ensures { (h : History) (k : LinksClaim) (runs : List Run) → k.least ≡ Some runs → AllHold (cycle_rules h k) → AreLeast (judged h k.level) k.links }
{}

/// For a history whose reads are resolved, each commit order keeps the rules, encoded by its runs.
pub fn own_order(graph: &LargeGraph)
    ensures { (level : Level) (order : List ℕ) → IsCommitOrder (judged graph.now level) order
        → AllHold (order_rules graph.now (order_claim_of level graph.now order)) }
{
    graph.sessions();
    graph.count();
}

/// Each cycle keeps the rules, where no more is claimed about it.
pub fn own_cycle()
    ensures { (h : History) (level : Level) (s : ℕ) (links : List Link) → IsCycle (judged h level) s links
        → AllHold (cycle_rules h (cycle_claim_of level h links)) }
{}

/// Each least cycle that costs at most four steps keeps the rules that no cycle costs less, without runs.
pub fn own_short()
    ensures { (h : History) (level : Level) (s : ℕ) (links : List Link) → IsLeastCycle (judged h level) s links → cost links ≤ 4
        → AllHold (cycle_rules h (short_claim_of level h links)) }
{}

/// What keeps the rules is accepted: no other verdict is that of the rules.
pub fn kept()
    ensures { (h : History) (claim : LargeCertificate) → AllHold (rules_of h claim) → (said : Verdict LargeRule) → IsVerdictOf (rules_of h claim) said
        → said ≡ verdict.Accepted }
{}
