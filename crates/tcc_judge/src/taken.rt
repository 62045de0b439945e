//! The links of a claim of version 3, judged as they are read, so that neither they nor the steps of their walks need be held. About the
//! walk of the link that is being read it is known how many steps it has, and where they lead. For M links with W steps this asks at most 2
//! M + W questions of the graph, and takes memory for one link without its walk.
ghost use Rattle.std.specs.Prelude.{◌≡◌, ◌++◌, ◌∷◌, ◌↔◌, ℕ, List, [], All, IfOk, IfSome, IsTrue};
ghost use Rattle.tcc_reads.specs.History.{count};
ghost use Rattle.tcc_graph.specs.declared.{link.Link.Link, step.Step.Step};
ghost use Rattle.tcc_cert.specs.{CycleRules.IsLinkBelow, Reading.with_walk, Taken.IsClaimTaken, Taken.with_links, declared.large.LargeCertificate.LargeCertificate};
ghost use Rattle.tcc_rules.specs.{Asked.IsVerdictOf, Known.IsKnownWalk};
ghost use Rattle.tcc_judge.specs.{Cycles.AreNeededRuns, Cycles.HasLinksSizes, Taken.AreTaken, Verdicts.cycle_rules, Verdicts.rules_of};

use crate::cycles::{are_needed, least_verdict};
use crate::ordering::judge_order_watched;
use crate::verdict::{rejected, rejected_at};
use crate::{LargeJudging, LargeRule, LargeVerdict};
use std::alloc::Global;
use tcc_base::{Progress, Unwatched};
use tcc_cert::{LargeHead, LinksHead, LinksSizes, TakesLinks};
use tcc_graph::{LargeGraph, Level, Link, Step};
use tcc_rules::{KnownLink, KnownWalk, LinksJudge};
use tcc_txn::NoMemory;

/// Whether all numbers of some links, and those of one more, are below the number of transactions.
fn are_links_below(graph: &LargeGraph, are_below: bool, head: &Link, walk: &KnownWalk) -> bool
    ensures { (from : ℕ) (steps : List Step) (links : List Link) → IsKnownWalk graph.now from steps walk.now
        → (IsTrue are_below ↔ All (IsLinkBelow (count graph.now)) links)
        → IsTrue result ↔ All (IsLinkBelow (count graph.now)) (links ++ with_walk head.now steps ∷ []) }
{
    if !are_below {
        return false;
    }
    walk.is_link_below(graph, head)
}

/// The links of a claim read so far, and the one whose steps are being read.
#[derive(Drop)]
pub struct TakenLinks<'a> {
    graph: &'a LargeGraph,
    level: Level,
    /// What they show.
    judge: LinksJudge,
    /// Whether all their numbers are below the number of transactions.
    are_below: bool,
    /// The link whose steps are being read, without them.
    head: Option<Link>,
    /// What is known about these steps.
    walk: KnownWalk,
}

impl<'a> TakenLinks<'a> {
    /// No link yet.
    pub fn new(_alloc: Global, graph: &'a LargeGraph) -> TakenLinks<'a>
        ensures { result.graph.now ≡ graph.now }
    {
        TakenLinks {
            graph,
            level: Level::Causal,
            judge: LinksJudge::new(0),
            are_below: true,
            head: None,
            walk: KnownWalk::new(0),
        }
    }
}

impl<'a> TakesLinks for TakenLinks<'a> {
    ghost use Rattle.std.specs.Prelude.{◌≡◌};
    ghost use Rattle.tcc_judge.specs.{Taken.AreTaken, private.Taking.IsTaking};

    ghost ready = { λ taken h. taken.graph.now ≡ h };

    ghost took = { AreTaken };

    ghost takes = { IsTaking };

    fn start(&mut self, sizes: LinksSizes) {
        self.level = sizes.level;
        self.judge = LinksJudge::new(sizes.cost);
        self.are_below = true;
    }

    fn begin(&mut self, head: Link) -> Result<(), NoMemory> {
        self.walk = KnownWalk::new(head.from());
        self.head = Some(head);
        Ok(())
    }

    fn step(&mut self, step: Step) -> Result<(), NoMemory> {
        self.walk.push(self.graph, &step)?;
        Ok(())
    }

    fn end(&mut self) -> Result<(), NoMemory> {
        let Some(head) = self.head.take() else {
            return Ok(());
        };
        self.are_below = are_links_below(self.graph, self.are_below, &head, &self.walk);
        let known = KnownLink::of_walk(self.graph, self.level, &head, &self.walk)?;
        self.judge.judge_known(known)?;
        Ok(())
    }
}

/// Whether the sizes of a claim are those of the history.
fn has_head_sizes(
    alloc: Global,
    graph: &LargeGraph,
    head: &LinksHead,
    are_below: bool,
) -> Result<bool, NoMemory>
    ensures sizes { IfOk result (λ right. (links : List Link) → (IsTrue are_below ↔ All (IsLinkBelow (count graph.now)) links)
        → IsTrue right ↔ HasLinksSizes graph.now (with_links head.now links)) }
    ensures needed { IfOk result (λ right. IsTrue right → IfSome head.now.least (AreNeededRuns graph.now head.now.sizes.cost)) }
{
    if head.sizes.transactions != graph.count() || !are_below {
        return Ok(false);
    }
    match &head.least {
        Some(runs) => {
            let needed = are_needed(alloc, graph, head.sizes.cost, runs.as_slice())?;
            Ok(needed)
        }
        None => Ok(true),
    }
}

/// The verdict of the rules on a claim of a cycle whose links were read.
fn judge_taken_cycle<P: Progress>(
    alloc: Global,
    graph: &LargeGraph,
    head: &LinksHead,
    taken: &TakenLinks,
    progress: &P,
) -> LargeJudging
    ensures { IfOk result (λ verdict. (links : List Link) → AreTaken taken.now graph.now head.now.sizes links
        → IsVerdictOf (cycle_rules graph.now (with_links head.now links)) verdict) }
{
    if !has_head_sizes(alloc, graph, head, taken.are_below)? {
        return Ok(rejected(LargeRule::Sizes));
    }
    if let Some(at) = taken.judge.first_wrong()? {
        return Ok(rejected_at(LargeRule::Links, (at, 0)));
    }
    let LinksSizes { level, cost, .. } = head.sizes;
    match &head.least {
        Some(runs) => {
            let verdict = least_verdict(alloc, graph, level, cost, runs.as_slice(), progress)?;
            Ok(verdict)
        }
        None => Ok(LargeVerdict::Accepted),
    }
}

/// Judges a claim whose links were read, as `judge` does one that is held. It accepts the claim exactly where it keeps all rules for its
/// kind and its level; otherwise it names the first broken one and where.
pub fn judge_taken(
    alloc: Global,
    graph: &LargeGraph,
    head: &LargeHead,
    taken: &TakenLinks,
) -> LargeJudging
    ensures { IfOk result (λ verdict. (certificate : LargeCertificate) → IsClaimTaken (AreTaken taken.now graph.now) certificate head.now
        → IsVerdictOf (rules_of graph.now certificate) verdict) }
{
    judge_taken_watched(alloc, graph, head, taken, &Unwatched)
}

/// As `judge_taken`, and `progress` is given the number of blocks of 64 sessions done where these are judged block by block: an order at
/// `Causal`, and runs beside links.
pub fn judge_taken_watched<P: Progress>(
    alloc: Global,
    graph: &LargeGraph,
    head: &LargeHead,
    taken: &TakenLinks,
    progress: &P,
) -> LargeJudging
    ensures { IfOk result (λ verdict. (certificate : LargeCertificate) → IsClaimTaken (AreTaken taken.now graph.now) certificate head.now
        → IsVerdictOf (rules_of graph.now certificate) verdict) }
{
    match head {
        LargeHead::Order(claim) => judge_order_watched(alloc, graph, claim, progress),
        LargeHead::Cycle(head) => judge_taken_cycle(alloc, graph, head, taken, progress),
    }
}
