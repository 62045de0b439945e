//! The rule on the links of a cycle, one link after the other, by what is known of each.
ghost use Rattle.std.specs.Prelude.{◌≡◌, ◌+◌, ◌<◌, ◌++◌, ◌∷◌, [], ◌↔◌, ℕ, All, IfOk, IsTrue, List, OnErr, OnOk, Some, get_or, length};
ghost use Rattle.tcc_graph.specs.{Levels.Judged, Levels.judged, Links.cost, declared.link.Link.Link};
ghost use Rattle.tcc_cert.specs.CycleRules.{IsFirstWrongLink, IsLinkBelow, IsLinkRight};
ghost use Rattle.tcc_rules.specs.{Known.IsKnownLink, Links.AreJudged, Links.AreSeenTo, Links.ends_or, Links.first_wrong, Links.left_behind};

use crate::KnownLink;
use tcc_graph::{LargeGraph, Level, Link};
use tcc_txn::NoMemory;

/// What the links that came so far show.
#[derive(Clone, Copy)]
pub struct LinksSeen {
    /// Where the first of them begins, and where the last ends.
    ends: Option<(u32, u32)>,
    /// The first, counted from 1, that is not of the history, or does not begin where the one before it ends.
    wrong: Option<usize>,
    /// What is left of the cost that is claimed; none where they cost more.
    left: Option<usize>,
}

/// Whether the link begins there and is one of the history.
fn is_link_right(at: u32, known: KnownLink) -> bool
    ensures { (j : Judged) (link : Link) → IsKnownLink j link known → IsTrue result ↔ IsLinkRight j at link }
{
    known.from == at && known.is_link
}

/// Where the first link begins and the last ends. Where there is none yet, both are where the next link begins.
fn ends_or(ends: Option<(u32, u32)>, from: u32) -> (u32, u32)
    ensures { result ≡ ends_or ends from }
{
    match ends {
        Some(ends) => ends,
        None => (from, from),
    }
}

/// The first wrong link, where the next has this number.
fn first_wrong(wrong: Option<usize>, is_right: bool, number: usize) -> Option<usize>
    ensures { result ≡ first_wrong wrong is_right number }
{
    match wrong {
        Some(first) => Some(first),
        None => { if is_right { None } else { Some(number) } }
    }
}

/// What is left after one more cost.
fn left_behind(left: Option<usize>, cost: usize) -> Option<usize>
    ensures { result ≡ left_behind left cost }
{
    match left {
        Some(left) => { if left < cost { None } else { Some(left - cost) } }
        None => None,
    }
}

/// No link yet, of a cycle that should cost `least`.
pub fn no_links(least: u32) -> LinksSeen
    ensures { (j : Judged) (links : List Link) → AreSeenTo j least links 0 result }
{
    LinksSeen {
        ends: None,
        wrong: None,
        left: Some(least as usize),
    }
}

/// One more link, the one with this number, counted from 1, by what is known of it.
fn with_known(seen: LinksSeen, number: usize, known: KnownLink) -> LinksSeen
    ensures { (j : Judged) (least i : ℕ) (links : List Link) (link : Link) → IsKnownLink j link known
        → number ≡ i + 1 → i < length links → link ≡ get_or links i link
        → AreSeenTo j least links i seen
        → AreSeenTo j least links (i + 1) result }
{
    let (begin, at) = ends_or(seen.ends, known.from);
    let is_right = is_link_right(at, known);
    LinksSeen {
        ends: Some((begin, known.to)),
        wrong: first_wrong(seen.wrong, is_right, number),
        left: left_behind(seen.left, known.cost),
    }
}

/// One more link, the one with this number, counted from 1.
pub fn with_link(
    seen: LinksSeen,
    graph: &LargeGraph,
    level: Level,
    number: usize,
    link: &Link,
) -> LinksSeen
    ensures { (least i : ℕ) (links : List Link) → number ≡ i + 1 → i < length links → link.now ≡ get_or links i link.now
        → AreSeenTo (judged graph.now level) least links i seen
        → AreSeenTo (judged graph.now level) least links (i + 1) result }
{
    with_known(seen, number, KnownLink::of(graph, level, link))
}

/// Whether nothing is left, and no more was taken than there was.
fn is_used_up(left: Option<usize>) -> bool
    ensures { IsTrue result ↔ (left ≡ Some 0) }
{
    match left {
        Some(left) => left == 0,
        None => false,
    }
}

/// The first link that is not right, counted from 1. A link is right if it is of the history and begins where the one
/// before it ends, the first where the last ends. It is 0 where each is right, but there are none or they have another
/// cost. It is none where the rule holds.
fn broken_at(seen: LinksSeen) -> Option<usize>
    ensures { (j : Judged) (most : ℕ) (links : List Link) → AreSeenTo j most links (length links) seen → IsFirstWrongLink j most links result }
{
    let Some((begin, end)) = seen.ends else {
        return Some(0);
    };
    if begin != end {
        return Some(1);
    }
    if let Some(first) = seen.wrong {
        return Some(first);
    }
    if is_used_up(seen.left) { None } else { Some(0) }
}

/// The first wrong link as a verdict has it, in 32 bits, where all links came.
pub fn seen_wrong(seen: LinksSeen) -> Result<Option<u32>, NoMemory>
    ensures { (j : Judged) (most : ℕ) (links : List Link) → AreSeenTo j most links (length links) seen
        → IfOk result (IsFirstWrongLink j most links) }
{
    let Some(at) = broken_at(seen) else {
        return Ok(None);
    };
    match u32::try_from(at) {
        Ok(at) => Ok(Some(at)),
        Err(_) => Err(NoMemory),
    }
}

/// The first of the links that is not right, counted from 1. A link is right if it is of the history at the level and
/// begins where the one before it ends, the first where the last ends. It is 0 where each is right, but there are none or
/// they have another cost. It is none where they are a cycle of that cost. It takes one pass, and a query of the graph for
/// each link.
pub fn first_wrong_link(
    graph: &LargeGraph,
    level: Level,
    cost: u32,
    links: &[Link],
) -> Result<Option<u32>, NoMemory>
    ensures { IfOk result (IsFirstWrongLink (judged graph.now level) cost links.now) }
{
    let mut seen = no_links(cost);
    for (before, link) in links.iter().enumerate() {
        seen = with_link(seen, graph, level, before + 1, link);
    }
    seen_wrong(seen)
}

/// The links of a cycle, judged one by one as they come, so that none has to be held.
#[derive(Clone, Copy)]
pub struct LinksJudge {
    seen: LinksSeen,
    count: usize,
}

impl LinksJudge {
    /// No link yet, of a cycle that should cost `cost`.
    pub fn new(cost: u32) -> LinksJudge
        ensures { (j : Judged) → AreJudged j cost [] result }
    {
        LinksJudge {
            seen: no_links(cost),
            count: 0,
        }
    }

    /// One more link. Where memory is refused, since 64 bits can't count the links, it stays as it was.
    pub fn judge(&mut self, graph: &LargeGraph, level: Level, link: &Link) -> Result<(), NoMemory>
        ensures one { OnOk result ((most : ℕ) (links : List Link) → AreJudged (judged graph.now level) most links self.old
            → AreJudged (judged graph.now level) most (links ++ link.now ∷ []) self.new) }
        ensures refused { OnErr result (self.new ≡ self.old) }
    {
        self.judge_known(KnownLink::of(graph, level, link))?;
        Ok(())
    }

    /// One more link, by what is known of it. Where memory is refused it stays as it was.
    pub fn judge_known(&mut self, known: KnownLink) -> Result<(), NoMemory>
        ensures one { OnOk result ((j : Judged) (most : ℕ) (links : List Link) (link : Link) → IsKnownLink j link known
            → AreJudged j most links self.old → AreJudged j most (links ++ link ∷ []) self.new) }
        ensures refused { OnErr result (self.new ≡ self.old) }
    {
        // No text has so many.
        let Some(number) = self.count.checked_add(1) else {
            return Err(NoMemory);
        };
        self.seen = with_known(self.seen, number, known);
        self.count = number;
        Ok(())
    }

    /// Whether they cost more than the cycle should.
    pub fn is_over(&self) -> bool
        ensures { (j : Judged) (most : ℕ) (links : List Link) → AreJudged j most links self.now → IsTrue result ↔ (most < cost links) }
    {
        match self.seen.left {
            Some(_) => false,
            None => true,
        }
    }

    /// The first wrong one, where all of them came, as `first_wrong_link` has it.
    pub fn first_wrong(&self) -> Result<Option<u32>, NoMemory>
        ensures { (j : Judged) (most : ℕ) (links : List Link) → AreJudged j most links self.now → IfOk result (IsFirstWrongLink j most links) }
    {
        seen_wrong(self.seen)
    }
}

/// Whether all numbers in links are below the count.
pub fn are_links_below(links: &[Link], count: u32) -> bool
    ensures { IsTrue result ↔ All (IsLinkBelow count) links.now }
{
    links.iter().all(|link| link.is_below(count))
}
