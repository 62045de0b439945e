//! What the rule on links asks about a link. Where its walk comes step by step, none of the steps is held: it is
//! enough to know how many there are and where they lead. Each step takes one query of the graph.
ghost use Rattle.std.specs.Prelude.{◌≡◌, ◌<◌, ◌++◌, ◌∷◌, ◌↔◌, ℕ, List, [], All, IfOk, IsTrue, OnErr, OnOk, Some, length};
ghost use Rattle.tcc_reads.specs.History.{History, count};
ghost use Rattle.tcc_graph.specs.{Levels.IsAllowed, Levels.IsAllowedWalk, Levels.judged, Links.IsLink, Links.MayContradict, Links.link_cost, Links.link_from};
ghost use Rattle.tcc_graph.specs.Walks.{IsStep, IsStepBelow, step_from, step_to};
ghost use Rattle.tcc_graph.specs.declared.step.Step.{Step};
ghost use Rattle.tcc_cert.specs.{CycleRules.IsLinkBelow, Reading.with_walk};
ghost use Rattle.tcc_rules.specs.Known.{IsKnownLink, IsKnownWalk};

use tcc_graph::{LargeGraph, Level, Link, Step};
use tcc_txn::{Name, NoMemory};

/// What is known of a walk whose steps came one by one.
#[derive(Clone, Copy)]
pub struct KnownWalk {
    /// How many steps there are.
    steps: usize,
    /// Where they lead; none where one of them is not of the history, or does not begin where the one before it ends.
    end: Option<u32>,
    /// Whether all their numbers are below the count of transactions.
    are_below: bool,
}

/// Whether the step is one of the history.
fn is_step(graph: &LargeGraph, step: &Step) -> bool
    ensures { IsTrue result ↔ IsStep graph.now step.now }
{
    graph.is_link(Level::Causal, &Link::of(*step))
}

/// Where steps that led to `end` lead with one more.
fn led_on(graph: &LargeGraph, end: Option<u32>, step: &Step) -> Option<u32>
    ensures { (to : ℕ) → (result ≡ Some to) ↔ ((end ≡ Some (step_from step.now)) × IsStep graph.now step.now × (step_to step.now ≡ to)) }
{
    let end = end?;
    if step.from() != end || !is_step(graph, step) {
        return None;
    }
    Some(step.to())
}

/// Whether the numbers of some steps, and those of one more, are below the count of transactions.
fn are_steps_below(graph: &LargeGraph, are_below: bool, step: &Step) -> bool
    ensures { (walk : List Step) → (IsTrue are_below ↔ All (IsStepBelow (count graph.now)) walk)
        → IsTrue result ↔ All (IsStepBelow (count graph.now)) (walk ++ step.now ∷ []) }
{
    if !are_below {
        return false;
    }
    step.is_below(graph.count())
}

/// Whether a level allows a walk of this many steps.
fn is_allowed(level: Level, steps: usize) -> bool
    ensures { (walk : List Step) → steps ≡ length walk → IsTrue result ↔ ((0 < length walk) × IsAllowed level walk) }
{
    match level {
        Level::Causal => 0 < steps,
        Level::Atomic => steps == 1,
    }
}

impl KnownWalk {
    /// No step yet, of a walk that begins at `from`.
    pub fn new(from: u32) -> KnownWalk
        ensures { (h : History) → IsKnownWalk h from [] result }
    {
        KnownWalk {
            steps: 0,
            end: Some(from),
            are_below: true,
        }
    }

    /// One more step. Memory is refused only where 64 bits can't count the steps, and no text has so many. The walk then stays as it
    /// was.
    pub fn push(&mut self, graph: &LargeGraph, step: &Step) -> Result<(), NoMemory>
        ensures one { OnOk result ((from : ℕ) (walk : List Step) → IsKnownWalk graph.now from walk self.old
            → IsKnownWalk graph.now from (walk ++ step.now ∷ []) self.new) }
        ensures refused { OnErr result (self.new ≡ self.old) }
    {
        let Some(steps) = self.steps.checked_add(1) else {
            return Err(NoMemory);
        };
        self.steps = steps;
        self.end = led_on(graph, self.end, step);
        self.are_below = are_steps_below(graph, self.are_below, step);
        Ok(())
    }

    /// Whether all numbers of the link with this walk are below the count of transactions.
    pub fn is_link_below(&self, graph: &LargeGraph, head: &Link) -> bool
        ensures { (from : ℕ) (walk : List Step) → IsKnownWalk graph.now from walk self.now
            → IsTrue result ↔ IsLinkBelow (count graph.now) (with_walk head.now walk) }
    {
        let count = graph.count();
        match head {
            Link::Session { from, to } | Link::Reads { from, to, .. } => {
                *from < count && *to < count
            }
            Link::Derived {
                from,
                to,
                reader,
                ..
            } => *from < count && *to < count && *reader < count && self.are_below,
        }
    }

    /// Whether the walk leads to `to` and the level allows it.
    fn leads_to(&self, level: Level, to: u32) -> bool
        ensures { (h : History) (from : ℕ) (walk : List Step) → IsKnownWalk h from walk self.now
            → IsTrue result ↔ IsAllowedWalk (judged h level) from to walk }
    {
        match self.end {
            Some(end) => end == to && is_allowed(level, self.steps),
            None => false,
        }
    }

    /// How many steps the link with this walk unfolds to.
    fn cost(&self, head: &Link) -> Result<usize, NoMemory>
        ensures { IfOk result (λ cost. (h : History) (from : ℕ) (walk : List Step) → IsKnownWalk h from walk self.now
            → cost ≡ link_cost (with_walk head.now walk)) }
    {
        match head {
            Link::Session { .. } | Link::Reads { .. } => Ok(1),
            Link::Derived { .. } => self.steps.checked_add(1).ok_or(NoMemory),
        }
    }
}

/// Whether `reader` reads the key from `to`, and `from` is another writer of it.
fn may_contradict(graph: &LargeGraph, from: u32, to: u32, key: &Name, reader: u32) -> bool
    ensures { IsTrue result ↔ MayContradict graph.now from to key.now reader }
{
    let read = Link::Reads {
        from: to,
        to: reader,
        key: *key,
    };
    from != to && graph.is_link(Level::Causal, &read) && graph.is_writer(from, key)
}

/// What the rule asks about a link.
#[derive(Clone, Copy)]
pub struct KnownLink {
    /// Where it begins.
    pub(crate) from: u32,
    /// Where it ends.
    pub(crate) to: u32,
    /// Whether it is one of the history at the level.
    pub(crate) is_link: bool,
    /// How many steps it unfolds to.
    pub(crate) cost: usize,
}

impl KnownLink {
    /// What is known of a link that is held.
    pub fn of(graph: &LargeGraph, level: Level, link: &Link) -> KnownLink
        ensures { IsKnownLink (judged graph.now level) link.now result }
    {
        KnownLink {
            from: link.from(),
            to: link.to(),
            is_link: graph.is_link(level, link),
            cost: link.cost(),
        }
    }

    /// What is known of a link without its walk, and with what is known of that. Memory is refused only where 64 bits can't
    /// count its steps.
    pub fn of_walk(
        graph: &LargeGraph,
        level: Level,
        head: &Link,
        walk: &KnownWalk,
    ) -> Result<KnownLink, NoMemory>
        ensures { IfOk result (λ known. (steps : List Step) → IsKnownWalk graph.now (link_from head.now) steps walk.now
            → IsKnownLink (judged graph.now level) (with_walk head.now steps) known) }
    {
        let cost = walk.cost(head)?;
        Ok(KnownLink {
            from: head.from(),
            to: head.to(),
            is_link: is_known_link(graph, level, head, walk),
            cost,
        })
    }
}

/// Whether the link with this walk is one of the history at the level.
fn is_known_link(graph: &LargeGraph, level: Level, head: &Link, walk: &KnownWalk) -> bool
    ensures { (steps : List Step) → IsKnownWalk graph.now (link_from head.now) steps walk.now
        → IsTrue result ↔ IsLink (judged graph.now level) (with_walk head.now steps) }
{
    match head {
        Link::Session { .. } => graph.is_link(level, head),
        Link::Reads { .. } => graph.is_link(level, head),
        Link::Derived {
            from,
            to,
            key,
            reader,
            ..
        } => may_contradict(graph, *from, *to, key, *reader) && walk.leads_to(level, *reader),
    }
}
