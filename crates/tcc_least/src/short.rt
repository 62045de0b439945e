//! The first cycle of few steps.
ghost use Rattle.std.specs.Prelude.{◌≡◌, ◌≤◌, ◌<◌, ℕ, min, MatchOption, Some};
ghost use Rattle.tcc_graph.specs.{Levels.judged, declared.level.Level.Level};
ghost use Rattle.tcc_least.specs.Shapes.{NoneBelow, SomeBelow, IsRound, IsReturn, IsFirstShort};

use crate::returning::first_return;
use crate::rounds::first_round;
use tcc_graph::LargeGraph;

/// The place of a cycle that costs at most three steps.
#[derive(Clone, Copy, Debug, PartialEq, Eq)]
pub enum ShortCycle {
    /// At most three pairs lead round, and in one of them `to` reads from `from`.
    Round { from: u32, to: u32 },
    /// A derived link of two steps leads from `from` to `to`, and a pair leads back.
    Return { from: u32, to: u32 },
}

/// The cost, or 4 if it is more.
pub(crate) fn up_to_four(cost: u64) -> u64
    ensures { result ≡ min cost 4 }
{
    if cost < 4 { cost } else { 4 }
}

/// The first place of a cycle that costs less than `cost` steps, or less than 4 if `cost` is greater. There is none exactly if
/// no cycle costs less than that, at each level. No memory is allocated.
pub fn short_cycle(graph: &LargeGraph, cost: u64) -> Option<ShortCycle>
    ensures place { MatchOption result (Unit {0}) (IsFirstShort graph.now (min cost 4)) }
    ensures cycle { (level : Level) → MatchOption result (NoneBelow (judged graph.now level) (min cost 4))
        (λ place. SomeBelow (judged graph.now level) (min cost 4)) }
{
    let below = up_to_four(cost);
    if let Some((from, to)) = first_round(graph, below) {
        return Some(ShortCycle::Round { from, to });
    }
    if below <= 3 {
        return None;
    }
    match first_return(graph) {
        Some((from, to)) => Some(ShortCycle::Return { from, to }),
        None => None,
    }
}
