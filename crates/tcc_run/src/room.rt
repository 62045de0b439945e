//! Whether version 3 of the text has room for what is claimed: its numbers, its counts and its costs have ranges.
ghost use Rattle.std.specs.Prelude.{All, IfOk, IsTrue, List, Option, length, ℕ};
ghost use Rattle.tcc_graph.specs.{Levels.judged, Orders.IsCommitOrder, declared.level.Level.Level};
ghost use Rattle.tcc_cert.specs.{RunsTold.order_claim_of, declared.large.Run.Run, declared.ranges.TextFormat.TheVariants.Large};
ghost use Rattle.tcc_cert.specs.LargeTexts.{HasLeastText, HasLinksClaimText, HasRunsClaimText};
ghost use Rattle.tcc_cert.specs.Texts.{HasLinkText, HasStepText, IsCount};
ghost use Rattle.tcc_judge.specs.Claims.{links_claim_of};

use tcc_answering::steps_of;
use tcc_cert::laws::order_has_text;
use tcc_cert::version_3::{V3_MAX_COUNT, V3_MAX_NUMBER};
use tcc_graph::{LargeGraph, Link, Step};
use tcc_txn::NoMemory;

/// Whether there is room for a step.
fn has_step_text(step: &Step) -> bool
    ensures { IsTrue result → HasStepText Large step.now }
{
    if let Step::Reads { key, .. } = step {
        // This call ensures that a key is a name.
        let _name = key.bytes();
    }
    step.from() <= V3_MAX_NUMBER && step.to() <= V3_MAX_NUMBER
}

/// Whether there is room for a walk.
fn has_walk_text(walk: &[Step]) -> bool
    ensures { IsTrue result → IsCount Large (length walk.now) × All (HasStepText Large) walk.now }
{
    !walk.is_empty()
        && walk.len() <= V3_MAX_COUNT as usize
        && walk.iter().all(|step| has_step_text(step))
}

/// Whether there is room for a link.
fn has_link_text(link: &Link) -> bool
    ensures { IsTrue result → HasLinkText Large link.now }
{
    let has_ends = link.from() <= V3_MAX_NUMBER && link.to() <= V3_MAX_NUMBER;
    match link {
        Link::Session { .. } => has_ends,
        Link::Reads { key, .. } => {
            let _name = key.bytes();
            has_ends
        }
        Link::Derived {
            key,
            reader,
            walk,
            ..
        } => {
            let _name = key.bytes();
            has_ends && *reader <= V3_MAX_NUMBER && has_walk_text(walk.as_slice())
        }
    }
}

/// Whether there is room for the links of a cycle.
fn have_links_text(links: &[Link]) -> bool
    ensures { IsTrue result → IsCount Large (length links.now) × All (HasLinkText Large) links.now }
{
    !links.is_empty()
        && links.len() <= V3_MAX_COUNT as usize
        && links.iter().all(|link| has_link_text(link))
}

/// The claim of a cycle has a text, where the runs beside it do: memory cannot hold as many links as have none.
pub(crate) fn check_room(graph: &LargeGraph, links: &[Link]) -> Result<(), NoMemory>
    ensures { (level : Level) (least : Option (List Run)) → HasLeastText least
        → IfOk result (λ _. HasLinksClaimText (links_claim_of level graph.now links.now least)) }
{
    // This call says how large a history is.
    graph.count();
    if !have_links_text(links) {
        return Err(NoMemory);
    }
    steps_of(links)?;
    Ok(())
}

/// These calls ensure that the claim of an order has a text.
pub(crate) fn has_order_room(graph: &LargeGraph)
    ensures { (level : Level) (order : List ℕ) → IsCommitOrder (judged graph.now level) order → HasRunsClaimText (order_claim_of level graph.now order) }
{
    graph.count();
    graph.sessions();
    order_has_text();
}
