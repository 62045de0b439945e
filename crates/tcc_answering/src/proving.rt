//! Whether a cycle of more than four steps is a least one. An order comes with it, which need not be trusted. The judge of certificates is
//! given the claim that the cycle is a least one, with the runs of that order, and the claim is made where it accepts.
ghost use Rattle.std.specs.Prelude.{◌≡◌, ◌↔◌, IfOk, IsTrue, MatchOption};
ghost use Rattle.tcc_cert.specs.LargeTexts.{HasLeastText};
ghost use Rattle.tcc_answering.specs.Provable.{IsProvable, claim_by};

use crate::claims::{copied, steps_of};
use crate::room::have_runs_text;
use std::alloc::Global;
use tcc_cert::{Links, LinksClaim, runs_of};
use tcc_graph::{LargeGraph, Level, Link};
use tcc_judge::{LargeVerdict, judge_cycle};
use tcc_lanes::MOST_STEPS;
use tcc_txn::NoMemory;

/// The claim that the links are a least cycle, with the runs of an order.
fn claim_with(
    alloc: Global,
    graph: &LargeGraph,
    level: Level,
    links: &[Link],
    order: &[u32],
) -> Result<LinksClaim, NoMemory>
    ensures { IfOk result (λ claim. claim ≡ claim_by level graph.now links.now order.now) }
{
    let cost = steps_of(links)?;
    let runs = runs_of(alloc, graph, order)?;
    let links = Links::new(copied(alloc, links)?);
    Ok(LinksClaim {
        level,
        transactions: graph.count(),
        links,
        cost,
        least: Some(runs),
    })
}

/// Whether a text has room for the runs of a claim.
fn has_room(claim: &LinksClaim) -> bool
    ensures { IsTrue result ↔ HasLeastText claim.now.least }
{
    match &claim.least {
        Some(runs) => have_runs_text(runs.as_slice()),
        None => true,
    }
}

/// The claim that the links are a least cycle, with the runs of an order, exactly where the judge accepts it and its text has room for
/// them.
pub fn proved_claim(
    alloc: Global,
    graph: &LargeGraph,
    level: Level,
    links: &[Link],
    order: &[u32],
) -> Result<Option<LinksClaim>, NoMemory>
    ensures { IfOk result (λ found. MatchOption found
        (IsProvable graph.now (claim_by level graph.now links.now order.now) → ⊥)
        (λ claim. (claim ≡ claim_by level graph.now links.now order.now) × IsProvable graph.now (claim_by level graph.now links.now order.now))) }
{
    let claim = claim_with(alloc, graph, level, links, order)?;
    // The judge decides nothing about cycles of more steps.
    if claim.cost > MOST_STEPS || !has_room(&claim) {
        return Ok(None);
    }
    match judge_cycle(alloc, graph, &claim)? {
        LargeVerdict::Accepted => Ok(Some(claim)),
        LargeVerdict::Rejected { .. } => Ok(None),
    }
}
