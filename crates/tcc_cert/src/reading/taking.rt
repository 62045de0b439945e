//! The links of a claim, given line by line to a taker, so that none of them is held here.
ghost use Rattle.std.specs.Prelude.{◌≡◌, ◌++◌, ◌∷◌, [], List, OnOk};
ghost use Rattle.tcc_reads.specs.History.{History};
ghost use Rattle.tcc_graph.specs.declared.link.Link.{Link};
ghost use Rattle.tcc_cert.specs.{private.Inputs.AsBefore, private.Inputs.GivesSuch, InputBytes.IsAt};
ghost use Rattle.tcc_cert.specs.Reading.{Position, head_line, link_at, repeated, step_line, words};
ghost use Rattle.tcc_cert.specs.declared.large.LinksSizes.{LinksSizes};
ghost use Rattle.tcc_cert.specs.declared.ranges.TextFormat.TheVariants.{Large};

use super::forms::HeaderLine;
use super::input::Input;
use super::words::next_line;
use crate::ranges::TextFormat;
use crate::{CertFault, CertFaultKind, TakesLinks};
use std::alloc::Global;
use std::io::Read;
use tcc_graph::Step;

/// The next `count` steps of a walk.
fn give_walk<S: TakesLinks, R: Read>(
    alloc: Global,
    input: &mut Input<R>,
    count: u32,
    taker: &mut S,
) -> Result<(), CertFault>
    ensures works { OnOk result (AsBefore input.old input.new) }
    ensures gives { (at : Position) (h : History) (sizes : LinksSizes) (links : List Link) (head : Link) → IsAt R.remaining input.old at → S.takes taker.old h sizes links head []
        → GivesSuch R.remaining at (repeated (words Large (step_line Large)) count at) (λ walk _. S.takes taker.new h sizes links head walk) result input.new }
    ensures ready { (h : History) → S.ready taker.old h → S.ready taker.new h }
{
    'steps: for _ in 0..count {
        let one = next_line::<Step, R>(alloc, input, TextFormat::Large)?;
        match taker.step(one) {
            Ok(()) => {}
            Err(_) => return Err(input.fault(CertFaultKind::NoMemory)),
        }
    }
    Ok(())
}

/// The line that a link begins with, and how many steps its walk has.
fn begin_link<S: TakesLinks, R: Read>(
    alloc: Global,
    input: &mut Input<R>,
    taker: &mut S,
) -> Result<u32, CertFault>
    ensures works { OnOk result (AsBefore input.old input.new) }
    ensures gives { (at : Position) (h : History) (sizes : LinksSizes) (links : List Link) → IsAt R.remaining input.old at → S.took taker.old h sizes links
        → GivesSuch R.remaining at (words Large (head_line Large) at)
        (λ head steps. (steps ≡ head.steps) × S.takes taker.new h sizes links head.link []) result input.new }
    ensures ready { (h : History) → S.ready taker.old h → S.ready taker.new h }
{
    let head = next_line::<HeaderLine, R>(alloc, input, TextFormat::Large)?;
    let steps = head.steps;
    match taker.begin(head.link) {
        Ok(()) => Ok(steps),
        Err(_) => Err(input.fault(CertFaultKind::NoMemory)),
    }
}

/// One link, from the next lines.
fn give_link<S: TakesLinks, R: Read>(
    alloc: Global,
    input: &mut Input<R>,
    taker: &mut S,
) -> Result<(), CertFault>
    ensures works { OnOk result (AsBefore input.old input.new) }
    ensures gives { (at : Position) (h : History) (sizes : LinksSizes) (links : List Link) → IsAt R.remaining input.old at → S.took taker.old h sizes links
        → GivesSuch R.remaining at (link_at Large at) (λ link _. S.took taker.new h sizes (links ++ link ∷ [])) result input.new }
    ensures ready { (h : History) → S.ready taker.old h → S.ready taker.new h }
{
    let steps = begin_link(alloc, input, taker)?;
    give_walk(alloc, input, steps, taker)?;
    match taker.end() {
        Ok(()) => Ok(()),
        Err(_) => Err(input.fault(CertFaultKind::NoMemory)),
    }
}

/// The next `count` links.
pub(crate) fn give_links<S: TakesLinks, R: Read>(
    alloc: Global,
    input: &mut Input<R>,
    count: u32,
    taker: &mut S,
) -> Result<(), CertFault>
    ensures works { OnOk result (AsBefore input.old input.new) }
    ensures gives { (at : Position) (h : History) (sizes : LinksSizes) → IsAt R.remaining input.old at → S.took taker.old h sizes []
        → GivesSuch R.remaining at (repeated (link_at Large) count at) (λ links _. S.took taker.new h sizes links) result input.new }
    ensures ready { (h : History) → S.ready taker.old h → S.ready taker.new h }
{
    'links: for _ in 0..count {
        give_link(alloc, input, taker)?;
    }
    Ok(())
}
