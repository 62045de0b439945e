//! The lines of links and of the steps of their walks.
ghost use Rattle.std.specs.Prelude.{◌≡◌, OnOk};
ghost use Rattle.tcc_cert.specs.{private.Inputs.AsBefore, private.Inputs.Gives, InputBytes.IsAt};
ghost use Rattle.tcc_cert.specs.Reading.{Position, link_at, repeated, with_walk};

use super::forms::HeaderLine;
use super::input::Input;
use super::words::{LineEntry, next_line};
use crate::ranges::TextFormat;
use crate::{CertFault, CertFaultKind};
use std::alloc::Global;
use std::io::Read;
use tcc_graph::{Link, Step, Walk};
use tcc_txn::ListOf;

/// The next `count` entries.
pub(crate) fn entries<E: LineEntry, R: Read>(
    alloc: Global,
    input: &mut Input<R>,
    scale: TextFormat,
    count: u32,
) -> Result<ListOf<E>, CertFault>
    ensures works { OnOk result (AsBefore input.old input.new) }
    ensures gives { (at : Position) → IsAt R.remaining input.old at → Gives R.remaining at (repeated (E.entry scale) count at) result input.new }
{
    let mut items = Vec::new(alloc);
    'entries: for _ in 0..count {
        let one = E::next(alloc, input, scale)?;
        match items.push(one) {
            Ok(()) => {}
            Err(_) => return Err(input.fault(CertFaultKind::NoMemory)),
        }
    }
    Ok(ListOf::new(items))
}

/// The link with these steps, if it is derived.
pub fn with_walk(link: Link, walk: Walk) -> Link
    ensures { result ≡ with_walk link walk }
{
    match link {
        Link::Session { from, to } => Link::Session { from, to },
        Link::Reads { from, to, key } => Link::Reads { from, to, key },
        Link::Derived {
            from,
            to,
            key,
            reader,
            walk: _,
        } => Link::Derived {
            from,
            to,
            key,
            reader,
            walk,
        },
    }
}

/// One link, from the next lines.
pub(crate) fn link<R: Read>(
    alloc: Global,
    input: &mut Input<R>,
    scale: TextFormat,
) -> Result<Link, CertFault>
    ensures works { OnOk result (AsBefore input.old input.new) }
    ensures gives { (at : Position) → IsAt R.remaining input.old at → Gives R.remaining at (link_at scale at) result input.new }
{
    let head = next_line::<HeaderLine, R>(alloc, input, scale)?;
    let walk = entries::<Step, R>(alloc, input, scale, head.steps)?;
    Ok(with_walk(head.link, walk))
}

impl LineEntry for Link {
    ghost entry = { link_at };

    fn next<R: Read>(
        alloc: Global,
        input: &mut Input<R>,
        scale: TextFormat,
    ) -> Result<Link, CertFault> {
        link(alloc, input, scale)
    }
}
