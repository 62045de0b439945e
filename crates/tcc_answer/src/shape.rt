//! The shapes of anomalies.
ghost use Rattle.std.specs.Prelude.{◌≡◌};
ghost use Rattle.tcc_answer.specs.Shapes.{shape_of};

use tcc_graph::Link;

/// What an anomaly looks like, by the derived links of its cycle.
#[derive(Clone, Copy, Debug, PartialEq, Eq)]
pub enum Shape {
    /// There is none: session order and reads alone lead round.
    CyclicCausality,
    /// There is one, into `init`: a read of the initial value, though a later one was known.
    StaleInitialRead,
    /// There is one, into another transaction: a read of a value that was known to be overwritten.
    OverwrittenRead,
    /// There are two or more.
    ConflictCycle,
}

/// The shape of an anomaly with these links.
pub fn shape_of(links: &[Link]) -> Shape
    ensures { result ≡ shape_of links.now }
{
    let mut end = None;
    for link in links {
        if let Link::Derived { to, .. } = link {
            if end.is_some() {
                return Shape::ConflictCycle;
            }
            end = Some(*to);
        }
    }
    match end {
        None => Shape::CyclicCausality,
        Some(0) => Shape::StaleInitialRead,
        Some(_) => Shape::OverwrittenRead,
    }
}
