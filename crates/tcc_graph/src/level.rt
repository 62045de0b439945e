//! The levels at which a history is judged.

/// How far the walk of a reason may go: what the axiom requires of a write that contradicts a read.
#[derive(Clone, Copy)]
pub enum Level {
    /// Any causal walk: the history has to be causally consistent.
    Causal,
    /// A single session or reads-from pair: the history has to keep Read Atomic.
    Atomic,
}
