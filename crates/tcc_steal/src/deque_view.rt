//! What the rule of the deque of starts keeps of each pass. No value of the type is made: it exists only in proofs.
use std::collections::LinkedList;

/// The view of one pass.
pub struct PassView {
    /// It may push starts, and is the only pass.
    pub may_push: bool,
    /// It was handed out.
    pub live: bool,
    /// How many starts were pushed: all the numbers below it.
    pub pushed: u64,
    /// The starts that it took.
    pub starts: LinkedList<u32>,
}
