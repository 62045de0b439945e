//! What the rule of a bound keeps of each seat. No value of these types is made: they exist only in proofs.
use std::collections::LinkedList;

/// What a seat knows.
pub struct Known {
    /// No cost that is offered is below it.
    pub floor: u64,
    /// The word as it was last reported to the seat; `u64::MAX` before.
    pub sight: u64,
    /// The costs that it, and the seats joined into it, offered.
    pub offers: LinkedList<u64>,
}

/// The view of one seat.
pub enum View {
    /// The seat that the word comes with, before the floor is named.
    Unnamed,
    /// A seat that was handed out. It stays so when it is dropped.
    Live(Known),
    /// A seat that was joined into another, which has taken over what it knew.
    Spent,
}
