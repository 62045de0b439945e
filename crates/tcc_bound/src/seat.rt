//! The seat that a thread works with.
use crate::known::View;
use atomic_table::Seat as Token;
use std::marker::Model;

/// A seat at a bound. It has no bytes, and may go to another thread.
///
/// Contracts see which bound it is of, the floor of that bound, and the word as it was last reported to the seat (its
/// sight). They also see the costs that it and all seats joined into it offered. The offers and the sight of a seat that is
/// dropped still count.
#[derive(Drop)]
pub struct Seat {
    pub(crate) token: Token<(), View>,
}

impl Model for Seat {
    ghost use Rattle.tcc_bound.specs.{Seated.Seated, private.Rule.known_of, private.Rule.IsLive};

    ghost Value = { Seated };

    ghost view = { λ s. record { bound = s.token.table_id; known = known_of s.token.me.0 } };

    ghost invariant = { λ s. IsLive s.token.me };
}
