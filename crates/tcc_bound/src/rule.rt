//! The rule of the word, and what each step on it reports.
ghost use Rattle.std.specs.Prelude.{ℕ};

use crate::known::View;
use atomic_table::{Join, Play, Split, TableRule};
use std::marker::{Brand, PhantomData};

/// The word is at most everything that a seat offered or saw, and not below the floor.
pub struct AtMostAll;

impl TableRule<(), View, ()> for AtMostAll {
    ghost use Rattle.tcc_bound.specs.{declared.known.View.TheVariants.Unnamed, private.Rule.Holds};

    ghost holds = { λ _ s. Holds s.words s.views };

    ghost first = { λ _. Unnamed };
}

/// The number that the maker of a bound names as its floor.
pub trait Floor {
    ghost number: { ℕ };
}

impl Floor for Brand {
    ghost number = { 0 };
}

/// The load that gives the first seat its floor.
pub struct Naming<F: Floor> {
    floor: PhantomData<F>,
}

impl<F: Floor> Play<(), View> for Naming<F> {
    ghost use Rattle.std.specs.Prelude.{◌≡◌};
    ghost use Rattle.tcc_bound.specs.{Knowing.newcomer, private.Rule.own_of};

    ghost then = { λ _ _ _ after. after ≡ own_of (newcomer F.number) };
}

/// The load of a look.
pub struct Looking;

impl Play<(), View> for Looking {
    ghost use Rattle.tcc_bound.specs.private.Rule.{Looks};

    ghost then = { λ _ before found after. Looks before found after };
}

/// The `fetch_min` of an offer.
pub struct Offering;

impl Play<(), View> for Offering {
    ghost use Rattle.tcc_bound.specs.private.Rule.{Offers};

    ghost then = { λ step before found after. Offers step.first before found after };
}

/// The load that makes another seat.
pub struct Splitting;

impl Split<View> for Splitting {
    ghost use Rattle.tcc_bound.specs.private.Rule.{split_view};

    ghost left = { λ view. view };

    ghost right = { split_view };
}

/// The load that makes one seat of two.
pub struct Joining;

impl Join<View> for Joining {
    ghost use Rattle.tcc_bound.specs.{declared.known.View.TheVariants.Spent, private.Rule.joint_view};

    ghost both = { joint_view };

    ghost spent = { Spent };
}
