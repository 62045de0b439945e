//! The bound and its steps.
ghost use Rattle.std.specs.Prelude.{◌≡◌, ℕ, ◌<◌, ◌≤◌, ◌^◌, [], IfOk};
ghost use Rattle.tcc_bound.specs.{private.Rule.own_of, declared.known.View.TheVariants.Unnamed};
ghost use Rattle.tcc_bound.specs.Knowing.{newcomer, with_sight, with_offer, without_offers, both_of, IsAtMostAll};

use crate::known::View;
use crate::rule::{AtMostAll, Floor, Joining, Looking, Naming, Offering, Splitting};
use crate::seat::Seat;
use atomic_table::{Seat as Token, Shared, Table};
use std::alloc::{AllocError, Global};
use std::marker::{Brand, Model};

/// The least cost that was offered, in one word that all threads share; `u64::MAX` where there is none.
///
/// Threads share it by reference, and each of its calls but `new` takes a seat of this bound.
#[derive(Drop)]
pub struct Bound {
    table: Table<(), View, (), AtMostAll, Global>,
}

impl Model for Bound {
    ghost use Rattle.std.specs.Prelude.{◌≡◌};
    ghost use Rattle.atomic_table.specs.Seated.{table_id_coded};
    ghost use Rattle.tcc_bound.specs.Seated.{BoundId};

    ghost Value = { BoundId };

    ghost coded = { table_id_coded };

    ghost view = { λ b. b.table.shared.table_id };

    ghost invariant = { λ b. (b.table.shared.table_id.words ≡ 1) × (b.table.shared.table_id.slots ≡ 0) };
}

// Names the floor in the view of the first seat, which is alone, by a load.
fn name<F: Floor>(shared: &Shared<(), View, (), AtMostAll>, token: &mut Token<(), View>)
    requires table { (token.old.table_id ≡ shared.now.table_id) × (shared.now.table_id.words ≡ 1) }
    requires first { token.old.me ≡ (Unnamed, []) }
    requires floor { F.number < 2 ^ 64 }
    ensures table { token.new.table_id ≡ token.old.table_id }
    ensures named { token.new.me ≡ own_of (newcomer F.number) }
{
    shared.load::<Naming<F>>(token, 0);
}

impl Bound {
    /// A bound to which nothing was offered, and its first seat. Its one word takes memory, so it returns `AllocError`
    /// where there is none.
    ///
    /// The caller names the floor, a number that only contracts see. No offer may be below it, and so the word never is.
    pub fn new(alloc: Global) -> Result<(Bound, Seat), AllocError>
        ghost floor: { ℕ }
        requires { floor < 2 ^ 64 }
        ensures { IfOk result (λ made. made.1 ≡ record { bound = made.0; known = newcomer floor }) }
    {
        let (table, mut token) = Table::of_words(alloc, &[u64::MAX], &())?;
        name::<Brand>(&table.shared, &mut token);
        Ok((Bound { table }, Seat { token }))
    }

    /// Another seat, for another thread. It has seen what the seat saw, and offered nothing.
    #[tactic(auto, using(crate::proofs::Keeping::splits))]
    pub fn split(&self, seat: &mut Seat) -> Seat
        requires { seat.old.bound ≡ self.now }
        ensures same { seat.new ≡ seat.old }
        ensures new { result ≡ record seat.old { known = without_offers seat.old.known } }
    {
        let token = self.table.shared.split_seat::<Splitting>(&mut seat.token);
        Seat { token }
    }

    /// Takes in another seat: its offers are the seat's own from now on, and the lower of both sights is kept.
    #[tactic(auto, using(crate::proofs::Keeping::joins))]
    pub fn join(&self, seat: &mut Seat, other: Seat)
        requires seat { seat.old.bound ≡ self.now }
        requires other { other.bound ≡ self.now }
        ensures { seat.new ≡ record seat.old { known = both_of seat.old.known other.known } }
    {
        let shared = &self.table.shared;
        shared.join_seat::<Joining>(&mut seat.token, other.token);
    }

    /// The word as it is, by one load: at most everything that the seat offered or saw, and not below the floor.
    pub fn look(&self, seat: &mut Seat) -> u64
        requires { seat.old.bound ≡ self.now }
        ensures least { IsAtMostAll result seat.old.known }
        ensures floor { seat.old.known.floor ≤ result }
        ensures seat { seat.new ≡ record seat.old { known = with_sight seat.old.known result } }
    {
        self.table.shared.load::<Looking>(&mut seat.token, 0)
    }

    /// Lowers the word to the cost, unless it is that low already, and returns it as it then is, by one `fetch_min`.
    ///
    /// A cost is below `u64::MAX`, which means no cost, and not below the floor.
    pub fn offer(&self, seat: &mut Seat, cost: u64) -> u64
        requires bound { seat.old.bound ≡ self.now }
        requires cost { (seat.old.known.floor ≤ cost) × (cost < u64.MAX) }
        ensures cost { result ≤ cost }
        ensures least { IsAtMostAll result seat.old.known }
        ensures floor { seat.old.known.floor ≤ result }
        ensures seat { seat.new ≡ record seat.old { known = with_sight (with_offer seat.old.known cost) result } }
    {
        let shared = &self.table.shared;
        let found = shared.fetch_min::<Offering>(&mut seat.token, 0, cost);
        found.min(cost)
    }

    /// The last word, and the end of the bound. It is at most everything that the seat, and each that was joined into it,
    /// offered or saw, and not below the floor. Other seats of this bound are of no more use.
    pub fn close(self, seat: Seat) -> u64
        requires { seat.bound ≡ self }
        ensures least { IsAtMostAll result seat.known }
        ensures floor { seat.known.floor ≤ result }
    {
        let closed = self.table.close_with(seat.token);
        let word = closed.word(0);
        closed.free();
        word
    }
}
