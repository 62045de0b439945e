//! Rows of places: of each session the place up to which its transactions come before one, or were observed by it.
ghost use Rattle.std.specs.Prelude.{◌≡◌, ◌≤◌, ◌<◌, ◌==◌, nat_le, ℕ, max, length, slice_index, All, IfOk, if◌then◌else◌};
ghost use Rattle.tcc_watch.specs.private.Rows.{IsRowOver};
ghost use Rattle.tcc_forget.specs.Slots.{AreWide};

use crate::at::SessionPlace;
use std::alloc::Global;
use std::marker::Model;
use tcc_txn::NoMemory;

/// Of each session a place, or 0 where there is none.
#[derive(Drop)]
pub(crate) struct ReachRow {
    places: Vec<u32>,
}

impl Model for ReachRow {
    ghost use Rattle.std.specs.Prelude.{ℕ, List};

    ghost Value = { List ℕ };

    ghost view = { λ r. r.places.items };
}

/// The greater of the two places of each session.
fn raise_each(places: &mut [u32], other: &[u32])
    requires { length other.now ≡ length places.old }
    ensures { (session : ℕ) → slice_index places.new session ≡ max (slice_index other.now session) (slice_index places.old session) }
{
    for (session, place) in other.iter().enumerate() {
        places[session] = places[session].max(*place);
    }
}

impl ReachRow {
    /// None of so many sessions.
    pub(crate) fn new(alloc: Global, sessions: usize) -> Result<ReachRow, NoMemory>
        ensures long { IfOk result (λ row. length row ≡ sessions) }
        ensures none { IfOk result (λ row. (session : ℕ) → slice_index row session ≡ 0) }
    {
        Ok(ReachRow {
            places: vec![in alloc; 0u32; sessions]?,
        })
    }

    /// Whether it goes to a place of its session.
    pub(crate) fn goes_to(&self, at: SessionPlace) -> bool
        ensures { result ≡ nat_le at.place (slice_index self.now at.session) }
    {
        match self.places.get(at.session as usize) {
            Some(place) => at.place <= *place,
            None => at.place == 0,
        }
    }

    /// An equal row.
    pub(crate) fn copy(&self, alloc: Global) -> Result<ReachRow, NoMemory>
        ensures { IfOk result (λ copy. copy ≡ self.now) }
    {
        Ok(ReachRow {
            places: self.places.as_slice().to_vec(alloc)?,
        })
    }

    /// Goes as far as another, where that goes further.
    pub(crate) fn raise(&mut self, other: &ReachRow)
        requires { length other.now ≡ length self.old }
        ensures long { length self.new ≡ length self.old }
        ensures raised { (session : ℕ) → slice_index self.new session ≡ max (slice_index other.now session) (slice_index self.old session) }
    {
        raise_each(&mut self.places, &other.places);
    }

    /// Goes to this place of its session, and as far as before in others.
    pub(crate) fn put(&mut self, at: SessionPlace)
        requires { at.session < length self.old }
        ensures long { length self.new ≡ length self.old }
        ensures put { (session : ℕ) → slice_index self.new session ≡ (if session == at.session then at.place else slice_index self.old session) }
    {
        self.places[at.session as usize] = at.place;
    }
}

/// The row of a transaction over the rows of those right before it, and to its own place.
pub(crate) fn row_over(
    alloc: Global,
    sessions: usize,
    rows: &[ReachRow],
    parents: &[u32],
    at: SessionPlace,
) -> Result<ReachRow, NoMemory>
    requires inside { All (λ p. p < length rows.now) parents.now }
    requires wide { AreWide sessions rows.now }
    requires own { at.session < sessions }
    ensures over { IfOk result (IsRowOver rows.now parents.now at.session at.place) }
    ensures long { IfOk result (λ row. length row ≡ sessions) }
{
    let mut row = ReachRow::new(alloc, sessions)?;
    for parent in parents {
        row.raise(&rows[*parent as usize]);
    }
    row.put(at);
    Ok(row)
}
