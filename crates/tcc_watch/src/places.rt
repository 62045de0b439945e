//! Rows of places: how far each session has to come before a transaction.
ghost use Rattle.std.specs.Prelude.{◌≡◌, ◌≤◌, ◌<◌, ◌==◌, nat_le, ℕ, [], max, length, slice_index, All, IfOk, OnOk, if◌then◌else◌};
ghost use Rattle.tcc_watch.specs.private.Rows.{IsRowOver};

use crate::at::At;
use std::alloc::Global;
use std::marker::Model;
use tcc_txn::NoMemory;

/// How far each session has to come before a transaction: of each the last place, and 0 past the end.
#[derive(Drop)]
pub(crate) struct Places {
    places: Vec<u32>,
}

impl Model for Places {
    ghost use Rattle.std.specs.Prelude.{ℕ, List};

    ghost Value = { List ℕ };

    ghost view = { λ p. p.places.items };
}

/// Room for `len` sessions.
fn extend(places: &mut Vec<u32>, len: usize) -> Result<(), NoMemory>
    ensures long { OnOk result (len ≤ length places.new.items) }
    ensures same { OnOk result ((session : ℕ) → slice_index places.new.items session ≡ slice_index places.old.items session) }
{
    for _session in places.len()..len {
        places.push(0)?;
    }
    Ok(())
}

/// The greater of the two places of each session.
fn raise_each(places: &mut [u32], other: &[u32])
    requires { length other.now ≤ length places.old }
    ensures { (session : ℕ) → slice_index places.new session ≡ max (slice_index other.now session) (slice_index places.old session) }
{
    for (session, place) in other.iter().enumerate() {
        places[session] = places[session].max(*place);
    }
}

impl Places {
    /// No session has to come.
    pub(crate) fn new(alloc: Global) -> Places
        ensures { result ≡ [] }
    {
        Places {
            places: Vec::new(alloc),
        }
    }

    /// None of so many sessions has to come.
    fn with_room(alloc: Global, sessions: usize) -> Result<Places, NoMemory>
        ensures { IfOk result (λ row. (session : ℕ) → slice_index row session ≡ 0) }
    {
        Ok(Places {
            places: vec![in alloc; 0u32; sessions]?,
        })
    }

    /// How far a session has to come.
    pub(crate) fn at(&self, session: u32) -> u32
        ensures { result ≡ slice_index self.now session }
    {
        match self.places.get(session as usize) {
            Some(place) => *place,
            None => 0,
        }
    }

    /// Whether it goes to a place of its session.
    pub(crate) fn goes_to(&self, at: At) -> bool
        ensures { result ≡ nat_le at.place (slice_index self.now at.session) }
    {
        at.place <= self.at(at.session)
    }

    /// An equal row.
    pub(crate) fn copy(&self, alloc: Global) -> Result<Places, NoMemory>
        ensures { IfOk result (λ copy. copy ≡ self.now) }
    {
        Ok(Places {
            places: self.places.iter().copied().collect(alloc)?,
        })
    }

    /// Goes as far as another, where that goes further.
    pub(crate) fn raise(&mut self, other: &Places) -> Result<(), NoMemory>
        ensures { OnOk result ((session : ℕ) → slice_index self.new session ≡ max (slice_index other.now session) (slice_index self.old session)) }
    {
        extend(&mut self.places, other.places.len())?;
        raise_each(&mut self.places, &other.places);
        Ok(())
    }

    /// Goes to this place of its session, and as far as before in others.
    pub(crate) fn put(&mut self, at: At) -> Result<(), NoMemory>
        ensures { OnOk result ((session : ℕ) → slice_index self.new session
            ≡ (if session == at.session then at.place else slice_index self.old session)) }
    {
        extend(&mut self.places, at.session as usize + 1)?;
        self.places[at.session as usize] = at.place;
        Ok(())
    }
}

/// How many sessions the row of a transaction has over the rows of others, so that it is made once and doesn't grow.
fn sessions_over(rows: &[Places], parents: &[u32], at: At) -> usize
    requires { All (λ p. p < length rows.now) parents.now }
{
    let mut sessions = at.session as usize + 1;
    for parent in parents {
        let row = &rows[*parent as usize];
        sessions = sessions.max(row.places.len());
    }
    sessions
}

/// The row of a transaction over the rows of those right before it.
pub(crate) fn row_over(
    alloc: Global,
    rows: &[Places],
    parents: &[u32],
    at: At,
) -> Result<Places, NoMemory>
    requires { All (λ p. p < length rows.now) parents.now }
    ensures { IfOk result (IsRowOver rows.now parents.now at.session at.place) }
{
    let mut row = Places::with_room(alloc, sessions_over(rows, parents, at))?;
    for parent in parents {
        row.raise(&rows[*parent as usize])?;
    }
    row.put(at)?;
    Ok(row)
}
