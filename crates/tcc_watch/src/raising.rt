//! One link more in rows that say what has to come before what. The row of its end, and those of all that come after that, go as far
//! as the row of its start. In a session these are neighbours, and a galloping search finds the first: what comes after a new link is
//! near the end of each session. For S sessions of N transactions that takes O(S log N) steps at most, and S for each row that is
//! raised.
ghost use Rattle.std.specs.Prelude.{OnOk};
ghost use Rattle.tcc_reads.specs.History.{History};
ghost use Rattle.tcc_watch.specs.private.Rows.{AreRising, AreRaised, CanRaise, IsFirstWith, IsRaised};

use crate::at::At;
use crate::places::Places;
use crate::probing::probed;
use std::alloc::Global;
use tcc_bits::Row;
use tcc_txn::NoMemory;

/// The index of the first of these numbers whose row goes to a place; their count where none does.
fn first_with(rows: &[Places], numbers: &[u32], at: At) -> usize
    requires { AreRising rows.now numbers.now }
    ensures { IsFirstWith rows.now numbers.now at result }
{
    let mut low = 0;
    let mut high = numbers.len();
    while low < high {
        let middle = probed(low, high, numbers.len());
        if rows[numbers[middle] as usize].goes_to(at) {
            high = middle;
        } else {
            low = middle + 1;
        }
    }
    low
}

/// Raises to a row those of these that go to `a` and not to `b`.
fn raise_session(
    rows: &mut [Places],
    numbers: &[u32],
    row: &Places,
    a: At,
    b: At,
) -> Result<(), NoMemory>
    requires { AreRising rows.old numbers.now }
    ensures { OnOk result (AreRaised a b row.now rows.old rows.new numbers.now) }
{
    for index in first_with(rows, numbers, a)..numbers.len() {
        if rows[numbers[index] as usize].goes_to(b) {
            return Ok(());
        }
        rows[numbers[index] as usize].raise(row)?;
    }
    Ok(())
}

/// Makes `b` come before `a`, and before all that come after `a`.
pub(crate) fn raise(
    alloc: Global,
    rows: &mut [Places],
    stands: &[At],
    members: &[Row<u32>],
    b: u32,
    a: u32,
) -> Result<(), NoMemory>
    ghost h: { History }
    requires { CanRaise h rows.old stands.now members.now b a }
    ensures { OnOk result (IsRaised h rows.old rows.new b a) }
{
    let row = rows[b as usize].copy(alloc)?;
    for numbers in members {
        raise_session(
            rows,
            numbers.as_slice(),
            &row,
            stands[a as usize],
            stands[b as usize],
        )?;
    }
    Ok(())
}
