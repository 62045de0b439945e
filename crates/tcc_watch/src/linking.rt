//! The derived links that a transaction brings as their reader. It reads a key from one writer, and its clock reaches others. Of these
//! the last one of each session has to come before the one that is read. The earlier ones of a session come before its last one.
ghost use Rattle.std.specs.Prelude.{◌≡◌, ◌<◌, ◌++◌, ◌∷◌, [], nat_le, length, IfOk, MatchOption, OnOk};
ghost use Rattle.tcc_reads.specs.History.{History};
ghost use Rattle.tcc_watch.specs.private.Rows.{last_in};
ghost use Rattle.tcc_watch.specs.private.Links.{CanSettle, CanLink, CanLinkSession, IsSettled, IsLinkedIn, IsLinked, Reading, RisePlaces, IsCountWithin, IsLastWithin, NoneWithin};

use crate::at::At;
use crate::places::Places;
use crate::probing::probed;
use crate::raising::raise;
use std::alloc::Global;
use tcc_bits::Row;
use tcc_txn::NoMemory;

/// The writers of a key in one session, ascending.
#[derive(Drop)]
pub(crate) struct SessionWriters {
    pub session: u32,
    pub numbers: Row<u32>,
    /// The place of the last of them.
    pub last: u32,
}

impl SessionWriters {
    /// One more writer, the last.
    pub(crate) fn add(&mut self, number: u32, place: u32) -> Result<(), NoMemory>
        ensures { OnOk result (self.new ≡ record { session = self.old.session; numbers = self.old.numbers ++ number ∷ []; last = place }) }
    {
        self.numbers.push(number)?;
        self.last = place;
        Ok(())
    }
}

/// How many of these numbers, from the first on, are no further in their session than a place.
fn count_within(stands: &[At], numbers: &[u32], place: u32) -> usize
    requires { RisePlaces stands.now numbers.now }
    ensures { IsCountWithin stands.now numbers.now place result }
{
    let mut low = 0;
    let mut high = numbers.len();
    while low < high {
        let middle = probed(low, high, numbers.len());
        if stands[numbers[middle] as usize].place <= place {
            low = middle + 1;
        } else {
            high = middle;
        }
    }
    low
}

/// The last of these numbers that is no further in its session than a place.
fn last_within(stands: &[At], numbers: &[u32], place: u32) -> Option<u32>
    requires { RisePlaces stands.now numbers.now }
    ensures { MatchOption result (NoneWithin stands.now numbers.now place) (IsLastWithin stands.now numbers.now place) }
{
    let count = count_within(stands, numbers, place);
    if count == 0 {
        return None;
    }
    Some(numbers[count - 1])
}

/// Makes `b` come before `a`, unless it does already; false where `a` comes before `b`.
fn settle(
    alloc: Global,
    closure: &mut [Places],
    stands: &[At],
    members: &[Row<u32>],
    b: u32,
    a: u32,
) -> Result<bool, NoMemory>
    ghost h: { History }
    requires { CanSettle h closure.old stands.now members.now b a }
    ensures { IfOk result (IsSettled h closure.old closure.new b a) }
{
    if closure[a as usize].goes_to(stands[b as usize]) {
        return Ok(true);
    }
    if closure[b as usize].goes_to(stands[a as usize]) {
        return Ok(false);
    }
    raise(alloc, closure, stands, members, b, a)?;
    Ok(true)
}

/// Whether the last writer of a session comes before `a` or is `a`, and so do all of them. Most links are known: this is one comparison.
fn are_before(closure: &[Places], writers: &SessionWriters, a: u32) -> bool
    requires { a < length closure.now }
    ensures { result ≡ nat_le writers.now.last (last_in closure.now a writers.now.session) }
{
    writers.last <= closure[a as usize].at(writers.session)
}

/// Makes the last writer of a session that a clock reaches come before `a`, unless it is `a`; false where that closes a cycle.
fn link_session(
    alloc: Global,
    closure: &mut [Places],
    stands: &[At],
    members: &[Row<u32>],
    writers: &SessionWriters,
    clock: &Places,
    a: u32,
) -> Result<bool, NoMemory>
    ghost read: { Reading }
    requires { CanLinkSession read closure.old stands.now members.now writers.now clock.now a }
    ensures { IfOk result (IsLinkedIn read closure.old closure.new writers.now a) }
{
    if are_before(closure, writers, a) {
        return Ok(true);
    }
    match last_within(
        stands,
        writers.numbers.as_slice(),
        clock.at(writers.session),
    ) {
        None => Ok(true),
        Some(b) => {
            if b == a {
                return Ok(true);
            }
            settle(alloc, closure, stands, members, b, a)
        }
    }
}

/// Makes all writers of a key that a clock reaches come before `a`, which is read there; false where that closes a cycle.
pub(crate) fn link_read(
    alloc: Global,
    closure: &mut [Places],
    stands: &[At],
    members: &[Row<u32>],
    writers: &[SessionWriters],
    clock: &Places,
    a: u32,
) -> Result<bool, NoMemory>
    ghost read: { Reading }
    requires { CanLink read closure.old stands.now members.now writers.now clock.now a }
    ensures { IfOk result (IsLinked read closure.old closure.new a) }
{
    for list in writers {
        if !link_session(alloc, closure, stands, members, list, clock, a)? {
            return Ok(false);
        }
    }
    Ok(true)
}
