//! The starts in one work-stealing deque (`deque_rule`): worker 0 takes them at the front, and so do thieves. After each
//! step a start was taken once, or is still in the deque. A push, a pop and each attempt to steal take one step.
ghost use Rattle.std.specs.Prelude.{◌≡◌, ◌<◌, ◌≤◌, true, false, [], IfOk, IfSome};
ghost use Rattle.crossbeam_deque.specs.Handles.{view, IsPassOf, worker_deque, worker_flavor, worker_view, worker_index, worker_capacity, stealer_deque};
ghost use Rattle.tcc_steal.specs.private.StartQueues.{IsTaker, thief_of, without_push};

use crate::deque_rule::{ForThief, PopOrSteal, Pushed, StartQueue};
use crate::deque_view::PassView;
use crossbeam_deque::{Pass, Steal, Stealer, Worker};
use std::alloc::Global;
use tcc_txn::NoMemory;

/// The deque of starts, as worker 0 owns it.
pub(crate) type Owner = Worker<u32, Global, PassView, StartQueue>;

/// The handle by which thieves take starts.
pub(crate) type Thief = Stealer<u32, Global, PassView, StartQueue>;

/// A deque with `count` starts, from 0 upward, first in first out.
pub(crate) fn fill(alloc: Global, count: u32) -> Result<Owner, NoMemory>
    ensures fifo { IfOk result (λ owner. worker_flavor owner ≡ 0) }
    ensures taker { IfOk result (λ owner. IsTaker count (worker_view owner)) }
{
    let mut owner = Owner::fifo_as(alloc, count as usize)?;
    for start in 0..count {
        match owner.push_as::<Pushed>(start) {
            Ok(()) => {}
            Err(_) => unreachable!(),
        }
    }
    Ok(owner)
}

/// A pass for a thief.
pub(crate) fn pass_for_thief(owner: &mut Owner) -> Pass<u32, PassView>
    ensures owner { (worker_deque owner.new ≡ worker_deque owner.old) × (worker_flavor owner.new ≡ worker_flavor owner.old) }
    ensures left { worker_view owner.new ≡ without_push (worker_view owner.old) }
    ensures pass { IsPassOf (worker_deque owner.old) result }
    ensures right { view result ≡ thief_of (worker_view owner.old) }
{
    owner.another::<ForThief>()
}

/// The owner's next start, if one is left.
pub(crate) fn pop(owner: &mut Owner) -> Option<u32>
    requires fifo { worker_flavor owner.old ≡ 0 }
    requires live { (worker_view owner.old).live ≡ true }
    ensures fifo { worker_flavor owner.new ≡ 0 }
    ensures taker { IsTaker (worker_view owner.old).pushed (worker_view owner.new) }
    ensures start { IfSome result (λ start. start < (worker_view owner.old).pushed) }
{
    let start = owner.pop_as::<PopOrSteal>()?;
    Some(start)
}

/// A thief's next start. It is none where none was left, or after `retries` retries in a row.
pub(crate) fn steal(thief: &Thief, pass: &mut Pass<u32, PassView>, retries: u32) -> Option<u32>
    requires pass { IsPassOf (stealer_deque thief.now) pass.old }
    requires live { (view pass.old).live ≡ true }
    ensures pass { IsPassOf (stealer_deque thief.now) pass.new }
    ensures taker { IsTaker (view pass.old).pushed (view pass.new) }
    ensures start { IfSome result (λ start. start < (view pass.old).pushed) }
{
    for _ in 0..retries.max(1) {
        match thief.steal_as::<PopOrSteal>(pass) {
            Steal::Success(start) => return Some(start),
            Steal::Empty => return None,
            Steal::Retry => {}
        }
    }
    None
}
