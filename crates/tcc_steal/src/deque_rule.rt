//! The rule of the work-stealing deque of starts (Chase and Lev, Dynamic circular work-stealing deque, SPAA 2005, as
//! `crossbeam_deque` has it), and what each step on it reports. Each push, pop and steal is one step.
use crate::deque_view::PassView;
use crossbeam_deque::protocol::{Outcome, Protocol, Split};

/// The deque holds a run of numbers up to the last that was pushed, and each number before it was taken once.
pub struct StartQueue;

impl Protocol<u32, PassView> for StartQueue {
    ghost use Rattle.tcc_steal.specs.private.StartQueues.{IsStartQueue, first_pass, nobody};

    ghost holds = { IsStartQueue };

    ghost first = { first_pass };

    ghost guest = { nobody };
}

/// The push of a start by the pass that is alone.
pub struct Pushed;

impl Outcome<u32, PassView> for Pushed {
    ghost use Rattle.tcc_steal.specs.private.StartQueues.{Pushes};

    ghost then = { Pushes };
}

/// The pop or the steal of a start.
pub struct PopOrSteal;

impl Outcome<u32, PassView> for PopOrSteal {
    ghost use Rattle.tcc_steal.specs.private.StartQueues.{Takes};

    ghost then = { Takes };
}

/// A pass for a thief, which has taken nothing. From then on nothing is pushed.
pub struct ForThief;

impl Split<PassView> for ForThief {
    ghost use Rattle.tcc_steal.specs.private.StartQueues.{thief_of, without_push};

    ghost left = { without_push };

    ghost right = { thief_of };
}
