//! The events of the machine, and why one does not happen.
use thiserror::Error;

/// One action of one worker.
#[derive(Clone, Copy, Debug, PartialEq, Eq)]
pub enum Event {
    /// The idle worker takes a start that is left.
    Take(u32, u32),
    /// The worker sees the word.
    Look(u32),
    /// The worker's search takes one step.
    Settle(u32),
    /// The worker offers the cost at which its search returned.
    Offer(u32, u32),
    /// The worker is done with its start.
    End(u32),
}

/// Why an event did not happen. The world is then as it was.
#[derive(Clone, Copy, Debug, PartialEq, Eq, Error)]
pub enum StepFault {
    /// The event is not enabled.
    #[error("the event is not enabled")]
    NotEnabled,
    /// A growth was refused.
    #[error("out of memory")]
    NoMemory,
}

/// Why a run stopped at an event, counted from 0; the events before it were done.
#[derive(Clone, Copy, Debug, PartialEq, Eq, Error)]
#[error("event {at}: {fault}")]
pub struct RunFault {
    /// How many events were done.
    pub at: usize,
    /// Why the next one was not.
    pub fault: StepFault,
}
