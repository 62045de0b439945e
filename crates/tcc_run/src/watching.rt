//! The watcher, which is called when a stage of a run begins and when it ends.

use tcc_explain::{Gate, OpenGate};

/// What a run is doing, as far as it may take long.
#[derive(Clone, Copy, Debug, PartialEq, Eq)]
pub enum RunStage {
    /// It reads records, to the next seal or to the end.
    Reading,
    /// It decides whether what was finished has a commit order, and finds a cycle where it has none.
    Deciding,
    /// It cuts a slice.
    Slicing,
}

/// Is called when each stage of a run begins and when it ends, and is the gate of its searches. Nothing is written during a stage. No
/// promise depends on what it does.
pub trait Watcher: Gate {
    fn begin(&self, stage: RunStage);

    fn end(&self);
}

/// A watcher that does nothing.
impl Watcher for OpenGate {
    fn begin(&self, _stage: RunStage) {}

    fn end(&self) {}
}

/// A gate, watched by nobody.
#[derive(Drop)]
pub(crate) struct GateAlone<'a, G> {
    pub(crate) gate: &'a G,
}

impl<G: Gate> Gate for GateAlone<'_, G> {
    fn enter(&self, worker: u32, start: u32) {
        self.gate.enter(worker, start);
    }
}

impl<G: Gate> Watcher for GateAlone<'_, G> {
    fn begin(&self, _stage: RunStage) {}

    fn end(&self) {}
}
