//! What is called before each start.

/// Is called once before each start is searched, by the worker that searches it. No contract depends on what it does.
pub trait Gate: Sync {
    fn enter(&self, worker: u32, start: u32);
}

/// A gate that does nothing.
#[derive(Clone, Copy, Drop)]
pub struct OpenGate;

impl Gate for OpenGate {
    fn enter(&self, _worker: u32, _start: u32) {}
}
