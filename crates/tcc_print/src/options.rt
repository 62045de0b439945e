//! What a run of explain is asked for.

use std::alloc::Global;
use tcc_base::Workers;
use tcc_graph::Level;

/// How answers are wanted.
#[derive(Clone, Copy)]
pub struct Options {
    /// The level at which histories are judged.
    pub level: Level,
    /// How many workers search for a least cycle. No text depends on it.
    pub workers: Workers,
    /// Each in one line of JSON.
    pub json: bool,
    /// An order of fewer transactions than this is no success; 0 requires none. No text depends on it.
    pub required: u32,
}

/// A run of explain, as its stages borrow it: what it is asked for, and what it works with.
#[derive(Drop)]
pub struct RunContext<'a, T, G> {
    pub rt: &'a T,
    pub alloc: Global,
    pub options: &'a Options,
    /// Is called before each start that is searched.
    pub gate: &'a G,
}
