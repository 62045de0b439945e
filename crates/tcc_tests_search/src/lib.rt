//! Tests of what the search for a cycle depends on, and of the searches of all starts by many workers, by public calls.
#![tactic(auto)]

#[cfg(test)]
mod tests;
