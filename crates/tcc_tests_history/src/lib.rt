//! Tests of histories, by public calls.
#![tactic(auto)]

#[cfg(test)]
mod tests;
