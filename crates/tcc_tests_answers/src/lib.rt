//! Tests of answers, audits and runs, over worked histories. They are in a crate of their own, so that what they test is proved once.
#![tactic(auto)]

#[cfg(test)]
mod answers;
#[cfg(test)]
mod audits;
#[cfg(test)]
mod books;
#[cfg(test)]
mod cycles;
#[cfg(test)]
mod explaining;
#[cfg(test)]
mod gates;
#[cfg(test)]
mod growing;
#[cfg(test)]
mod runs;
