//! Tests of the checker, by its public calls.
mod judging;
mod streams;
mod worked;
