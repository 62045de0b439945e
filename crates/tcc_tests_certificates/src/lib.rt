//! Tests of certificates, as they are written, read and judged, and of answers, as values, as text and as JSON.
#![tactic(auto)]

#[cfg(test)]
mod answer;
#[cfg(test)]
mod cert;
#[cfg(test)]
mod check;
