//! The requests that a resident program takes from one stream, and the replies that it gives: a header line, and then the bytes that it
//! counts.
//!
//! Needs: the levels (`tcc_graph`).
//! Must hold: what is taken from the stream is what a definition says of its bytes, and a request that is refused leaves the stream at the
//! next one.
//! Kept for callers: `next_turn`, `refusal_reply`, `reply_text`.
#![tactic(auto)]

mod body;
mod header;
mod line;
mod question;
mod replies;
mod request;
mod turns;

pub use header::MAX_BODY_BYTES;
pub use line::MAX_HEADER_BYTES;
pub use question::Question;
pub use replies::{Reply, refusal_reply, reply_text};
pub use request::{Refusal, Request, Turn};
pub use turns::next_turn;
