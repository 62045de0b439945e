//! Why there is no answer for a book.

use tcc_book::WholeFault;
use tcc_explain::ExplainFault;
use thiserror::Error;

/// Why a book was not audited.
#[derive(Debug, Drop, Error)]
pub enum AuditFault {
    /// The book has no snapshot of exactly the passes.
    #[error("the passes are not those of the book")]
    Whole(WholeFault),
    /// The snapshot has no answer.
    #[error("what the passes recorded has no answer")]
    Explain(ExplainFault),
}
