//! A limit of work, from which each loop of the finder takes before it goes on.
use tcc_txn::NoMemory;

/// Why a search ends early.
#[derive(Drop)]
pub(crate) enum SearchError {
    Memory(NoMemory),
    /// All allowed work was done.
    OutOfWork,
}

/// Any error that says that memory ran out.
impl<E: Into<NoMemory>> From<E> for SearchError {
    fn from(fault: E) -> SearchError {
        SearchError::Memory(fault.into())
    }
}

/// How many transactions, reads and links may still be looked at.
#[derive(Drop)]
pub(crate) struct Work {
    left: u64,
}

impl Work {
    /// This much is allowed.
    pub(crate) fn new(left: u64) -> Work {
        Work { left }
    }

    /// Takes this much.
    pub(crate) fn take(&mut self, much: usize) -> Result<(), SearchError> {
        match self.left.checked_sub(much as u64) {
            Some(left) => {
                self.left = left;
                Ok(())
            }
            None => {
                self.left = 0;
                Err(SearchError::OutOfWork)
            }
        }
    }
}

/// What was found so far counts where the allowed work was done.
pub(crate) fn unless_spent(searched: Result<(), SearchError>) -> Result<(), NoMemory> {
    match searched {
        Ok(()) | Err(SearchError::OutOfWork) => Ok(()),
        Err(SearchError::Memory(fault)) => Err(fault),
    }
}
