//! How contradicted reads are called, the first name first, and of one name the least writer first.
ghost use Rattle.std.specs.Prelude.{◌≡◌, ◌⊎◌, true, false};
ghost use Rattle.tcc_survey.specs.Names.{rank};
ghost use Rattle.tcc_survey.specs.private.Called.{IsNoLater, IsCloser};

use crate::usual_name::UsualName;

/// How a read is called, and the writer that it is called so for; 0 where nothing contradicts it.
#[derive(Clone, Copy)]
pub(crate) struct Called {
    pub name: UsualName,
    pub writer: u32,
}

impl Called {
    /// Whether this comes before another one.
    pub(crate) fn is_before(&self, other: &Called) -> bool
        ensures yes { result ≡ true → IsNoLater self.now other.now }
        ensures no { result ≡ false → IsNoLater other.now self.now }
    {
        let rank = self.name.rank();
        let bound = other.name.rank();
        rank < bound || (rank == bound && self.writer <= other.writer)
    }

    /// The first of this and of another one, which isn't taken where it is a chain.
    pub(crate) fn first_of(self, other: Called) -> Called
        ensures one { (result ≡ self) ⊎ ((result ≡ other) × IsCloser other.name) }
        ensures kept { IsNoLater result self }
        ensures met { IsCloser other.name → IsNoLater result other }
    {
        if other.name.rank() < UsualName::CausalChain.rank() && other.is_before(&self) {
            other
        } else {
            self
        }
    }
}
