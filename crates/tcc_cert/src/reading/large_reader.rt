//! A text of version 3, whose links are taken one by one or held.
ghost use Rattle.std.specs.Prelude.{◌≡◌};

use super::held::Held;
use super::input::Input;
use super::large::certificate;
use crate::{CertFault, LargeCertificate, LargeHead, LinksClaim, LinksHead, TakesLinks};
use std::alloc::Global;
use std::io::Read;

/// A text of version 3, of any length.
#[derive(Drop)]
pub struct LargeReader<R> {
    input: Input<R>,
    ghost first: { input.passed ≡ 0 },
}

impl<R: Read + Drop> LargeReader<R> {
    ghost use Rattle.std.specs.Prelude.{ℕ, List};
    ghost use Rattle.tcc_reads.specs.History.{History};
    ghost use Rattle.tcc_cert.specs.{InputBytes.IsAt, Outcomes.IsLargeReading, Reading.Position, Taken.IsLargeTaken, Versions.IsLargeAt, private.Inputs.AsBefore};

    /// The text that is in the input, from its first line on.
    pub(crate) fn over(input: Input<R>) -> LargeReader<R>
        requires { input.passed ≡ 0 }
        ensures same { (at : Position) → IsAt R.remaining input at → IsAt R.remaining result.input at }
        ensures works { AsBefore input result.input }
    {
        LargeReader { input }
    }

    /// The certificate whose text it is, or the first line with a fault, as `read_large` has it.
    pub fn read(self, alloc: Global) -> Result<LargeCertificate, CertFault>
        ensures { (bytes : List ℕ) → IsLargeAt R.remaining self bytes → IsLargeReading bytes result }
    {
        let mut held = Held::new(alloc);
        match self.take(alloc, &mut held)? {
            LargeHead::Order(claim) => Ok(LargeCertificate::Order(claim)),
            LargeHead::Cycle(LinksHead { sizes, least }) => {
                Ok(LargeCertificate::Cycle(LinksClaim {
                    level: sizes.level,
                    transactions: sizes.transactions,
                    links: held.into_links(),
                    cost: sizes.cost,
                    least,
                }))
            }
        }
    }

    /// The same for a text whose links are taken one by one; none of them is held. Afterwards the taker is ready for another one.
    pub fn take<S: TakesLinks>(self, alloc: Global, taker: &mut S) -> Result<LargeHead, CertFault>
        ensures taken { (bytes : List ℕ) (h : History) → IsLargeAt R.remaining self bytes → S.ready taker.old h → IsLargeTaken bytes (S.took taker.new h) result }
        ensures ready { (h : History) → S.ready taker.old h → S.ready taker.new h }
    {
        let LargeReader { mut input } = self;
        let claim = certificate(alloc, &mut input, taker)?;
        input.end()?;
        Ok(claim)
    }
}
