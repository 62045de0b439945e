//! What one line of version 3 says.
ghost use Rattle.std.specs.Prelude.{◌≡◌, map};
ghost use Rattle.tcc_cert.specs.Reading.{three_words, two_words, words};
ghost use Rattle.tcc_cert.specs.LargeReading.{large_order_sizes, least_of, no_words, one_word, run_line, run_of, runs_of, tail_line};

use super::decimals::number_of;
use super::forms::count_of;
use super::input::Input;
use super::words::{LineEntry, Said, WordLine, next_line};
use crate::ranges::TextFormat;
use crate::version_3::{V3_MAX_NUMBER, V3_MAX_RUNS, V3_MAX_SESSION, V3_MAX_SESSIONS};
use crate::{CertFault, CertFaultKind, Run};
use std::alloc::Global;
use std::io::Read;

/// How long the parts of an order's claim are.
#[derive(Clone, Copy)]
pub(crate) struct LargeOrderSizes {
    pub(crate) transactions: u32,
    pub(crate) sessions: u32,
    pub(crate) runs: u32,
}

/// What comes after the links of a cycle.
#[derive(Clone, Copy)]
pub(crate) enum FooterLine {
    /// A claim that it is a least one, with this many runs.
    Least { runs: u32 },
    /// Nothing more.
    End,
}

/// `s k`
fn run_of(session: &[u8], count: &[u8]) -> Said<Run>
    ensures { result ≡ run_of session.now count.now }
{
    Ok(Run {
        session: number_of(session, 0, V3_MAX_SESSION)?,
        count: number_of(count, 1, V3_MAX_NUMBER)?,
    })
}

impl WordLine for Run {
    ghost form = { λ scale. run_line };

    fn of_words(_alloc: Global, _scale: TextFormat, words: &[&[u8]]) -> Said<Run> {
        match words {
            [session, count] => run_of(session, count),
            _ => Err(CertFaultKind::Count),
        }
    }
}

impl LineEntry for Run {
    ghost entry = { λ scale. words scale run_line };

    fn next<R: Read>(
        alloc: Global,
        input: &mut Input<R>,
        scale: TextFormat,
    ) -> Result<Run, CertFault> {
        next_line(alloc, input, scale)
    }
}

/// How many runs.
fn runs_of(word: &[u8]) -> Said<u32>
    ensures { result ≡ runs_of word.now }
{
    number_of(word, 0, V3_MAX_RUNS)
}

/// `N S R`
fn order_sizes(transactions: &[u8], sessions: &[u8], runs: &[u8]) -> Said<LargeOrderSizes>
    ensures { result ≡ large_order_sizes transactions.now sessions.now runs.now }
{
    Ok(LargeOrderSizes {
        transactions: count_of(TextFormat::Large, transactions)?,
        sessions: number_of(sessions, 0, V3_MAX_SESSIONS)?,
        runs: runs_of(runs)?,
    })
}

impl WordLine for LargeOrderSizes {
    ghost form = { λ scale. three_words large_order_sizes };

    fn of_words(_alloc: Global, _scale: TextFormat, words: &[&[u8]]) -> Said<LargeOrderSizes> {
        match words {
            [transactions, sessions, runs] => order_sizes(transactions, sessions, runs),
            _ => Err(CertFaultKind::Count),
        }
    }
}

/// `R`
fn least_of(runs: &[u8]) -> Said<FooterLine>
    ensures { result ≡ least_of runs.now }
{
    Ok(FooterLine::Least {
        runs: runs_of(runs)?,
    })
}

/// What comes after `least`.
fn least_fields(fields: &[&[u8]]) -> Said<FooterLine>
    ensures { result ≡ one_word least_of (map (λ word. word.now) fields.now) }
{
    match fields {
        [runs] => least_of(runs),
        _ => Err(CertFaultKind::Count),
    }
}

/// What comes after `end`.
fn end_fields(fields: &[&[u8]]) -> Said<FooterLine>
    ensures { result ≡ no_words FooterLine.End (map (λ word. word.now) fields.now) }
{
    match fields {
        [] => Ok(FooterLine::End),
        _ => Err(CertFaultKind::Count),
    }
}

impl WordLine for FooterLine {
    ghost form = { λ scale. tail_line };

    fn of_words(_alloc: Global, _scale: TextFormat, words: &[&[u8]]) -> Said<FooterLine> {
        let Some((word, fields)) = words.split_first() else {
            return Err(CertFaultKind::Word);
        };
        if *word == b"least".as_slice() {
            least_fields(fields)
        } else if *word == b"end".as_slice() {
            end_fields(fields)
        } else {
            Err(CertFaultKind::Word)
        }
    }
}
