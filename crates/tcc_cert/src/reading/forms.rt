//! What one line of words says.
ghost use Rattle.std.specs.Prelude.{◌≡◌, map};
ghost use Rattle.tcc_cert.specs.Reading.{claim_sizes, count_of, cycle_sizes, derived_of, five_words, head_line, head_of_step, key_of, order_sizes, reads_of, session_of, step_line, three_words, transaction_of, two_words, words};

use super::decimals::number_of;
use super::input::Input;
use super::words::{LineEntry, Said, WordLine, next_line};
use crate::ranges::{TextFormat, ranges_at};
use crate::{CertFault, CertFaultKind};
use std::alloc::Global;
use std::io::Read;
use tcc_graph::{Link, Step, Walk};
use tcc_txn::Name;

/// A link without its walk, and how many steps that has.
#[derive(Drop)]
pub(crate) struct HeaderLine {
    pub(crate) link: Link,
    pub(crate) steps: u32,
}

/// How long the parts of an order's claim are.
#[derive(Clone, Copy)]
pub(crate) struct OrderSizes {
    pub(crate) transactions: u32,
    pub(crate) sessions: u32,
}

/// How long the parts of a cycle's claim are, and what the cycle costs.
#[derive(Clone, Copy)]
pub(crate) struct CycleSizes {
    pub(crate) transactions: u32,
    pub(crate) links: u32,
    pub(crate) cost: u32,
}

/// What a claim is about, and how long its parts are. The versions say different things about an order.
#[derive(Drop)]
pub(crate) enum Sizes<O> {
    Order(O),
    Cycle(CycleSizes),
}

/// The index of a transaction.
fn transaction_of(scale: TextFormat, word: &[u8]) -> Said<u32>
    ensures { result ≡ transaction_of scale word.now }
{
    number_of(word, 0, ranges_at(scale).number)
}

/// How many transactions, links or steps.
pub(crate) fn count_of(scale: TextFormat, word: &[u8]) -> Said<u32>
    ensures { result ≡ count_of scale word.now }
{
    number_of(word, 1, ranges_at(scale).count)
}

fn key_of(word: &[u8]) -> Said<Name>
    ensures { result ≡ key_of word.now }
{
    match Name::read(word) {
        Ok(key) => Ok(key),
        Err(_) => Err(CertFaultKind::Word),
    }
}

/// `u v`
fn session_of(scale: TextFormat, from: &[u8], to: &[u8]) -> Said<Step>
    ensures { result ≡ session_of scale from.now to.now }
{
    Ok(Step::Session {
        from: transaction_of(scale, from)?,
        to: transaction_of(scale, to)?,
    })
}

/// `u v KEY`
fn reads_of(scale: TextFormat, from: &[u8], to: &[u8], key: &[u8]) -> Said<Step>
    ensures { result ≡ reads_of scale from.now to.now key.now }
{
    Ok(Step::Reads {
        from: transaction_of(scale, from)?,
        to: transaction_of(scale, to)?,
        key: key_of(key)?,
    })
}

/// What comes after `S`.
fn session_fields(scale: TextFormat, fields: &[&[u8]]) -> Said<Step>
    ensures { result ≡ two_words (session_of scale) (map (λ word. word.now) fields.now) }
{
    match fields {
        [from, to] => session_of(scale, from, to),
        _ => Err(CertFaultKind::Count),
    }
}

/// What comes after `R`.
fn reads_fields(scale: TextFormat, fields: &[&[u8]]) -> Said<Step>
    ensures { result ≡ three_words (reads_of scale) (map (λ word. word.now) fields.now) }
{
    match fields {
        [from, to, key] => reads_of(scale, from, to, key),
        _ => Err(CertFaultKind::Count),
    }
}

impl WordLine for Step {
    ghost form = { step_line };

    fn of_words(_alloc: Global, scale: TextFormat, words: &[&[u8]]) -> Said<Step> {
        let Some((word, fields)) = words.split_first() else {
            return Err(CertFaultKind::Word);
        };
        if *word == b"S".as_slice() {
            session_fields(scale, fields)
        } else if *word == b"R".as_slice() {
            reads_fields(scale, fields)
        } else {
            Err(CertFaultKind::Word)
        }
    }
}

impl LineEntry for Step {
    ghost entry = { λ scale. words scale (step_line scale) };

    fn next<R: Read>(
        alloc: Global,
        input: &mut Input<R>,
        scale: TextFormat,
    ) -> Result<Step, CertFault> {
        next_line(alloc, input, scale)
    }
}

/// `b a KEY c W`
fn derived_of(
    alloc: Global,
    scale: TextFormat,
    from: &[u8],
    to: &[u8],
    key: &[u8],
    reader: &[u8],
    steps: &[u8],
) -> Said<HeaderLine>
    ensures { result ≡ derived_of scale from.now to.now key.now reader.now steps.now }
{
    let link = Link::Derived {
        from: transaction_of(scale, from)?,
        to: transaction_of(scale, to)?,
        key: key_of(key)?,
        reader: transaction_of(scale, reader)?,
        walk: Walk::new(Vec::new(alloc)),
    };
    Ok(HeaderLine {
        link,
        steps: count_of(scale, steps)?,
    })
}

/// What comes after `D`.
fn derived_fields(alloc: Global, scale: TextFormat, fields: &[&[u8]]) -> Said<HeaderLine>
    ensures { result ≡ five_words (derived_of scale) (map (λ word. word.now) fields.now) }
{
    match fields {
        [from, to, key, reader, steps] => derived_of(alloc, scale, from, to, key, reader, steps),
        _ => Err(CertFaultKind::Count),
    }
}

/// A link of one step.
fn head_of_step(step: Step) -> HeaderLine
    ensures { result ≡ head_of_step step }
{
    HeaderLine {
        link: Link::of(step),
        steps: 0,
    }
}

impl WordLine for HeaderLine {
    ghost form = { head_line };

    fn of_words(alloc: Global, scale: TextFormat, words: &[&[u8]]) -> Said<HeaderLine> {
        match words {
            [word, fields @ ..] if *word == b"D".as_slice() => derived_fields(alloc, scale, fields),
            _ => Ok(head_of_step(Step::of_words(alloc, scale, words)?)),
        }
    }
}

/// `N S`
fn order_sizes(scale: TextFormat, transactions: &[u8], sessions: &[u8]) -> Said<OrderSizes>
    ensures { result ≡ order_sizes scale transactions.now sessions.now }
{
    Ok(OrderSizes {
        transactions: count_of(scale, transactions)?,
        sessions: number_of(sessions, 0, ranges_at(scale).sessions)?,
    })
}

/// `N M L`
fn cycle_sizes(
    scale: TextFormat,
    transactions: &[u8],
    links: &[u8],
    cost: &[u8],
) -> Said<CycleSizes>
    ensures { result ≡ cycle_sizes scale transactions.now links.now cost.now }
{
    Ok(CycleSizes {
        transactions: count_of(scale, transactions)?,
        links: count_of(scale, links)?,
        cost: number_of(cost, 0, ranges_at(scale).cost)?,
    })
}

impl WordLine for OrderSizes {
    ghost form = { λ scale. two_words (order_sizes scale) };

    fn of_words(_alloc: Global, scale: TextFormat, words: &[&[u8]]) -> Said<OrderSizes> {
        match words {
            [transactions, sessions] => order_sizes(scale, transactions, sessions),
            _ => Err(CertFaultKind::Count),
        }
    }
}

impl WordLine for CycleSizes {
    ghost form = { λ scale. three_words (cycle_sizes scale) };

    fn of_words(_alloc: Global, scale: TextFormat, words: &[&[u8]]) -> Said<CycleSizes> {
        match words {
            [transactions, links, cost] => cycle_sizes(scale, transactions, links, cost),
            _ => Err(CertFaultKind::Count),
        }
    }
}

impl<O: WordLine> WordLine for Sizes<O> {
    ghost form = { λ scale. claim_sizes (O.form scale) scale };

    fn of_words(alloc: Global, scale: TextFormat, words: &[&[u8]]) -> Said<Sizes<O>> {
        let Some((word, fields)) = words.split_first() else {
            return Err(CertFaultKind::Word);
        };
        if *word == b"order".as_slice() {
            Ok(Sizes::Order(O::of_words(alloc, scale, fields)?))
        } else if *word == b"cycle".as_slice() {
            Ok(Sizes::Cycle(CycleSizes::of_words(alloc, scale, fields)?))
        } else {
            Err(CertFaultKind::Word)
        }
    }
}
