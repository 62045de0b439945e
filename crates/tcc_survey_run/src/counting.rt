//! How many contradicted reads have each usual name.
ghost use Rattle.std.specs.Prelude.{◌≡◌, ◌∷◌, ◌++◌, [], IfOk, OnOk};
ghost use Rattle.std.specs.List.Sorted.{IsPermutation, IsSortedByKey};
ghost use Rattle.tcc_survey.specs.Names.{rank};
ghost use Rattle.tcc_survey_run.specs.Told.{AreNames, count_of, falling, names_among, operation_cmp};

use crate::told::ToldRead;
use std::alloc::{AllocError, Global};
use tcc_survey::{NAMES, UsualName};

/// A usual name, and how many reads have it.
#[derive(Clone, Copy)]
pub struct NameCount {
    pub name: UsualName,
    pub count: usize,
}

/// How many contradicted reads there are of how many, and how many faults.
#[derive(Clone, Copy)]
pub(crate) struct Totals {
    pub contradicted: usize,
    pub reads: usize,
    pub faults: usize,
}

/// How many of the reads have this name.
fn count_of(told: &[ToldRead], name: UsualName) -> usize
    ensures { result ≡ count_of told.now name }
{
    told.iter()
        .filter(|one| one.name.rank() == name.rank())
        .count()
}

/// Adds a name with its count, if some of the reads have it.
#[tactic(auto, using(crate::proofs::NamesLemmas::among_one, crate::proofs::NamesLemmas::among_none))]
fn push_name(
    told: &[ToldRead],
    name: UsualName,
    names: &mut Vec<NameCount>,
) -> Result<(), AllocError>
    ensures { OnOk result (names.new.items ≡ names.old.items ++ names_among told.now (name ∷ [])) }
{
    let count = count_of(told, name);
    if count > 0 {
        names.push(NameCount { name, count })?;
    }
    Ok(())
}

/// Which of these names some of the reads have, with their counts.
fn names_among(
    alloc: Global,
    told: &[ToldRead],
    among: &[UsualName],
) -> Result<Vec<NameCount>, AllocError>
    ensures { IfOk result (λ names. names.items ≡ names_among told.now among.now) }
{
    let mut names = Vec::new(alloc);
    for name in among {
        push_name(told, *name, &mut names)?;
    }
    Ok(names)
}

/// Sorts names by falling count; of equal counts the first name comes first.
fn sort_by_count(names: &mut [NameCount])
    ensures permutation { IsPermutation names.old names.new }
    ensures sorted { IsSortedByKey (λ one. (falling one.count, rank one.name)) operation_cmp names.new }
{
    names.sort_unstable_by_key(|one| (usize::MAX - one.count, one.name.rank()));
}

/// The names that some of the reads have, by falling count.
pub(crate) fn names_of(alloc: Global, told: &[ToldRead]) -> Result<Vec<NameCount>, AllocError>
    ensures { IfOk result (λ names. AreNames told.now names.items) }
{
    let mut names = names_among(alloc, told, &NAMES)?;
    sort_by_count(&mut names);
    Ok(names)
}
