//! A symbol table (interning of strings): each name is kept once, and is its number from then on. A look-up asks a cache of
//! numbers and compares one name or two. If they are others, it searches a B-tree, with as many comparisons as the logarithm
//! of the count.
ghost use Rattle.std.specs.Prelude.{◌≡◌, ◌++◌, ◌∷◌, [], false, IfOk, IfSome, MatchOption, OnErr, OnOk, length};
ghost use Rattle.tcc_txn.specs.{Nested.IsPrefix, Symbols.IsNumber, Symbols.is_symbol, Symbols.with_symbol};

use crate::{Name, Nearby, NoMemory};
use std::alloc::Global;
use std::collections::BTreeMap;
use std::marker::Model;

/// Names, each once, in the order in which they came, numbered from 0.
#[derive(Drop)]
pub struct SymbolTable {
    names: Vec<Name>,
    numbers: BTreeMap<Name, u32>,
    /// The number of most names, found without the map.
    nearby: Nearby,
}

impl Model for SymbolTable {
    ghost use Rattle.std.specs.Prelude.{ℕ, List};
    ghost use Rattle.tcc_txn.specs.private.Symbols.{HoldsNumbers};

    ghost Value = { List (List ℕ) };

    ghost view = { λ t. t.names.items };

    ghost invariant = { λ t. HoldsNumbers t.names.items t.numbers };
}

/// A count as a number. Memory can't hold so many names that a count has none.
pub(crate) fn number_of(count: usize) -> Result<u32, NoMemory>
    ensures { IfOk result (λ number. number ≡ count) }
{
    match u32::try_from(count) {
        Ok(number) => Ok(number),
        Err(_) => Err(NoMemory),
    }
}

impl SymbolTable {
    /// No names.
    pub fn new(alloc: Global) -> SymbolTable
        ensures { result ≡ [] }
    {
        SymbolTable {
            names: Vec::new(alloc),
            numbers: BTreeMap::new(alloc),
            nearby: Nearby::new(alloc),
        }
    }

    /// How many names there are.
    pub fn len(&self) -> usize
        ensures { result ≡ length self.now }
    {
        self.names.len()
    }

    /// The names, each at its number.
    pub fn names(&self) -> &[Name]
        ensures { result.now ≡ self.now }
    {
        &self.names
    }

    /// The names, each at its number, by value.
    pub(crate) fn into_names(self) -> Vec<Name>
        ensures { result.items ≡ self }
    {
        self.names
    }

    /// The number, if the name is at it. `None` says nothing about the name.
    fn checked(&self, name: &Name, number: u32) -> Option<u32>
        ensures { IfSome result (λ n. IsNumber self.now name.now n) }
    {
        match self.names.get(number as usize) {
            Some(known) => { if *known == *name { Some(number) } else { None } }
            None => None,
        }
    }

    /// The number of a name that the cache knows. `None` says nothing about the name.
    fn near(&self, name: &Name) -> Option<u32>
        ensures { IfSome result (λ n. IsNumber self.now name.now n) }
    {
        let (last, before) = self.nearby.numbers(name);
        match self.checked(name, last) {
            Some(number) => Some(number),
            None => self.checked(name, before),
        }
    }

    /// The number that the map has for a name.
    fn mapped(&self, name: &Name) -> Option<u32>
        ensures { MatchOption result (is_symbol name.now self.now ≡ false) (λ n. IsNumber self.now name.now n) }
    {
        match self.numbers.get(name) {
            Some(number) => Some(*number),
            None => None,
        }
    }

    /// The number of a name; none if the table lacks it.
    pub fn find(&self, name: &Name) -> Option<u32>
        ensures { MatchOption result (is_symbol name.now self.now ≡ false) (λ n. IsNumber self.now name.now n) }
    {
        match self.near(name) {
            Some(number) => Some(number),
            None => self.mapped(name),
        }
    }

    /// Makes room in the cache for one more name.
    fn make_room(&mut self) -> Result<(), NoMemory>
        ensures { self.new ≡ self.old }
    {
        let count = self.names.len();
        if !self.nearby.has_room(count) {
            self.nearby = Nearby::of(*self.names.allocator(), &self.names)?;
        }
        Ok(())
    }

    /// Puts a number into the cache.
    fn note(&mut self, name: &Name, number: u32)
        ensures { self.new ≡ self.old }
    {
        self.nearby.put(name, number);
    }

    /// One more name, after the others.
    fn push(&mut self, name: Name) -> Result<u32, NoMemory>
        requires { is_symbol name self.old ≡ false }
        ensures number { IfOk result (λ n. IsNumber self.new name n) }
        ensures once { OnOk result (self.new ≡ self.old ++ name ∷ []) }
        ensures kept { OnErr result (self.new ≡ self.old) }
    {
        self.make_room()?;
        let number = number_of(self.names.len())?;
        self.names.push(name)?;
        match self.numbers.insert(name, number) {
            Ok(_) => {
                self.note(&name, number);
                Ok(number)
            }
            Err(_) => {
                self.names.truncate(number as usize);
                Err(NoMemory)
            }
        }
    }

    /// The number of the name, which is added if the table lacks it.
    pub fn number(&mut self, name: Name) -> Result<u32, NoMemory>
        ensures number { IfOk result (λ n. IsNumber self.new name n) }
        ensures once { OnOk result (self.new ≡ with_symbol name self.old) }
        ensures kept { OnErr result (self.new ≡ self.old) }
    {
        if let Some(number) = self.near(&name) {
            return Ok(number);
        }
        if let Some(number) = self.mapped(&name) {
            self.note(&name, number);
            return Ok(number);
        }
        self.push(name)
    }

    /// The number of the name, as `number` returns it. If it is the given one, that costs no look-up.
    pub(crate) fn number_from(&mut self, name: Name, told: Option<u32>) -> Result<u32, NoMemory>
        ensures number { IfOk result (λ n. IsNumber self.new name n) }
        ensures once { OnOk result (self.new ≡ with_symbol name self.old) }
        ensures kept { OnErr result (self.new ≡ self.old) }
    {
        if let Some(told) = told {
            if let Some(number) = self.checked(&name, told) {
                return Ok(number);
            }
        }
        self.number(name)
    }

    /// Adds these names too.
    pub(crate) fn learn(&mut self, names: &[Name]) -> Result<(), NoMemory>
        ensures { IsPrefix self.old self.new }
    {
        for name in names {
            self.number(*name)?;
        }
        Ok(())
    }
}
