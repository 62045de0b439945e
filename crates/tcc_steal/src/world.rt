//! The machine: which events are enabled, and what each of them does.
ghost use Rattle.std.specs.Prelude.{◌≡◌, ◌↔◌, length, map, replicate, All, Contains, None, Some, is_some, IsTrue, IfOk, OnOk};
ghost use Rattle.std.specs.List.{range_with_len};
ghost use Rattle.tcc_graph.specs.Levels.{Judged};
ghost use Rattle.tcc_derive.specs.Prices.{IsPricesOf};
ghost use Rattle.tcc_steal.specs.Worlds.{first_world, new_worker};
ghost use Rattle.tcc_steal.specs.Steps.{Happens, HasReturned, end_of, without, lowered};
ghost use Rattle.tcc_steal.specs.Machines.{world_of, worker_of, IsMachineOf};
ghost use Rattle.tcc_steal.specs.Outcomes.{Answers, HasRun, StopsAt};
ghost use Rattle.tcc_steal.specs.private.Making.{Makes};
ghost use Rattle.tcc_steal.specs.declared.event.Event.TheVariants as event;

use crate::desk::{Begun, WorkerState};
use crate::event::{Event, RunFault, StepFault};
use crate::stage::Stage;
use std::alloc::Global;
use std::marker::Model;
use tcc_core::Search;
use tcc_derive::Prices;
use tcc_txn::NoMemory;

/// The machine of all interleavings: workers search from all starts, one event after another.
#[derive(Drop)]
pub struct World {
    starts: u32,
    word: Option<u32>,
    left: Vec<u32>,
    seed: Option<u32>,
    desks: Vec<WorkerState>,
}

impl Model for World {
    ghost use Rattle.tcc_steal.specs.{Machines.Machine, private.Fitting.IsFit};

    ghost Value = { Machine };

    ghost view = { λ s. record { starts = s.starts; word = s.word; left = s.left.items; seed = s.seed; desks = s.desks.items } };

    ghost invariant = { λ s. IsFit s.starts s.left.items s.desks.items };
}

impl World {
    /// The beginning for these prices: every start is left, and `workers` workers are idle.
    pub fn new(alloc: Global, prices: &Prices, workers: u32) -> Result<World, NoMemory>
        ensures first { IfOk result (λ world. world_of world ≡ first_world (length prices.now.prices) workers None) }
        ensures starts { IfOk result (λ world. world.starts ≡ length prices.now.prices) }
        ensures machine { (j : Judged) → IsPricesOf j prices.now → IfOk result (IsMachineOf j) }
    {
        World::begun(alloc, prices, workers, None)
    }

    /// The beginning with a seed, which the law requires to be the cost of a cycle: word and offers begin at it.
    pub fn seeded(
        alloc: Global,
        prices: &Prices,
        workers: u32,
        seed: u32,
    ) -> Result<World, NoMemory>
        ensures first { IfOk result (λ world. world_of world ≡ first_world (length prices.now.prices) workers (Some seed)) }
        ensures starts { IfOk result (λ world. world.starts ≡ length prices.now.prices) }
        ensures machine { (j : Judged) → IsPricesOf j prices.now → IfOk result (IsMachineOf j) }
    {
        World::begun(alloc, prices, workers, Some(seed))
    }

    /// The beginning, with a seed or without.
    fn begun(
        alloc: Global,
        prices: &Prices,
        workers: u32,
        seed: Option<u32>,
    ) -> Result<World, NoMemory>
        ensures first { IfOk result (λ world. world_of world ≡ first_world (length prices.now.prices) workers seed) }
        ensures starts { IfOk result (λ world. world.starts ≡ length prices.now.prices) }
        ensures machine { (j : Judged) → IsPricesOf j prices.now → IfOk result (IsMachineOf j) }
    {
        let starts = prices.count();
        let left = numbers(alloc, starts)?;
        let desks = new_desks(alloc, workers)?;
        Ok(World {
            starts,
            word: seed,
            left,
            seed,
            desks,
        })
    }

    /// One event, if it is enabled; else nothing changes. The prices are those that the world began with.
    pub fn step(&mut self, alloc: Global, prices: &Prices, event: Event) -> Result<(), StepFault>
        requires { self.old.starts ≡ length prices.now.prices }
        ensures starts { self.new.starts ≡ self.old.starts }
        ensures machine { (j : Judged) → IsPricesOf j prices.now → IsMachineOf j self.old → IsMachineOf j self.new }
        ensures happens { (j : Judged) → IsPricesOf j prices.now → IsMachineOf j self.old
            → OnOk result (Happens j (world_of self.old) event (world_of self.new)) }
        ensures answers { Answers self.old event result self.new }
    {
        match event {
            Event::Take(worker, start) => self.take(alloc, prices, worker, start),
            Event::Look(worker) => self.look(worker),
            Event::Settle(worker) => self.settle(prices, worker),
            Event::Offer(worker, cost) => self.offer(worker, cost),
            Event::End(worker) => self.end(worker),
        }
    }

    /// An idle worker takes a start that is left.
    fn take(
        &mut self,
        alloc: Global,
        prices: &Prices,
        worker: u32,
        start: u32,
    ) -> Result<(), StepFault>
        requires { self.old.starts ≡ length prices.now.prices }
        ensures starts { self.new.starts ≡ self.old.starts }
        ensures machine { (j : Judged) → IsPricesOf j prices.now → IsMachineOf j self.old → IsMachineOf j self.new }
        ensures happens { (j : Judged) → IsPricesOf j prices.now → IsMachineOf j self.old
            → OnOk result (Happens j (world_of self.old) (event.Take worker start) (world_of self.new)) }
        ensures answers { Answers self.old (event.Take worker start) result self.new }
    {
        if !is_left(&self.left, start) {
            return Err(StepFault::NotEnabled);
        }
        let Some(desk) = self.desks.get_mut(worker as usize) else {
            return Err(StepFault::NotEnabled);
        };
        if desk.search.is_some() {
            return Err(StepFault::NotEnabled);
        }
        let Ok(search) = Search::begin(alloc, prices, start) else {
            return Err(StepFault::NoMemory);
        };
        desk.search = Some(Begun {
            search,
            stage: Stage::Open,
        });
        take_out(&mut self.left, start);
        Ok(())
    }

    /// A worker sees the word.
    fn look(&mut self, worker: u32) -> Result<(), StepFault>
        ensures { Makes (event.Look worker) self.old result self.new }
    {
        let Some(desk) = self.desks.get_mut(worker as usize) else {
            return Err(StepFault::NotEnabled);
        };
        if desk.search.is_none() {
            return Err(StepFault::NotEnabled);
        }
        desk.sight = self.word;
        Ok(())
    }

    /// A worker's search takes a step.
    fn settle(&mut self, prices: &Prices, worker: u32) -> Result<(), StepFault>
        requires { self.old.starts ≡ length prices.now.prices }
        ensures starts { self.new.starts ≡ self.old.starts }
        ensures machine { (j : Judged) → IsPricesOf j prices.now → IsMachineOf j self.old → IsMachineOf j self.new }
        ensures happens { (j : Judged) → IsPricesOf j prices.now → IsMachineOf j self.old
            → OnOk result (Happens j (world_of self.old) (event.Settle worker) (world_of self.new)) }
        ensures answers { Answers self.old (event.Settle worker) result self.new }
    {
        let Some(desk) = self.desks.get_mut(worker as usize) else {
            return Err(StepFault::NotEnabled);
        };
        let Some(begun) = &desk.search else {
            return Err(StepFault::NotEnabled);
        };
        if begun.stage != Stage::Open {
            return Err(StepFault::NotEnabled);
        }
        let Some(mut begun) = desk.search.take() else {
            return Err(StepFault::NotEnabled);
        };
        begun.settle(prices, desk.sight);
        desk.search = Some(begun);
        Ok(())
    }

    /// A worker offers the cost at which its search returned.
    fn offer(&mut self, worker: u32, cost: u32) -> Result<(), StepFault>
        ensures { Makes (event.Offer worker cost) self.old result self.new }
    {
        let Some(desk) = self.desks.get_mut(worker as usize) else {
            return Err(StepFault::NotEnabled);
        };
        let Some(begun) = &desk.search else {
            return Err(StepFault::NotEnabled);
        };
        if !has_returned(begun.stage, cost) {
            return Err(StepFault::NotEnabled);
        }
        if desk.offers.push(cost).is_err() {
            return Err(StepFault::NoMemory);
        }
        let Some(mut begun) = desk.search.take() else {
            return Err(StepFault::NotEnabled);
        };
        begun.stage = Stage::Offered(cost);
        desk.search = Some(begun);
        let word = lowered(self.word, cost);
        desk.sight = Some(word);
        self.word = Some(word);
        Ok(())
    }

    /// A worker is done with its start.
    fn end(&mut self, worker: u32) -> Result<(), StepFault>
        ensures { Makes (event.End worker) self.old result self.new }
    {
        let Some(desk) = self.desks.get_mut(worker as usize) else {
            return Err(StepFault::NotEnabled);
        };
        let Some(begun) = &desk.search else {
            return Err(StepFault::NotEnabled);
        };
        if !is_over(begun.stage) {
            return Err(StepFault::NotEnabled);
        }
        if desk.finished.reserve(1).is_err() {
            return Err(StepFault::NoMemory);
        }
        let Some(begun) = desk.search.take() else {
            return Err(StepFault::NotEnabled);
        };
        let Ok(()) = desk.finished.push(begun) else {
            unreachable!()
        };
        Ok(())
    }

    /// The events one after another, up to one that is refused. The prices are those that the world began with.
    pub fn run(&mut self, alloc: Global, prices: &Prices, events: &[Event]) -> Result<(), RunFault>
        requires { self.old.starts ≡ length prices.now.prices }
        ensures starts { self.new.starts ≡ self.old.starts }
        ensures machine { (j : Judged) → IsPricesOf j prices.now → IsMachineOf j self.old → IsMachineOf j self.new }
        ensures runs { (j : Judged) → IsPricesOf j prices.now → IsMachineOf j self.old → HasRun j self.old events.now result self.new }
        ensures stops { StopsAt events.now result self.new }
    {
        for at in 0..events.len() {
            if let Err(fault) = self.step(alloc, prices, events[at]) {
                return Err(RunFault { at, fault });
            }
        }
        Ok(())
    }

    /// How many starts there are: as many as the prices have transactions, which `step` and `run` require.
    pub fn starts(&self) -> u32
        ensures { result ≡ self.now.starts }
    {
        self.starts
    }

    /// The least offer, if there is one.
    pub fn word(&self) -> Option<u32>
        ensures { result ≡ (world_of self.now).word }
    {
        self.word
    }

    /// How many starts are left.
    pub fn left(&self) -> u32
        ensures { result ≡ length (world_of self.now).left }
    {
        self.left.len() as u32
    }
}

/// The first `count` numbers, from 0 on.
fn numbers(alloc: Global, count: u32) -> Result<Vec<u32>, NoMemory>
    ensures { IfOk result (λ numbers. numbers.items ≡ range_with_len 0 count) }
{
    let mut numbers = Vec::new(alloc);
    for number in 0..count {
        numbers.push(number)?;
    }
    Ok(numbers)
}

/// `count` workers that have done nothing.
fn new_desks(alloc: Global, count: u32) -> Result<Vec<WorkerState>, NoMemory>
    ensures workers { IfOk result (λ desks. map worker_of desks.items ≡ replicate count new_worker) }
    ensures idle { IfOk result (λ desks. All (λ desk. desk.search ≡ None) desks.items) }
{
    let mut desks = Vec::new(alloc);
    for number in 0..count {
        desks.push(WorkerState::new(alloc))?;
    }
    Ok(desks)
}

/// Whether a start is left.
fn is_left(left: &[u32], start: u32) -> bool
    ensures { IsTrue result ↔ Contains left.now start }
{
    left.contains(&start)
}

/// Takes a start out of those left.
fn take_out(left: &mut Vec<u32>, start: u32)
    ensures { left.new.items ≡ without start left.old.items }
{
    left.retain(|other| *other != start);
}

/// Whether a search returned at this cost, offered or not.
fn has_returned(stage: Stage, cost: u32) -> bool
    ensures { IsTrue result ↔ HasReturned stage cost }
{
    match stage {
        Stage::Returned(at) | Stage::Offered(at) => at == cost,
        Stage::Open | Stage::Cut(_) => false,
    }
}

/// Whether a search was cut, or returned and was offered.
fn is_over(stage: Stage) -> bool
    ensures { result ≡ is_some (end_of stage) }
{
    matches!(stage, Stage::Offered(_) | Stage::Cut(_))
}

/// The lesser of the word and a cost.
fn lowered(word: Option<u32>, cost: u32) -> u32
    ensures { result ≡ lowered word cost }
{
    match word {
        Some(word) => word.min(cost),
        None => cost,
    }
}
