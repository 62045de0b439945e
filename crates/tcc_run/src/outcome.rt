//! What is said about a snapshot: its first answer, or all its read faults.
ghost use Rattle.std.specs.Prelude.{◌≡◌, ◌↔◌, ℕ, IfErr, IfOk, IsTrue, OnOk, option_map};
ghost use Rattle.tcc_txn.specs.Finished.{KeepsLimits};
ghost use Rattle.tcc_graph.specs.{Levels.judged, Orders.IsFirstOrder, Ties.IsFirstCycle};
ghost use Rattle.tcc_answering.specs.Firsts.{IsFirst};
ghost use Rattle.std.specs.Io.KnownBytes.{Appends};
ghost use Rattle.tcc_print.specs.{Courses.AreSaidFaults, Printed.EndsIn, declared.options.Options.Options};
ghost use Rattle.tcc_run.specs.private.Stages.{IsBareOf, IsFoundOf, outcome_answer, outcome_links, outcome_said, outcome_status, outcome_text};

use crate::bare::{bare_answer, cycle_answer, order_answer};
use crate::claims::cycle_claim;
use crate::held_graph::{HeldGraph, HeldSmallGraph};
use crate::room::has_order_room;
use std::alloc::Global;
use std::io::Write;
use tcc_answer::{Answer, Labels};
use tcc_answering::First;
use tcc_cert::{LargeCertificate, order_claim};
use tcc_graph::{LargeGraph, Level, Link};
use tcc_order::laws::order_or_cycle;
use tcc_print::printing::{send_answer, send_unresolved};
use tcc_print::status::answer_status;
use tcc_print::{Options, Status};
use tcc_reads::ReadFault;
use tcc_txn::{Bounds, MAX_SESSIONS, MAX_TRANSACTIONS, NoMemory, SnapshotWithin};

/// What is said about a snapshot.
#[derive(Drop)]
pub(crate) enum Outcome {
    /// All its read faults.
    Unresolved(Vec<ReadFault>),
    /// Within the small limits, where its certificate is wanted: its graph, and its first answer with the tables of that.
    Tabled {
        graph: HeldSmallGraph,
        answer: Answer,
    },
    /// Within them, where none is wanted: its graph, whose history has the tables, and its first answer without them.
    Bare {
        graph: HeldGraph,
        answer: Answer,
    },
    /// Above them: its graph, its first answer, without the tables of a small one, and what its certificate claims.
    Large {
        graph: HeldGraph,
        answer: Answer,
        claim: LargeCertificate,
    },
}

/// Whether a snapshot keeps the small limits.
pub(crate) fn is_small<B: Bounds>(snapshot: &SnapshotWithin<B>) -> bool
    ensures { IsTrue result ↔ KeepsLimits snapshot.now }
{
    let sessions = snapshot.sessions() as usize;
    let transactions = snapshot.transactions();
    sessions <= MAX_SESSIONS && transactions <= MAX_TRANSACTIONS
}

impl Outcome {
    /// What is said about a history by its first answer, without a claim.
    pub(crate) fn of_small(
        alloc: Global,
        level: Level,
        graph: LargeGraph,
        first: First,
    ) -> Result<Outcome, NoMemory>
        ensures { IsFirst (judged graph level) first → IfOk result (IsBareOf level graph) }
    {
        let answer = bare_answer(alloc, &graph, level, first)?;
        let held = HeldGraph::new(alloc, graph)?;
        Ok(Outcome::Bare {
            graph: held,
            answer,
        })
    }

    /// What is said about a history by its first commit order.
    fn of_order(
        alloc: Global,
        level: Level,
        graph: LargeGraph,
        order: Vec<u32>,
    ) -> Result<Outcome, NoMemory>
        ensures { IsFirstOrder (judged graph level) order.items → IfOk result (IsFoundOf level graph) }
    {
        // These calls ensure that where there is an order there is no cycle, and that its claim has a text.
        order_or_cycle();
        has_order_room(&graph);
        let claim = LargeCertificate::Order(order_claim(alloc, &graph, level, &order)?);
        let labels = Labels::of_large(alloc, &graph)?;
        let answer = order_answer(alloc, &graph, level, order, labels);
        let held = HeldGraph::new(alloc, graph)?;
        Ok(Outcome::Large {
            graph: held,
            answer,
            claim,
        })
    }

    /// What is said about a history by the first of its least cycles. What the cycle claims may be judged by an order.
    fn of_cycle(
        alloc: Global,
        level: Level,
        graph: LargeGraph,
        links: Vec<Link>,
        order: &Option<Vec<u32>>,
    ) -> Result<Outcome, NoMemory>
        ensures { (s : ℕ) → IsFirstCycle (judged graph level) s links.items → IfOk result (IsFoundOf level graph) }
    {
        let claim = LargeCertificate::Cycle(cycle_claim(alloc, &graph, level, &links, order)?);
        let labels = Labels::of_large(alloc, &graph)?;
        let answer = cycle_answer(alloc, level, links, labels)?;
        let held = HeldGraph::new(alloc, graph)?;
        Ok(Outcome::Large {
            graph: held,
            answer,
            claim,
        })
    }

    /// What is said about a history by its first answer, with what its certificate claims. That may be judged by an order.
    pub(crate) fn of_large(
        alloc: Global,
        level: Level,
        graph: LargeGraph,
        first: First,
        order: &Option<Vec<u32>>,
    ) -> Result<Outcome, NoMemory>
        ensures { IsFirst (judged graph level) first → IfOk result (IsFoundOf level graph) }
    {
        match first {
            First::Order(placed) => Outcome::of_order(alloc, level, graph, placed),
            First::Cycle(links) => Outcome::of_cycle(alloc, level, graph, links, order),
        }
    }

    /// How a run ends whose last answer this is, where this many transactions are required of an order.
    pub(crate) fn status(&self, required: u32) -> Status
        ensures { result ≡ outcome_status required self.now }
    {
        match self {
            Outcome::Unresolved(_) => Status::ReadFaults,
            Outcome::Tabled { answer, .. }
            | Outcome::Bare { answer, .. }
            | Outcome::Large { answer, .. } => answer_status(answer, required),
        }
    }

    /// Writes it as text or as a line of JSON; else the run ends with this code.
    pub(crate) fn send<W: Write>(
        &self,
        alloc: Global,
        options: &Options,
        out: &mut W,
    ) -> Result<(), u8>
        ensures whole { OnOk result (Appends (W.contents out.old) (W.contents out.new) (outcome_text options.now.json self.now)) }
        ensures ended { IfErr result (EndsIn options.now.json (W.contents out.old) (W.contents out.new) (outcome_text options.now.json self.now)) }
    {
        let json = options.json;
        match self {
            Outcome::Unresolved(faults) => send_unresolved(alloc, faults, json, out),
            Outcome::Tabled { answer, .. }
            | Outcome::Bare { answer, .. }
            | Outcome::Large { answer, .. } => send_answer(alloc, answer, json, out),
        }
    }

    /// The read faults that it reports; none where it reports an answer.
    pub(crate) fn read_faults(&self) -> &[ReadFault]
        ensures { (options : Options) → AreSaidFaults options (outcome_said options self.now) result.now }
    {
        match self {
            Outcome::Unresolved(faults) => faults,
            _ => &[],
        }
    }

    /// The links of the cycle, where it has one.
    pub(crate) fn links(&self) -> Option<&[Link]>
        ensures { option_map (λ links. links.now) result ≡ outcome_links self.now }
    {
        match self {
            Outcome::Tabled {
                answer: Answer::Anomaly(anomaly),
                ..
            }
            | Outcome::Bare {
                answer: Answer::Anomaly(anomaly),
                ..
            }
            | Outcome::Large {
                answer: Answer::Anomaly(anomaly),
                ..
            } => Some(anomaly.links()),
            _ => None,
        }
    }

    /// The answer, where it is one.
    pub(crate) fn into_answer(self) -> Option<Answer>
        ensures { result ≡ outcome_answer self }
    {
        match self {
            Outcome::Unresolved(_) => None,
            Outcome::Tabled { graph, answer } => {
                drop(graph);
                Some(answer)
            }
            Outcome::Bare { graph, answer } => {
                drop(graph);
                Some(answer)
            }
            Outcome::Large { graph, answer, .. } => {
                drop(graph);
                Some(answer)
            }
        }
    }
}
