//! Answers: a commit order, or an anomaly, each with its certificate.
ghost use Rattle.std.specs.Prelude.{◌≡◌, [], ℕ, OnErr, OnOk, take};
ghost use Rattle.std.specs.Io.KnownBytes.{Appends};
ghost use Rattle.tcc_graph.specs.Links.{cost};
ghost use Rattle.tcc_cert.specs.declared.certificate.Certificate.TheVariants as claim;
ghost use Rattle.tcc_cert.specs.Texts.{certificate_text};
ghost use Rattle.tcc_answer.specs.Shapes.{shape_of};
ghost use Rattle.tcc_answer.specs.Claims.{certificate_of, cycle_claim, order_claim};

use crate::CappedRows;
use crate::shape::{Shape, shape_of};
use std::alloc::Global;
use std::io::Write;
use std::marker::Model;
use tcc_cert::{
    CertWriteFault, Certificate, CycleTable, CycleWriter, Links, Numbers, OrderClaim, Table,
    Version, write, write_first_lines,
};
use tcc_graph::{Labels, Level, Link};

/// A commit order of a history at a level, with its certificate and the names that it prints.
#[derive(Drop)]
pub struct Commit {
    certificate: Certificate,
    labels: Labels,
}

impl Model for Commit {
    ghost use Rattle.tcc_answer.specs.{Answers.LabelledOrder, private.Stored.order_in, private.Stored.ClaimsOrder};

    ghost Value = { LabelledOrder };

    ghost view = { λ c. record {
      level = (order_in c.certificate).level;
      order = (order_in c.certificate).order;
      sessions = (order_in c.certificate).sessions;
      clocks = (order_in c.certificate).clocks;
      labels = c.labels;
    } };

    ghost invariant = { λ c. ClaimsOrder c.certificate };
}

impl Commit {
    /// The order at this level of a snapshot with so many sessions, the clocks, and the names of the transactions.
    pub fn new(level: Level, order: Numbers, sessions: u32, clocks: Table, labels: Labels) -> Commit
        ensures { result ≡ record { level = level; order = order; sessions = sessions; clocks = clocks; labels = labels } }
    {
        Commit {
            certificate: Certificate::Order(OrderClaim {
                version: Version::Two,
                level,
                order,
                sessions,
                clocks,
            }),
            labels,
        }
    }

    /// The certificate, with the answer's own level and order.
    pub fn certificate(&self) -> &Certificate
        ensures { result.now ≡ claim.Order (order_claim self.now) }
    {
        &self.certificate
    }

    /// The numbers of all transactions, `init` among them, in the order.
    pub fn order(&self) -> &[u32]
        ensures { result.now ≡ self.now.order }
    {
        match &self.certificate {
            Certificate::Order(claim) => claim.order.as_slice(),
            Certificate::Cycle(_) => &[],
        }
    }

    /// How many sessions the snapshot has.
    pub fn sessions(&self) -> u32
        ensures { result ≡ self.now.sessions }
    {
        match &self.certificate {
            Certificate::Order(claim) => claim.sessions,
            Certificate::Cycle(_) => 0,
        }
    }

    /// The names of the transactions.
    pub(crate) fn labels(&self) -> &Labels
        ensures { result.now ≡ self.now.labels }
    {
        &self.labels
    }
}

/// The tables by which a cycle can be checked, capped at its cost.
#[derive(Drop)]
struct Distances {
    /// The least lengths of walks.
    near: CappedRows,
    /// The least costs of routes.
    far: CappedRows,
}

/// A cycle that no commit order can keep at a level, with the tables of its certificate and the names that it prints.
#[derive(Drop)]
pub struct Anomaly {
    level: Level,
    links: Links,
    /// How many steps the links have together.
    steps: u32,
    distances: Distances,
    labels: Labels,
}

impl Model for Anomaly {
    ghost use Rattle.std.specs.Prelude.{◌≡◌};
    ghost use Rattle.tcc_graph.specs.Links.{cost};
    ghost use Rattle.tcc_answer.specs.Answers.{LabelledCycle};

    ghost Value = { LabelledCycle };

    ghost view = { λ a. record {
      level = a.level;
      links = a.links;
      near = a.distances.near;
      far = a.distances.far;
      labels = a.labels;
    } };

    ghost invariant = { λ a. a.steps ≡ cost a.links };
}

impl Anomaly {
    /// The links of a cycle at this level, how many steps they have together, the distances, and the names of the
    /// transactions.
    pub fn new(
        level: Level,
        links: Links,
        steps: u32,
        near: CappedRows,
        far: CappedRows,
        labels: Labels,
    ) -> Anomaly
        requires { steps ≡ cost links }
        ensures { result ≡ record { level = level; links = links; near = near; far = far; labels = labels } }
    {
        Anomaly {
            level,
            links,
            steps,
            distances: Distances { near, far },
            labels,
        }
    }

    /// Writes the text of the certificate, with the answer's own level and links, row by row; no memory is taken. Where a
    /// write fails, a part of the text, from its front, was written; an interrupted write and one that takes no bytes are
    /// failures too.
    pub fn write_certificate<W: Write>(&self, out: &mut W) -> Result<(), CertWriteFault>
        ensures whole { OnOk result (Appends (W.contents out.old) (W.contents out.new)
            (certificate_text (claim.Cycle (cycle_claim self.now)))) }
        ensures part { OnErr result ((n : ℕ) × Appends (W.contents out.old) (W.contents out.new)
            (take n (certificate_text (claim.Cycle (cycle_claim self.now))))) }
    {
        let count = self.distances.near.len();
        let steps = self.steps;
        let begun = write_first_lines(out, Version::Two, self.level, count, &self.links, steps)?;
        let mut writer = CycleWriter::behind(out, begun);
        self.distances.near.write(&mut writer, CycleTable::Near)?;
        self.distances.far.write(&mut writer, CycleTable::Far)?;
        writer.end()
    }

    /// The links, in order.
    pub fn links(&self) -> &[Link]
        ensures { result.now ≡ self.now.links }
    {
        self.links.as_slice()
    }

    /// How many steps the links have together, every use counted.
    pub fn cost(&self) -> u32
        ensures { result ≡ cost self.now.links }
    {
        self.steps
    }

    /// The level at which it is a cycle.
    pub fn level(&self) -> Level
        ensures { result ≡ self.now.level }
    {
        self.level
    }

    /// What the cycle looks like.
    pub fn shape(&self) -> Shape
        ensures { result ≡ shape_of self.now.links }
    {
        shape_of(self.links())
    }

    /// The names of the transactions.
    pub fn labels(&self) -> &Labels
        ensures { result.now ≡ self.now.labels }
    {
        &self.labels
    }

    /// The least lengths of walks, capped at the cost of the cycle.
    pub(crate) fn near(&self) -> &CappedRows
        ensures { result.now ≡ self.now.near }
    {
        &self.distances.near
    }

    /// The least costs of routes, capped at the cost of the cycle.
    pub(crate) fn far(&self) -> &CappedRows
        ensures { result.now ≡ self.now.far }
    {
        &self.distances.far
    }

    /// What the anomaly says, without the distances by which it can be checked. No memory is taken, and theirs is given back.
    pub fn without_tables(self, alloc: Global) -> Anomaly
        ensures { result ≡ record { level = self.level; links = self.links; near = []; far = []; labels = self.labels } }
    {
        Anomaly {
            level: self.level,
            links: self.links,
            steps: self.steps,
            distances: Distances {
                near: CappedRows::empty(alloc),
                far: CappedRows::empty(alloc),
            },
            labels: self.labels,
        }
    }
}

/// The answer for a history at a level: a commit order, or an anomaly where there is none.
#[derive(Drop)]
pub enum Answer {
    Commit(Commit),
    Anomaly(Anomaly),
}

impl Answer {
    /// Writes the text of the certificate, with the answer's own level, order or links; no memory is taken. Where a write
    /// fails, a part of the text, from its front, was written; an interrupted write and one that takes no bytes are failures too.
    pub fn write_certificate<W: Write>(&self, out: &mut W) -> Result<(), CertWriteFault>
        ensures whole { OnOk result (Appends (W.contents out.old) (W.contents out.new) (certificate_text (certificate_of self.now))) }
        ensures part { OnErr result ((n : ℕ) × Appends (W.contents out.old) (W.contents out.new) (take n (certificate_text (certificate_of self.now)))) }
    {
        match self {
            Answer::Commit(commit) => write(commit.certificate(), out),
            Answer::Anomaly(anomaly) => anomaly.write_certificate(out),
        }
    }
}
