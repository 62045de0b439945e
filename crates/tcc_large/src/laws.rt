//! The law of least cycles: they pass no transaction twice.
ghost use Rattle.std.specs.Prelude.{List};
ghost use Rattle.tcc_graph.specs.{Levels.Judged, declared.link.Link.Link};
ghost use Rattle.tcc_least.specs.Shapes.{AreLeast};
ghost use Rattle.tcc_large.specs.Cycles.{IsSimple};

/// At each level, no two of the links of a least cycle start at one transaction: without what lies between them it would cost less.
pub fn least()
    ensures { (j : Judged) (links : List Link) → AreLeast j links → IsSimple links }
{}
