//! The law of links: session pairs and the others say what they lead to.
ghost use Rattle.tcc_graph.specs.Levels.{Judged};
ghost use Rattle.tcc_derive.specs.{Prices.Tables, Prices.IsPricesOf, LinksOn.AreLinks};

/// A link leads from one transaction to another exactly if a session pair does, at cost 1, or if the other is among the others
/// of the one, at the cost given there.
pub fn links()
    ensures { (j : Judged) (t : Tables) → IsPricesOf j t → AreLinks j t }
{}
