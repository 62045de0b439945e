//! The law of a writer that leaves out the lines of orders.
ghost use Rattle.std.specs.Prelude.{◌≡◌, All, List, flat_map, ℕ};
ghost use Rattle.tcc_cli.specs.OrderLines.{IsLine, ended, shown, without_orders};
ghost use Rattle.tcc_cli.specs.declared.quiet.LineState.TheVariants.{Begun};

/// Of a text of whole lines all those are shown that don't begin as the line of an order does, and nothing else.
pub fn orders_left_out()
    ensures { (lines : List (List ℕ)) → All IsLine lines → shown (Begun 0) (flat_map ended lines) ≡ flat_map ended (without_orders lines) }
{}
