// The law of tables, as a call that does nothing.
ghost use Rattle.route_table.specs.Laws.{HasOneAnswer};

/// States that a path has one list of parts for a pattern, and never two patterns that are apart.
pub fn one_answer()
    ensures { HasOneAnswer }
{}
