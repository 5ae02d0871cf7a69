// The law of routes, as a call that does nothing.
ghost use Rattle.http_routes.specs.Laws.{HasOneRoute};

/// States that a target names at most one resource, with one list of parts.
pub fn one_route()
    ensures { HasOneRoute }
{}
