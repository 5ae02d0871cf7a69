// Laws of command lines, as calls that do nothing.
ghost use Rattle.command_line.specs.Laws.{HasExactNumbers, HasFewWorkers};

/// States that a text spells a number if and only if it is the number's decimal digits, and the number is in range.
pub fn exact_numbers()
    ensures { HasExactNumbers }
{}

/// States that a line that asks for `serve` or `explain` has 1 to 64 workers.
pub fn workers_in_range()
    ensures { HasFewWorkers }
{}
