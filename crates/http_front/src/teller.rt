// Who answers asks.
ghost use Rattle.std.specs.Prelude.{◌≡◌, Result};
ghost use Rattle.office_types.specs.declared.command.Ask.{Ask};
ghost use Rattle.desk_core.specs.Answers.{Answer};
ghost use Rattle.desk_core.specs.declared.fault.DeskFault.{DeskFault};

use desk_core::{Acked, DeskFault};
use office_types::Ask;

/// Answers the asks of a session.
pub trait Teller {
    /// From the first, an ask with this answer leads to the second.
    ghost moves: { Self → Ask → Result Answer DeskFault → Self → Type 0 };

    /// Answers an ask.
    ///
    /// # Errors
    ///
    /// Those of `DeskFault`. It takes further asks after each of them.
    fn ask(&mut self, ask: &Ask) -> Result<Acked, DeskFault>
        ensures moves { moves self.old ask.now result self.new };

    /// The answer to the last ask was said, or was given up, and is no longer in memory.
    fn answered(&mut self)
        ensures { self.new ≡ self.old };
}
