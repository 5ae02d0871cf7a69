// Midnights, and the moments at which actions by days are due.
ghost use Rattle.std.specs.Prelude.{◌≡◌, ◌<◌, ◌≤◌, ℕ, IfOk, IfErr, OnErr};
ghost use Rattle.moments.specs.Time.{next_midnight, due, end_of_time, IsNextMidnight};

use crate::moment::DAY;
use crate::{Moment, MomentRefusal};

/// Gives the first midnight UTC that is not before a moment; a midnight itself stays. Takes no memory.
///
/// Rule: S3 User Guide, "Lifecycle configuration elements": times are rounded up to the next midnight UTC. Own rule: an
/// exact midnight stays.
///
/// # Errors
///
/// `PastEnd`: that midnight is `END` or later.
pub fn up(m: Moment) -> Result<Moment, MomentRefusal>
    ensures ok { IfOk result (λ u. (u ≡ next_midnight m) × (next_midnight m < end_of_time)) }
    ensures past_end { OnErr result (end_of_time ≤ next_midnight m) }
    ensures refusal { IfErr result (λ e. e ≡ MomentRefusal.PastEnd) }
{
    Moment::of(m.ms().div_ceil(DAY) * DAY)
}

/// Gives the moment at which an action is due, this many days after a moment and rounded up to a midnight UTC. Takes no
/// memory.
///
/// Rule: S3 User Guide, "Lifecycle configuration elements".
///
/// # Errors
///
/// `PastEnd`: that midnight is `END` or later, so the action is never due.
pub fn due_after(m: Moment, days: u32) -> Result<Moment, MomentRefusal>
    ensures ok { IfOk result (λ at. (at ≡ due m days) × (due m days < end_of_time)) }
    ensures past_end { OnErr result (end_of_time ≤ due m days) }
    ensures refusal { IfErr result (λ e. e ≡ MomentRefusal.PastEnd) }
{
    let later = m.ms() + days as u64 * DAY;
    Moment::of(later.div_ceil(DAY) * DAY)
}

/// States that the formula of a midnight gives the least one that is not before the moment, and that there is only one.
pub fn next_midnights()
    ensures is { (m : ℕ) → IsNextMidnight m (next_midnight m) }
    ensures only { (m u : ℕ) → IsNextMidnight m u → u ≡ next_midnight m }
{}
