// Laws that say what the definitions mean.
ghost use Rattle.std.specs.Prelude.{◌≡◌, ◌≤◌, ℕ, List, Some};
ghost use Rattle.due_core.specs.Buckets.{BucketRecord};
ghost use Rattle.due_core.specs.Choice.{choice, comes_before, least, IsLeast, IsQueue};
ghost use Rattle.due_core.specs.declared.action.Action.{Action};
ghost use Rattle.due_core.specs.declared.action.Candidate.{Candidate};

/// States that the least of a list of candidates is one of them, and that none comes before it.
#[tactic(auto, using(crate::proofs::Precedence::first_candidate))]
pub fn the_choice_is_the_least()
    ensures { (candidates : List Candidate) → IsLeast comes_before candidates (least comes_before candidates) }
{}

/// States that a bucket's choice at a moment is its choice at every later moment too, as long as the bucket is
/// unchanged.
#[tactic(auto, using(crate::proofs::Later::choice_stays))]
pub fn the_choice_stays()
    ensures { (bucket : BucketRecord) (t u : ℕ) (action : Action) → t ≤ u
        → choice bucket t ≡ Some action → choice bucket u ≡ Some action }
{}

/// States that a list of candidates has only one queue.
pub fn the_queue_is_one()
    ensures { (candidates : List Candidate) (queue other : List Action) → IsQueue candidates queue
        → IsQueue candidates other → queue ≡ other }
{}
