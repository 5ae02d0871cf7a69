// Laws that say what the definitions mean.
ghost use Rattle.std.specs.Prelude.{◌≡◌, ◌≤◌, ◌∷◌, ℕ, List, Some};
ghost use Rattle.due_core.specs.Choice.{choice};
ghost use Rattle.due_core.specs.declared.action.Action.{Action};
ghost use Rattle.plain_office.specs.Office.{Account};
ghost use Rattle.plain_office.specs.Changes.{effect};
ghost use Rattle.plain_office.specs.Sweep.{IsSwept};

/// States that doing the choice of a moment and then sweeping at a later one has the same result as sweeping at the
/// later one.
pub fn an_early_act_is_part_of_the_sweep()
    ensures { (t u : ℕ) (action : Action) (actions : List Action) (before after : Account) → t ≤ u
        → choice before.bucket t ≡ Some action
        → IsSwept u actions (effect action before) after → IsSwept u (action ∷ actions) before after }
{
    due_core::the_choice_stays();
}
