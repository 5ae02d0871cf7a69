// Laws of every office, as functions that do nothing.
ghost use Rattle.std.specs.Prelude.{◌≡◌, ◌↔◌, ℕ, ◌<◌, ◌≤◌, ◌++◌, ◌∷◌, List, []};
ghost use Rattle.std.specs.Prelude.{Option, Some, None, Ok, true, filter, is_none};
ghost use Rattle.std.specs.List.{AllByRecursion};
ghost use Rattle.office_base.specs.Maps.{at_name, at_number};
ghost use Rattle.office_base.specs.declared.version_id.VersionId.{VersionId};
ghost use Rattle.class_rules.specs.declared.class.Class.{Class};
ghost use Rattle.tariff.specs.Prices.{Prices};
ghost use Rattle.stacks.specs.Stacks.{version_at};
ghost use Rattle.stacks.specs.declared.version.Version.{Version};
ghost use Rattle.uploads.specs.Uploads.{UploadRecord};
ghost use Rattle.uploads.specs.declared.part.Part.{Part};
ghost use Rattle.due_core.specs.Candidates.{candidates};
ghost use Rattle.due_core.specs.Choice.{choice};
ghost use Rattle.due_core.specs.declared.action.Action.{Action};
ghost use Rattle.office_types.specs.declared.command.Command.{Command};
ghost use Rattle.office_types.specs.declared.command.Command.TheVariants as command;
ghost use Rattle.office_types.specs.declared.command.Entry.{Entry};
ghost use Rattle.office_types.specs.declared.command.Query.TheVariants as query;
ghost use Rattle.office_types.specs.declared.reply.Reply.TheVariants.{NothingDue};
ghost use Rattle.plain_office.specs.Office.{Office, Account, Booked, of_version, of_part, empty_office, book_of};
ghost use Rattle.plain_office.specs.Books.{is_open_stay};
ghost use Rattle.plain_office.specs.Changes.{versions_of, effect};
ghost use Rattle.plain_office.specs.Charges.{in_force};
ghost use Rattle.plain_office.specs.Orderly.{IsOrderly, SizeFits, HasOpenStays, stays_expected, stay_of_version};
ghost use Rattle.plain_office.specs.Orderly.{stay_of_part};
ghost use Rattle.plain_office.specs.Once.{step_with};
ghost use Rattle.plain_office.specs.Step.{step, shown_action, marker_made};
ghost use Rattle.plain_office.specs.Answers.{answer};
ghost use Rattle.plain_office.specs.Run.{is_not_before, run_from, run};
ghost use Rattle.plain_office.specs.Sweep.{IsSwept};
ghost use Rattle.office_laws.specs.Commands.{SizesFit, IsElsewhere, OnlyActs};
ghost use Rattle.office_laws.specs.ClosedMonths.{IsClosedMonth, ReadsSame};
ghost use Rattle.office_laws.specs.Bound.{most_actions, HasSweepWithin};
ghost use Rattle.office_laws.specs.Tariffs.{IsInForce};

/// States that the empty office is orderly, and that each command, with or without a token, keeps an office orderly. So
/// the office after each run is orderly.
pub fn steps_are_orderly()
    ensures begins { IsOrderly empty_office }
    ensures keeps { (t : ℕ) (token : Option (List ℕ)) (c : Command) (p : Office)
        → SizeFits c → IsOrderly p → is_not_before p.last t ≡ true → IsOrderly (step_with t token c p).0 }
    ensures runs { (entries : List Entry) (p : Office) → SizesFit entries → run entries ≡ Some p → IsOrderly p }
{}

/// States that each open stay is the one that the records give for its key and item, and that each version and each
/// part has exactly one.
pub fn open_stays_are_those_of_the_records()
    ensures asked { (account : Account) (front back : List Booked) (stay : Booked)
        → HasOpenStays account → account.books.stays ≡ front ++ stay ∷ back → is_none stay.1.to ≡ true
        → stays_expected account.bucket stay.0.key stay.0.item ≡ stay ∷ [] }
    ensures version { (account : Account) (key : List ℕ) (id : VersionId) (version : Version)
        → HasOpenStays account → version_at id (versions_of key account.bucket) ≡ Some version
        → filter (is_open_stay key (of_version id)) account.books.stays ≡ stay_of_version key version ∷ [] }
    ensures part { (account : Account) (number place : ℕ) (upload : UploadRecord) (part : Part)
        → HasOpenStays account → at_number number account.bucket.uploads ≡ Some upload
        → at_number place upload.parts ≡ Some part
        → filter (is_open_stay upload.key (of_part number place)) account.books.stays
        ≡ stay_of_part number upload place part ∷ [] }
{}

/// States that a closed month stays closed, with its tariff. No later command changes its meters, early quantities,
/// moves and report.
///
/// Own rule: a month is closed by a command.
pub fn closed_months_stay()
    ensures closed { (t : ℕ) (token : Option (List ℕ)) (c : Command) (p : Office) (month : ℕ) (tariff : Prices)
        → SizeFits c → IsOrderly p → is_not_before p.last t ≡ true → at_number month p.closed ≡ Some tariff
        → at_number month (step_with t token c p).0.closed ≡ Some tariff }
    ensures readings { (t u v : ℕ) (token : Option (List ℕ)) (c : Command) (p : Office) (month : ℕ) (name : List ℕ)
        (class : Class) (before after : Account)
        → SizeFits c → is_not_before p.last t ≡ true → IsClosedMonth month u v p
        → at_name name p.accounts ≡ Some before → at_name name (step_with t token c p).0.accounts ≡ Some after
        → ReadsSame month class u v (book_of before.books) (book_of after.books) }
    ensures meters { (t u v : ℕ) (token : Option (List ℕ)) (c : Command) (p : Office) (month : ℕ) (name : List ℕ)
        (account : Account)
        → SizeFits c → is_not_before p.last t ≡ true → IsClosedMonth month u v p
        → at_name name p.accounts ≡ Some account
        → answer v (query.Meters name month) (step_with t token c p).0 ≡ answer u (query.Meters name month) p }
    ensures report { (t u v : ℕ) (token : Option (List ℕ)) (c : Command) (p : Office) (month : ℕ)
        → SizeFits c → is_not_before p.last t ≡ true → IsClosedMonth month u v p
        → answer v (query.Report month) (step_with t token c p).0 ≡ answer u (query.Report month) p }
{}

/// States the same for any number of later commands.
pub fn closed_months_stay_for_good()
    ensures meters { (entries : List Entry) (u v : ℕ) (p q : Office) (month : ℕ) (name : List ℕ) (account : Account)
        → SizesFit entries → run_from (Some p) entries ≡ Some q → IsClosedMonth month u v p
        → at_name name p.accounts ≡ Some account
        → answer v (query.Meters name month) q ≡ answer u (query.Meters name month) p }
    ensures report { (entries : List Entry) (u v : ℕ) (p q : Office) (month : ℕ)
        → SizesFit entries → run_from (Some p) entries ≡ Some q → IsClosedMonth month u v p
        → answer v (query.Report month) q ≡ answer u (query.Report month) p }
{}

/// States that the tariff in force in a month is the one with the latest first month that is not after the month. If
/// none is in force, all tariffs begin later.
///
/// Own rule: a tariff holds from its first month on, up to the first month of the next one.
#[tactic(auto, using(crate::proofs::Tariffs::none_holds))]
pub fn the_latest_tariff_is_in_force()
    ensures found { (p : Office) (month : ℕ) (tariff : Prices) → IsOrderly p
        → in_force month p.tariffs ≡ Some tariff → IsInForce month tariff p.tariffs }
    ensures none { (p : Office) (month : ℕ) → in_force month p.tariffs ≡ None
        → AllByRecursion (λ other. month < other.from) p.tariffs }
{}

/// States that a command does not change the records and books of any bucket that it does not name.
pub fn other_buckets_stay()
    ensures { (t : ℕ) (token : Option (List ℕ)) (c : Command) (p : Office) (name : List ℕ) → IsElsewhere name c
        → at_name name (step_with t token c p).0.accounts ≡ at_name name p.accounts }
{}

/// States that an act does the choice and replies with it. An act and the query for what is due reply that nothing is
/// due if and only if there is no candidate.
///
/// Rule: S3 User Guide, "Managing the lifecycle of objects".
pub fn an_act_does_the_choice()
    ensures chosen { (t : ℕ) (p : Office) (name : List ℕ) (account : Account) (action : Action)
        → at_name name p.accounts ≡ Some account → choice account.bucket t ≡ Some action
        → (at_name name (step t (command.Act name) p).0.accounts ≡ Some (effect action account))
        × ((step t (command.Act name) p).1
        ≡ Ok (shown_action action (marker_made action.kind account.bucket) account.bucket)) }
    ensures nothing { (t : ℕ) (p : Office) (name : List ℕ) (account : Account)
        → at_name name p.accounts ≡ Some account
        → ((step t (command.Act name) p).1 ≡ Ok NothingDue) ↔ (candidates account.bucket t ≡ []) }
    ensures asked { (t : ℕ) (p : Office) (name : List ℕ) (account : Account)
        → at_name name p.accounts ≡ Some account
        → (answer t (query.Due name) p ≡ Ok NothingDue) ↔ (candidates account.bucket t ≡ []) }
{}

/// States that if an act replies that nothing is due, the sweep at that moment does nothing, and the office is
/// unchanged.
pub fn nothing_due_is_the_empty_sweep()
    ensures swept { (t : ℕ) (p : Office) (name : List ℕ) (account : Account)
        → at_name name p.accounts ≡ Some account → (step t (command.Act name) p).1 ≡ Ok NothingDue
        → IsSwept t [] account account }
    ensures same { (t : ℕ) (p : Office) (name : List ℕ) (account : Account)
        → at_name name p.accounts ≡ Some account → (step t (command.Act name) p).1 ≡ Ok NothingDue
        → (step t (command.Act name) p).0 ≡ p }
{}

/// States that each bucket of an orderly office has exactly one sweep at each moment, and that its number of actions is
/// within the bound.
pub fn every_sweep_ends()
    ensures ends { (u : ℕ) (p : Office) (name : List ℕ) (account : Account)
        → IsOrderly p → at_name name p.accounts ≡ Some account
        → HasSweepWithin u account (most_actions account.bucket) }
    ensures one { (u : ℕ) (actions others : List Action) (before after end : Account)
        → IsSwept u actions before after → IsSwept u others before end → (actions ≡ others) × (after ≡ end) }
{}

/// States that sweeping at a moment and again at a later one has the same result as sweeping at the later one.
pub fn sweeping_twice_is_sweeping_once()
    ensures { (t u : ℕ) (actions others : List Action) (before middle after : Account)
        → t ≤ u → IsSwept t actions before middle → IsSwept u others middle after
        → IsSwept u (actions ++ others) before after }
{}

/// States that if only acts were done to a bucket by a moment, sweeping it then gives the same records and books as if
/// nothing had been done.
pub fn acts_change_no_later_sweep()
    ensures swept { (entries : List Entry) (u : ℕ) (p q : Office) (name : List ℕ) (others : List Action)
        (before after end : Account)
        → AllByRecursion (OnlyActs name u) entries → run_from (Some p) entries ≡ Some q
        → at_name name p.accounts ≡ Some before → at_name name q.accounts ≡ Some after → IsSwept u others after end
        → (all : List Action) × IsSwept u all before end }
    ensures same { (entries : List Entry) (u : ℕ) (p q : Office) (name : List ℕ) (others all : List Action)
        (before after end last : Account)
        → AllByRecursion (OnlyActs name u) entries → run_from (Some p) entries ≡ Some q
        → at_name name p.accounts ≡ Some before → at_name name q.accounts ≡ Some after
        → IsSwept u others after end → IsSwept u all before last
        → last ≡ end }
{}
