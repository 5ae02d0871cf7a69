// Where the generator is between two commands.
ghost use Rattle.std.specs.Prelude.{◌≡◌, ◌<◌, ◌-◌, ◌^◌, ℕ};
ghost use Rattle.generator.specs.Draws.{draw, next_state, state_after};
ghost use Rattle.generator.specs.Places.{place_before, class_ranked, first_draft, draft_of};
ghost use Rattle.generator.specs.Places.{draws_of, kind_drawn, drawn, draft_at, next_place};

use crate::draft::Draft;
use crate::draws::Draws;
use class_rules::Class;
use moments::Moment;

// 2024-01-01 00:00 UTC.
const START: u64 = 1_704_067_200_000;

// The clock goes on by less than this between two commands: 6 hours, in milliseconds.
const LONGEST_STEP: u64 = 21_600_000;

// Puts and parts have fewer bytes than this.
const MOST_BYTES: u64 = 1_048_576;

// How many commands were drawn, the moment of the last one, and the state of the draws.
#[derive(Clone, Copy)]
pub(crate) struct Place {
    pub(crate) made: u64,
    pub(crate) moment: u64,
    pub(crate) state: u64,
}

// The class of this rank.
fn class_at(rank: u64) -> Class
    ensures { result ≡ class_ranked rank }
{
    match rank {
        0 => Class::Standard,
        1 => Class::StandardIa,
        2 => Class::OnezoneIa,
        3 => Class::GlacierIr,
        4 => Class::Glacier,
        _ => Class::DeepArchive,
    }
}

// One of the first eight commands.
fn first_draft(made: u64) -> Draft
    ensures { result ≡ first_draft made }
{
    match made {
        4 => Draft::Enable { bucket: 1 },
        5 => Draft::SetRules { bucket: 0 },
        6 => Draft::SetRules { bucket: 1 },
        7 => Draft::SetTariff,
        bucket => Draft::CreateBucket { bucket },
    }
}

fn put(draws: &mut Draws, bucket: u64, key: u64) -> Draft
    ensures draft { result ≡ draft_of 0 bucket key draws.old.state }
    ensures state { draws.new.state ≡ state_after 2 draws.old.state }
{
    let size = draws.draw() % MOST_BYTES;
    let class = class_at(draws.draw() % 6);
    Draft::Put {
        bucket,
        key,
        size,
        class,
    }
}

fn put_part(draws: &mut Draws, bucket: u64) -> Draft
    ensures draft { result ≡ draft_of 10 bucket 0 draws.old.state }
    ensures state { draws.new.state ≡ state_after 3 draws.old.state }
{
    let upload = 1 + draws.draw() % 8;
    let part = 1 + draws.draw() % 4;
    let size = draws.draw() % MOST_BYTES;
    Draft::PutPart {
        bucket,
        upload,
        part: part as u32,
        size,
    }
}

// A command of this kind, one of 16.
fn of_kind(draws: &mut Draws, kind: u64, bucket: u64, key: u64) -> Draft
    ensures draft { result ≡ draft_of kind bucket key draws.old.state }
    ensures state { draws.new.state ≡ state_after (draws_of kind) draws.old.state }
{
    match kind {
        0..=6 => put(draws, bucket, key),
        7 => Draft::Delete { bucket, key },
        8 => Draft::DeleteVersion {
            bucket,
            key,
            id: draws.draw() % 8,
        },
        9 => Draft::StartUpload { bucket, key },
        10 => put_part(draws, bucket),
        11 => Draft::Complete {
            bucket,
            upload: 1 + draws.draw() % 8,
        },
        _ => Draft::Act { bucket },
    }
}

fn drawn(draws: &mut Draws) -> Draft
    ensures draft { (x : ℕ) → draws.old.state ≡ next_state x → result ≡ drawn x }
    ensures state { (x : ℕ) → draws.old.state ≡ next_state x
        → draws.new.state ≡ state_after (draws_of (kind_drawn x)) (state_after 4 x) }
{
    let bucket = draws.draw() % 4;
    let kind = draws.draw() % 16;
    let key = draws.draw() % 500;
    of_kind(draws, kind, bucket, key)
}

impl Place {
    // Before the first command.
    pub(crate) fn before(number: u64) -> Place
        ensures { result ≡ place_before number }
    {
        Place {
            made: 0,
            moment: START,
            state: number,
        }
    }

    // Goes to the place after the next command, and returns the command.
    pub(crate) fn next(&mut self) -> Draft
        requires { self.old.made < 2 ^ 64 - 1 }
        ensures draft { result ≡ draft_at self.old }
        ensures place { self.new ≡ next_place self.old }
    {
        let made = self.made;
        self.made = made + 1;
        if made < 8 {
            return first_draft(made);
        }
        let mut draws = Draws { state: self.state };
        let step = draws.draw() % LONGEST_STEP;
        let draft = drawn(&mut draws);
        self.moment = self.moment.saturating_add(step).min(Moment::last().ms());
        self.state = draws.state;
        draft
    }
}
