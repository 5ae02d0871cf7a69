// The storage classes.
ghost use Rattle.std.specs.Prelude.{◌≡◌};
ghost use Rattle.class_rules.specs.Classes.{class_name, class_with, rank_of, may_move, least_stay};

/// A storage class, from the warmest to the coldest.
///
/// Rule: S3 User Guide, "Understanding and managing Amazon S3 storage classes".
#[derive(Clone, Copy, Debug, PartialEq, Eq)]
pub enum Class {
    /// For data that is read often.
    Standard,
    /// For data that is rarely read.
    StandardIa,
    /// For data that is rarely read and can be made again: it is kept in one zone.
    OnezoneIa,
    /// The archive that is read at once.
    GlacierIr,
    /// The archive that is read within minutes or hours.
    Glacier,
    /// The archive that is read within a day.
    DeepArchive,
}

/// The milliseconds of a day.
const DAY_MS: u64 = 86_400_000;

impl Class {
    /// Gives the name that configurations and reports write, as `STANDARD_IA`. Takes no memory.
    pub fn name(self) -> &'static str
        ensures { result.now ≡ class_name self }
    {
        match self {
            Class::Standard => "STANDARD",
            Class::StandardIa => "STANDARD_IA",
            Class::OnezoneIa => "ONEZONE_IA",
            Class::GlacierIr => "GLACIER_IR",
            Class::Glacier => "GLACIER",
            Class::DeepArchive => "DEEP_ARCHIVE",
        }
    }

    /// Finds the class with this name, exactly as `name` writes it; None for any other text. Takes no memory.
    #[tactic(auto, using(crate::proofs::Names::with_name, crate::proofs::Names::with_no_name))]
    pub fn named(text: &str) -> Option<Class>
        ensures { result ≡ class_with text.now }
    {
        match text {
            "STANDARD" => Some(Class::Standard),
            "STANDARD_IA" => Some(Class::StandardIa),
            "ONEZONE_IA" => Some(Class::OnezoneIa),
            "GLACIER_IR" => Some(Class::GlacierIr),
            "GLACIER" => Some(Class::Glacier),
            "DEEP_ARCHIVE" => Some(Class::DeepArchive),
            _ => None,
        }
    }
}

/// Gives the place of a class from the warmest, 0, to the coldest, 5. Takes no memory.
pub fn rank(class: Class) -> u8
    ensures { result ≡ rank_of class }
{
    match class {
        Class::Standard => 0,
        Class::StandardIa => 1,
        Class::OnezoneIa => 2,
        Class::GlacierIr => 3,
        Class::Glacier => 4,
        Class::DeepArchive => 5,
    }
}

/// Returns whether a lifecycle transition may go from one class to the other: only to a colder one. Takes no memory.
///
/// Rule: S3 User Guide, "Transitioning objects using Amazon S3 Lifecycle". Own rule: the move from ONEZONE_IA to
/// GLACIER_IR is left out.
pub fn may_go(from: Class, to: Class) -> bool
    ensures { result ≡ may_move from to }
{
    match (from, to) {
        (Class::OnezoneIa, Class::GlacierIr) => false,
        _ => rank(from) < rank(to),
    }
}

/// Gives the minimum storage duration of a class, in milliseconds; 0 for none. Takes no memory.
///
/// Rule: S3 User Guide, "Understanding and managing Amazon S3 storage classes".
pub fn least_duration(class: Class) -> u64
    ensures { result ≡ least_stay class }
{
    let days = match class {
        Class::Standard => 0,
        Class::StandardIa | Class::OnezoneIa => 30,
        Class::GlacierIr | Class::Glacier => 90,
        Class::DeepArchive => 180,
    };
    days * DAY_MS
}

/// States that no two classes have the same name.
#[tactic(auto, using(crate::proofs::Names::same_class))]
pub fn names_differ()
    ensures same { (a b : Class) → class_name a ≡ class_name b → a ≡ b }
{}
