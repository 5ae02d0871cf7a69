// The billed bytes of an object, a delete marker and a part of an upload.
ghost use Rattle.std.specs.Prelude.{◌≡◌, ◌≤◌, [], ◌∷◌};
ghost use Rattle.office_base.specs.Sizes.{largest_size};
ghost use Rattle.class_rules.specs.Lines.{lines_of, object_lines, marker_line, part_line};

use crate::Class;

/// The minimum billed size in STANDARD_IA, ONEZONE_IA and GLACIER_IR, in bytes (S3 User Guide, "Understanding and
/// managing Amazon S3 storage classes").
const LEAST_BILLED: u64 = 131_072;

/// The index of an archived object, in bytes billed at its own class (S3 User Guide, "Understanding S3 Glacier storage
/// classes for long-term data storage").
const INDEX_BYTES: u64 = 32_768;

/// The name and metadata of an archived object, in bytes billed at STANDARD (the same page).
const NAME_BYTES: u64 = 8_192;

/// What is billed of one object, delete marker or part.
#[derive(Clone, Copy, Debug, PartialEq, Eq)]
pub struct Lines {
    /// The class of the own line.
    pub class: Class,
    /// The bytes of the own line.
    pub bytes: u64,
    /// The bytes added at STANDARD; 0 means that there is no second line.
    pub standard: u64,
}

/// Gives the lines of an object of this many bytes. Takes no memory.
///
/// Rule: S3 User Guide, "Understanding and managing Amazon S3 storage classes" (minimum sizes) and "Understanding S3
/// Glacier storage classes for long-term data storage" (what an archived object has in addition).
pub fn billed(class: Class, size: u64) -> Lines
    requires { size ≤ largest_size }
    ensures { lines_of result ≡ object_lines class size }
{
    match class {
        Class::Standard => alone(class, size),
        Class::StandardIa | Class::OnezoneIa | Class::GlacierIr => alone(
            class,
            size.max(LEAST_BILLED),
        ),
        Class::Glacier | Class::DeepArchive => Lines {
            class,
            bytes: size + INDEX_BYTES,
            standard: NAME_BYTES,
        },
    }
}

/// Gives the line of a delete marker whose key has this many bytes: in STANDARD. Takes no memory.
///
/// Rule: S3 User Guide, "Working with delete markers". Own rule: the class.
pub fn marker_lines(key_bytes: u64) -> Lines
    ensures { lines_of result ≡ marker_line key_bytes }
{
    alone(Class::Standard, key_bytes)
}

/// Gives the line of a part of this many bytes of an unfinished upload. Takes no memory.
///
/// Rule: S3 User Guide, "Multipart upload and pricing": a part for GLACIER or DEEP_ARCHIVE is billed at STANDARD. Own
/// rule: a part has no minimum size.
pub fn part_lines(class: Class, size: u64) -> Lines
    ensures { lines_of result ≡ part_line class size }
{
    match class {
        Class::Glacier | Class::DeepArchive => alone(Class::Standard, size),
        _ => alone(class, size),
    }
}

// A single line, with no second one.
fn alone(class: Class, bytes: u64) -> Lines
    ensures { lines_of result ≡ (class, bytes) ∷ [] }
{
    Lines {
        class,
        bytes,
        standard: 0,
    }
}
