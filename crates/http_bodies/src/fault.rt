// What is wrong with a body.
ghost use Rattle.std.specs.Prelude.{◌≡◌, IfSome};
ghost use Rattle.http_bodies.specs.Flaws.{bad_body, body_flaw_of};

use std::alloc::{AllocError, Global};

/// Why a body was not read.
#[derive(PartialEq, Debug, Drop)]
pub enum BodyFault {
    /// The field is missing, has another kind of value or is not one of the body's. With an empty name, the body is not
    /// a JSON object.
    BadBody { field: String },
    /// The size is above 5 TiB.
    BadSize,
    /// The name is not that of a storage class.
    UnsupportedClass { name: String },
    /// There are more than 10 tags, a key does not have 1 to 128 characters, or a value has more than 256.
    BadTags,
    /// Memory ran out.
    NoMemory,
}

impl From<AllocError> for BodyFault {
    ghost use Rattle.std.specs.Prelude.{◌≡◌};
    ghost use Rattle.http_bodies.specs.declared.fault.BodyFault.TheVariants.{NoMemory};

    ghost from_gives = { λ _ e. e ≡ NoMemory };

    fn from(_error: AllocError) -> BodyFault {
        BodyFault::NoMemory
    }
}

// The fault of a field.
pub(crate) fn bad_field(alloc: Global, field: &str) -> BodyFault
    ensures { IfSome (body_flaw_of result) (λ flaw. flaw ≡ bad_body field.now) }
{
    match String::from_str(alloc, field) {
        Ok(field) => BodyFault::BadBody { field },
        Err(_) => BodyFault::NoMemory,
    }
}
