// What is wrong with a text that should be a tariff.
ghost use Rattle.std.specs.Prelude.{◌≡◌, Err};
ghost use Rattle.tariff.specs.Faults.{TariffGives, unknown_field};
ghost use Rattle.tariff.specs.Reading.{table_name};

use class_rules::Class;
use std::alloc::{AllocError, Global};

/// A table of a tariff.
#[derive(Clone, Copy, Debug, PartialEq, Eq)]
pub enum TariffTable {
    /// The prices of a GiB stored for a month, for each of the six classes.
    Storage,
    /// The prices of 1,000 moves to a class, for each class but STANDARD.
    Transition,
}

impl TariffTable {
    /// Gives the name of the table in a document: `storage` or `transition`. Takes no memory.
    pub fn name(self) -> &'static str
        ensures { result.now ≡ table_name self }
    {
        match self {
            TariffTable::Storage => "storage",
            TariffTable::Transition => "transition",
        }
    }
}

/// Why a text is not a tariff.
#[derive(PartialEq, Debug, Drop)]
pub enum TariffFault {
    /// 70: the bytes are not a TOML document.
    NotToml,
    /// 71: a table has no price for a class. A missing table is empty.
    MissingClass {
        /// The table.
        table: TariffTable,
        /// The first such class, from the warmest on.
        class: Class,
    },
    /// 72: the value for a class is not a whole number from 0 to `MOST_PRICE`, or one of its tiers has such a price.
    BadPrice {
        /// The table.
        table: TariffTable,
        /// The first such class, from the warmest on.
        class: Class,
    },
    /// 73: the document has a field other than the two tables and `from`, or a table has a name other than those of its
    /// classes.
    UnknownField {
        /// The first such name, in the byte order of the names.
        name: String,
    },
    /// 74: the value for a class in `storage` is a list, but not of one to eight tables with valid fields. Each has a
    /// price. Each but the last has an end: a whole number of GiB-months above the end before it.
    BadTiers {
        /// The first such class, from the warmest on.
        class: Class,
    },
    /// 75: the first month is not a text `YYYY-MM` from 1970-01 to 2099-12.
    BadFrom,
    /// Memory ran out.
    NoMemory,
}

impl From<AllocError> for TariffFault {
    ghost use Rattle.std.specs.Prelude.{◌≡◌};
    ghost use Rattle.tariff.specs.declared.fault.TariffFault.TheVariants.{NoMemory};

    ghost from_gives = { λ _ e. e ≡ NoMemory };

    fn from(_error: AllocError) -> TariffFault {
        TariffFault::NoMemory
    }
}

// Refuses a name.
pub(crate) fn unknown<T>(alloc: Global, name: &str) -> Result<T, TariffFault>
    ensures { TariffGives (λ x. x) result (Err (unknown_field name.now)) }
{
    let name = String::from_str(alloc, name)?;
    Err(TariffFault::UnknownField { name })
}
