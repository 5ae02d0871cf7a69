// Who keeps the bills.
ghost use Rattle.std.specs.Prelude.{ℕ, Option};
ghost use Rattle.bill_book.specs.Bills.{AreBills};
ghost use Rattle.bill_book.specs.Books.{Book, Told, Posts, Shows};
ghost use Rattle.bill_book.specs.Causes.{HasKeeperCause};

use crate::bill::Bill;
use moments::Month;
use std::alloc::{AllocError, AllocFailed};

/// Whether bills were posted by this call.
#[derive(Clone, Copy, Debug, PartialEq, Eq)]
pub enum Posted {
    /// The month has these bills from now on.
    Now,
    /// The month had bills before, which stay.
    Before,
}

/// Why a keeper did not answer.
#[derive(Clone, Copy, Debug, PartialEq, Eq)]
pub enum KeeperFault {
    /// The keeper failed, and its count of faults rose.
    Failed,
    /// Memory ran out.
    NoMemory,
}

impl From<AllocError> for KeeperFault {
    ghost use Rattle.std.specs.Prelude.{◌≡◌};
    ghost use Rattle.bill_book.specs.declared.keeper.KeeperFault.TheVariants.{NoMemory};

    ghost from_gives = { λ _ e. e ≡ NoMemory };

    fn from(_error: AllocError) -> KeeperFault {
        KeeperFault::NoMemory
    }
}

impl<T: Drop> From<AllocFailed<T>> for KeeperFault {
    ghost use Rattle.std.specs.Prelude.{◌≡◌};
    ghost use Rattle.bill_book.specs.declared.keeper.KeeperFault.TheVariants.{NoMemory};

    ghost from_gives = { λ _ e. e ≡ NoMemory };

    fn from(_error: AllocFailed<T>) -> KeeperFault {
        KeeperFault::NoMemory
    }
}

/// A book of bills: a month that was posted has a list of bills, one for each bucket, and every other month has none.
pub trait BillKeeper {
    /// The bills of each month, if the keeper shows them.
    ghost book: { Self → Option Book };

    /// How often it failed.
    ghost faults: { Self → ℕ };

    /// Posts the bills of a month that has none yet. A month that was posted keeps its bills, whatever is posted.
    ///
    /// # Errors
    ///
    /// `Failed`: the count of faults rose; the book is as before, or the month was posted all the same.
    /// `NoMemory`: the book is as before.
    fn post(&mut self, month: Month, bills: &[Bill]) -> Result<Posted, KeeperFault>
        requires bills { AreBills bills.now }
        ensures posts { Told (book self.old) (book self.new) (λ old new. Posts month bills.now old new result) }
        ensures cause { HasKeeperCause (faults self.old) (faults self.new) result };

    /// Reads the bills of a month; None if it was not posted. The book stays as it is.
    ///
    /// # Errors
    ///
    /// `Failed`: the count of faults rose. `NoMemory`: memory ran out.
    fn bills(&mut self, month: Month) -> Result<Option<Vec<Bill>>, KeeperFault>
        ensures shows { Told (book self.old) (book self.new) (λ old new. Shows month old new result) }
        ensures cause { HasKeeperCause (faults self.old) (faults self.new) result };
}
