// A book of bills in a table of SQLite.
ghost use Rattle.std.specs.Prelude.{◌≡◌, ◌≤◌, true, false, None, option_map};
ghost use Rattle.office_base.specs.Faults.{Rose};
ghost use Rattle.sqlite.specs.Held.{state};
ghost use Rattle.bill_book.specs.Bills.{AreBills};
ghost use Rattle.bill_book.specs.Books.{Told, Posts, Shows};
ghost use Rattle.bill_book.specs.Causes.{HasKeeperCause};
ghost use Rattle.bill_rows.specs.Books.{book_of};
ghost use Rattle.bill_keeper.specs.Ready.{HasTable, HasTable-prop, told_rows, told_book};
ghost use Rattle.bill_keeper.specs.Keepers.{KeeperView, is_handed, told_by};

use crate::month_table::{post_in, read_in};
use crate::opening::open_file;
use crate::places::Place;
use bill_book::{Bill, BillKeeper, KeeperFault, Posted};
use moments::Month;
use sqlite::{Alter, Connection, File, FileStore};
use std::alloc::Global;
use std::marker::Model;

// A connection that was handed in: outside a transaction, and it has the table.
#[derive(Drop)]
struct Handed<S: Alter> {
    connection: Connection<S>,
    ghost idle: { connection.in_transaction ≡ false },
    ghost table: { HasTable (state S.Store connection) } by { HasTable-prop (state S.Store connection) },
}

impl<S: Alter> Handed<S> {
    fn post(&mut self, month: Month, bills: &[Bill]) -> Result<Posted, KeeperFault>
        requires { AreBills bills.now }
        ensures { Told (told_book (state S.Store self.old.connection)) (told_book (state S.Store self.new.connection))
            (λ old new. Posts month bills.now old new result) }
    {
        post_in(&mut self.connection, month, bills)
    }

    fn bills(&mut self, alloc: Global, month: Month) -> Result<Option<Vec<Bill>>, KeeperFault>
        ensures { Told (told_book (state S.Store self.old.connection)) (told_book (state S.Store self.new.connection))
            (λ old new. Shows month old new result) }
    {
        read_in(&mut self.connection, alloc, month)
    }
}

// A connection outside a transaction.
#[derive(Drop)]
struct Idle<S: Alter> {
    connection: Connection<S>,
    ghost idle: { connection.in_transaction ≡ false },
}

// Where a database is that can be opened.
trait Openable: Drop {
    type Store: Alter + Drop;

    fn open(&self) -> Result<Idle<Self::Store>, KeeperFault>;
}

// A database in the file at this path.
#[derive(Drop)]
struct FileAt {
    rt: HostRuntime,
    path: String,
}

impl Openable for FileAt {
    type Store = FileStore<File>;

    fn open(&self) -> Result<Idle<FileStore<File>>, KeeperFault> {
        let connection = open_file(&self.rt, &self.path)?;
        Ok(Idle { connection })
    }
}

// A database of the keeper's own, which is opened at the first call.
#[derive(Drop)]
struct OwnDatabase<O: Openable> {
    from: O,
    opened: Option<Idle<O::Store>>,
}

impl<O: Openable> OwnDatabase<O> {
    fn open(&mut self) -> Result<(), KeeperFault> {
        if self.opened.is_none() {
            self.opened = Some(self.from.open()?);
        }
        Ok(())
    }

    fn post(&mut self, month: Month, bills: &[Bill]) -> Result<Posted, KeeperFault>
        requires { AreBills bills.now }
    {
        self.open()?;
        match &mut self.opened {
            Some(idle) => post_in(&mut idle.connection, month, bills),
            None => Err(KeeperFault::Failed),
        }
    }

    fn bills(&mut self, alloc: Global, month: Month) -> Result<Option<Vec<Bill>>, KeeperFault> {
        self.open()?;
        match &mut self.opened {
            Some(idle) => read_in(&mut idle.connection, alloc, month),
            None => Err(KeeperFault::Failed),
        }
    }
}

fn post_at<S: Alter>(
    place: &mut Place<Handed<S>, OwnDatabase<FileAt>>,
    month: Month,
    bills: &[Bill],
) -> Result<Posted, KeeperFault>
    requires { AreBills bills.now }
    ensures told { Told (option_map book_of (told_by place.old (λ it. told_rows (state S.Store it.connection))))
        (option_map book_of (told_by place.new (λ it. told_rows (state S.Store it.connection))))
        (λ old new. Posts month bills.now old new result) }
    ensures same { is_handed place.new ≡ is_handed place.old }
{
    match place {
        Place::Handed(handed) => handed.post(month, bills),
        Place::Own(own) => own.post(month, bills),
    }
}

fn read_at<S: Alter>(
    place: &mut Place<Handed<S>, OwnDatabase<FileAt>>,
    alloc: Global,
    month: Month,
) -> Result<Option<Vec<Bill>>, KeeperFault>
    ensures told { Told (option_map book_of (told_by place.old (λ it. told_rows (state S.Store it.connection))))
        (option_map book_of (told_by place.new (λ it. told_rows (state S.Store it.connection))))
        (λ old new. Shows month old new result) }
    ensures same { is_handed place.new ≡ is_handed place.old }
{
    match place {
        Place::Handed(handed) => handed.bills(alloc, month),
        Place::Own(own) => own.bills(alloc, month),
    }
}

// Counts a fault, unless memory ran out.
fn counted(faults: &mut u64, fault: KeeperFault) -> KeeperFault
    ensures fault { result ≡ fault }
    ensures later { faults.old ≤ faults.new }
    ensures rose { result ≡ KeeperFault.Failed → Rose faults.old faults.new }
{
    if fault == KeeperFault::Failed {
        *faults = faults.saturating_add(1);
    }
    fault
}

/// A book of bills in a table of SQLite: in a file of its own, which is opened at the first call, or over a connection
/// that was handed in.
///
/// Over a connection it shows its book, as long as the disk returns what was written and the connection is open. In a
/// file of its own it shows nothing of what it holds.
#[derive(Drop)]
pub struct SqliteKeeper<S: Alter> {
    place: Place<Handed<S>, OwnDatabase<FileAt>>,
    alloc: Global,
    faults: u64,
}

impl<S: Alter> Model for SqliteKeeper<S> {
    ghost use Rattle.sqlite.specs.Held.{state};
    ghost use Rattle.bill_keeper.specs.Ready.{told_rows};
    ghost use Rattle.bill_keeper.specs.Keepers.{KeeperView, keeper_code, is_handed, told_by};

    ghost Value = { KeeperView };

    ghost coded = { keeper_code };

    ghost view = { λ k. record {
      is_over = is_handed k.place;
      rows = told_by k.place (λ it. told_rows (state S.Store it.connection));
      faults = k.faults;
    } };
}

impl SqliteKeeper<FileStore<File>> {
    /// Keeps the bills in the file at this path, which is opened at the first call, and made if there is none.
    pub fn at(rt: HostRuntime, path: String) -> SqliteKeeper<FileStore<File>>
        ensures { result ≡ record { is_over = false; rows = None; faults = 0 } }
    {
        let alloc = rt.alloc();
        let own = OwnDatabase {
            from: FileAt { rt, path },
            opened: None,
        };
        SqliteKeeper {
            place: Place::Own(own),
            alloc,
            faults: 0,
        }
    }
}

impl<S: Alter> SqliteKeeper<S> {
    /// Keeps the bills in the table of this connection. Its schema is only that table, and its rows are well made.
    /// Takes no memory.
    pub fn over(alloc: Global, connection: Connection<S>) -> SqliteKeeper<S>
        requires idle { connection.in_transaction ≡ false }
        requires table { HasTable (state S.Store connection) }
        ensures { result ≡ record { is_over = true; rows = told_rows (state S.Store connection); faults = 0 } }
    {
        SqliteKeeper {
            place: Place::Handed(Handed { connection }),
            alloc,
            faults: 0,
        }
    }

    /// Whether it was made over a connection that was handed in.
    pub fn is_over(&self) -> bool
        ensures { result ≡ self.now.is_over }
    {
        match &self.place {
            Place::Handed(_) => true,
            Place::Own(_) => false,
        }
    }

    /// Returns the connection that was handed in. Takes no memory.
    pub fn give_back(self) -> Connection<S>
        requires handed { self.is_over ≡ true }
        ensures rows { told_rows (state S.Store result) ≡ self.rows }
        ensures table { HasTable (state S.Store result) }
        ensures idle { result.in_transaction ≡ false }
    {
        let SqliteKeeper { place, .. } = self;
        match place {
            Place::Handed(handed) => {
                let Handed { connection, .. } = handed;
                connection
            }
            Place::Own(_) => unreachable!(),
        }
    }
}

impl<S: Alter> BillKeeper for SqliteKeeper<S> {
    ghost book = { λ k. option_map book_of k.rows };

    ghost faults = { λ k. k.faults };

    fn post(&mut self, month: Month, bills: &[Bill]) -> Result<Posted, KeeperFault>
        requires bills { AreBills bills.now }
        ensures posts { Told (option_map book_of self.old.rows) (option_map book_of self.new.rows)
            (λ old new. Posts month bills.now old new result) }
        ensures cause { HasKeeperCause self.old.faults self.new.faults result }
        ensures over { self.new.is_over ≡ self.old.is_over }
    {
        match post_at(&mut self.place, month, bills) {
            Ok(posted) => Ok(posted),
            Err(fault) => Err(counted(&mut self.faults, fault)),
        }
    }

    fn bills(&mut self, month: Month) -> Result<Option<Vec<Bill>>, KeeperFault>
        ensures shows { Told (option_map book_of self.old.rows) (option_map book_of self.new.rows)
            (λ old new. Shows month old new result) }
        ensures cause { HasKeeperCause self.old.faults self.new.faults result }
        ensures over { self.new.is_over ≡ self.old.is_over }
    {
        match read_at(&mut self.place, self.alloc, month) {
            Ok(bills) => Ok(bills),
            Err(fault) => Err(counted(&mut self.faults, fault)),
        }
    }
}
