// A book of bills in memory.
ghost use Rattle.std.specs.Prelude.{◌≡◌, ◌≤◌, ◌+◌, ◌-◌, ◌^◌, min, Some, None};
ghost use Rattle.std.specs.Bool.{Decides};
ghost use Rattle.std.specs.List.{Contains};
ghost use Rattle.office_base.specs.Faults.{Rose};
ghost use Rattle.bill_book.specs.Bills.{AreBills};
ghost use Rattle.bill_book.specs.Books.{Posts, Shows};
ghost use Rattle.bill_book.specs.Causes.{HasKeeperCause};

use crate::bill::{Bill, copies};
use crate::keeper::{BillKeeper, KeeperFault, Posted};
use moments::Month;
use office_base::Items;
use std::alloc::Global;
use std::collections::BTreeMap;

/// A book of bills in memory, with failures at chosen calls.
#[derive(Drop)]
pub struct MapKeeper {
    alloc: Global,
    // By the numbers of the months.
    months: BTreeMap<u64, Items<Bill>>,
    failing: Vec<u64>,
    calls: u64,
    faults: u64,
}

impl MapKeeper {
    ghost use Rattle.bill_book.specs.Memory.{map_failing, map_calls};

    /// Makes a book in which no month was posted. The calls of `post` and `bills` whose numbers are in `failing`,
    /// counted together from 1, fail and change nothing.
    pub fn new(alloc: Global, failing: Vec<u64>) -> MapKeeper
        ensures book { ⟦<MapKeeper as BillKeeper>⟧.book result ≡ Some (λ month. None) }
        ensures faults { ⟦<MapKeeper as BillKeeper>⟧.faults result ≡ 0 }
        ensures failing { map_failing result ≡ failing.items }
        ensures calls { map_calls result ≡ 0 }
    {
        MapKeeper {
            alloc,
            months: BTreeMap::new(alloc),
            failing,
            calls: 0,
            faults: 0,
        }
    }

    // Whether this call is to fail.
    fn fails(&mut self) -> bool
        ensures same { self.new ≡ record self.old { calls = self.new.calls } }
        ensures counted { self.new.calls ≡ min (self.old.calls + 1) (2 ^ 64 - 1) }
        ensures fails { Decides result (Contains self.old.failing.items self.new.calls) }
    {
        self.calls = self.calls.saturating_add(1);
        self.failing.contains(&self.calls)
    }

    // Counts a call that fails.
    fn fail(&mut self) -> KeeperFault
        ensures same { self.new ≡ record self.old { faults = self.new.faults } }
        ensures later { self.old.faults ≤ self.new.faults }
        ensures rose { Rose self.old.faults self.new.faults }
        ensures failed { result ≡ KeeperFault.Failed }
    {
        self.faults = self.faults.saturating_add(1);
        KeeperFault::Failed
    }
}

impl BillKeeper for MapKeeper {
    ghost use Rattle.bill_book.specs.Memory.{IsKeeperCall, map_book, map_faults};

    ghost book = { λ k. Some (map_book k) };

    ghost faults = { map_faults };

    fn post(&mut self, month: Month, bills: &[Bill]) -> Result<Posted, KeeperFault>
        requires bills { AreBills bills.now }
        ensures posts { Posts month bills.now (map_book self.old) (map_book self.new) result }
        ensures cause { HasKeeperCause (map_faults self.old) (map_faults self.new) result }
        ensures call { IsKeeperCall self.old self.new result }
    {
        if self.fails() {
            return Err(self.fail());
        }
        if self.months.contains_key(&month.number()) {
            return Ok(Posted::Before);
        }
        let kept = copies(self.alloc, bills)?;
        self.months.insert(month.number(), Items::of(kept))?;
        Ok(Posted::Now)
    }

    fn bills(&mut self, month: Month) -> Result<Option<Vec<Bill>>, KeeperFault>
        ensures shows { Shows month (map_book self.old) (map_book self.new) result }
        ensures cause { HasKeeperCause (map_faults self.old) (map_faults self.new) result }
        ensures call { IsKeeperCall self.old self.new result }
    {
        if self.fails() {
            return Err(self.fail());
        }
        match self.months.get(&month.number()) {
            Some(bills) => {
                let bills = copies(self.alloc, bills.as_slice())?;
                Ok(Some(bills))
            }
            None => Ok(None),
        }
    }
}
