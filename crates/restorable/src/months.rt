// The months of sums, the first months of tariffs, and the closed months.
ghost use Rattle.std.specs.Prelude.{◌≡◌, ◌+◌, ◌≤◌, ◌<◌, ◌^◌, nat_lt, length};
ghost use Rattle.std.specs.List.{list_all};
ghost use Rattle.moments.specs.Months.{months};
ghost use Rattle.accrual.specs.Sums.{is_zero, is_nothing};
ghost use Rattle.plain_office.specs.Orderly.{last_end};
ghost use Rattle.restorable.specs.Tests.{rise_from, follow, is_small_month, has_begun};
ghost use Rattle.restorable.specs.Tests.{is_month, are_months, are_closed};

use accrual::MonthSums;
use moments::{Moment, Month, month_window};
use tariff::Tariff;

// The sums are below this, so that meters can go on from them.
const SUM_END: u128 = 0x100_0000_0000_0000_0000_0000_0000_0000;

// The numbers of moves are below this.
const MOVES_END: u64 = 0x4000_0000_0000_0000;

fn are_small(numbers: &[u128; 6]) -> bool
    ensures { result ≡ list_all (λ n. nat_lt n (2 ^ 120)) numbers.now }
{
    numbers.iter().all(|n| *n < SUM_END)
}

fn are_small_counts(numbers: &[u64; 6]) -> bool
    ensures { result ≡ list_all (λ n. nat_lt n (2 ^ 62)) numbers.now }
{
    numbers.iter().all(|n| *n < MOVES_END)
}

fn are_zero(numbers: &[u128; 6]) -> bool
    ensures { result ≡ list_all is_zero numbers.now }
{
    numbers.iter().all(|n| *n == 0)
}

fn are_no_counts(numbers: &[u64; 6]) -> bool
    ensures { result ≡ list_all is_zero numbers.now }
{
    numbers.iter().all(|n| *n == 0)
}

fn is_nothing(sums: &MonthSums) -> bool
    ensures { result ≡ is_nothing sums.now }
{
    are_zero(&sums.ended) && are_zero(&sums.early) && are_no_counts(&sums.moves)
}

fn is_small_month(sums: &MonthSums) -> bool
    ensures { result ≡ is_small_month sums.now }
{
    are_small(&sums.ended) && are_small(&sums.early) && are_small_counts(&sums.moves)
}

fn has_begun(last: Moment, sums: &MonthSums) -> bool
    ensures { result ≡ has_begun last sums.now }
{
    let (start, _) = month_window(sums.month);
    start <= last.ms() && (are_zero(&sums.ended) || start < last.ms())
}

fn is_month(last: Moment, sums: &MonthSums) -> bool
    ensures { result ≡ is_month last sums.now }
{
    !is_nothing(sums) && is_small_month(sums) && has_begun(last, sums)
}

fn do_months_rise(all: &[MonthSums]) -> bool
    ensures { result ≡ rise_from (λ s. s.month) 0 all.now }
{
    let mut least = 0;
    for sums in all {
        let month = sums.month.number();
        if month < least {
            return false;
        }
        least = month + 1;
    }
    true
}

fn is_each_month(last: Moment, all: &[MonthSums]) -> bool
    ensures { result ≡ list_all (is_month last) all.now }
{
    all.iter().all(|sums| is_month(last, sums))
}

// Whether they are the sums of months that a bucket may have.
pub(crate) fn are_months(last: Moment, all: &[MonthSums]) -> bool
    ensures { result ≡ are_months last all.now }
{
    do_months_rise(all) && is_each_month(last, all)
}

// Whether the first months of tariffs strictly rise.
pub(crate) fn do_tariffs_rise(tariffs: &[Tariff]) -> bool
    ensures { result ≡ rise_from (λ tariff. tariff.from) 0 tariffs.now }
{
    let mut least = 0;
    for tariff in tariffs {
        let month = tariff.from.number();
        if month < least {
            return false;
        }
        least = month + 1;
    }
    true
}

// Whether the months are this one and those after it.
fn do_follow(first: u64, closed: &[(Month, Tariff)]) -> bool
    requires { first < 2 ^ 32 }
    ensures { result ≡ follow (λ month. month.0) first closed.now }
{
    let mut next = first;
    for month in closed {
        if month.0.number() != next {
            return false;
        }
        next = month.0.number() + 1;
    }
    true
}

// The end of the last closed month; 0 if there is none.
#[tactic(auto, using(crate::proofs::NameTests::end_from))]
pub(crate) fn end_of_closed(closed: &[(Month, Tariff)]) -> u64
    ensures { result ≡ last_end closed.now }
{
    let mut last_end = 0;
    for month in closed {
        let (_, end) = month_window(month.0);
        last_end = end;
    }
    last_end
}

// Whether the closed months are those before the first open one, and have ended.
pub(crate) fn are_closed(last: Moment, first_open: Month, closed: &[(Month, Tariff)]) -> bool
    ensures { result ≡ are_closed last first_open closed.now }
{
    let count = closed.len() as u64;
    if count > first_open.number() {
        return false;
    }
    do_follow(first_open.number() - count, closed) && end_of_closed(closed) <= last.ms()
}
