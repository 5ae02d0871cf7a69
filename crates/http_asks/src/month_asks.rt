// What is asked of prices and of months.
ghost use Rattle.http_asks.specs.Faults.{IsMeaning};
ghost use Rattle.http_asks.specs.Meaning.{set_tariff_meant, tariff_meant, close_meant, report_meant};

use crate::bad::{Bad, Fault};
use crate::bodies::tariff_body;
use crate::method::Method;
use crate::parts::month_of;
use office_types::{Ask, Command, Query};
use std::alloc::Global;
use tariff::BoxedTariff;

// The ask of a PUT of a tariff.
fn set_tariff_ask(alloc: Global, body: &[u8]) -> Result<Ask, Fault>
    ensures { IsMeaning result (set_tariff_meant body.now) }
{
    let tariff = tariff_body(alloc, body)?;
    let tariff = BoxedTariff::new(alloc, tariff)?;
    Ok(Ask::Command(Command::SetTariff { tariff }))
}

#[tactic(auto, unfolding(crate::specs::Meaning::tariff_meant))]
pub(crate) fn tariff_ask(alloc: Global, method: Method, body: &[u8]) -> Result<Ask, Fault>
    ensures { IsMeaning result (tariff_meant method body.now) }
{
    match method {
        Method::Put => set_tariff_ask(alloc, body),
        Method::Get => Ok(Ask::Query(Query::Tariff)),
        Method::Post | Method::Delete | Method::Other => Err(Fault::Bad(Bad::BadMethod)),
    }
}

#[tactic(auto, unfolding(crate::specs::Meaning::close_meant))]
pub(crate) fn close_ask(method: Method, month: &str) -> Result<Ask, Fault>
    ensures { IsMeaning result (close_meant method month.now) }
{
    match method {
        Method::Post => {
            let month = month_of(month)?;
            Ok(Ask::Command(Command::Close { month }))
        }
        Method::Get | Method::Put | Method::Delete | Method::Other => Err(Fault::Bad(
            Bad::BadMethod,
        )),
    }
}

#[tactic(auto, unfolding(crate::specs::Meaning::report_meant))]
pub(crate) fn report_ask(method: Method, month: &str) -> Result<Ask, Fault>
    ensures { IsMeaning result (report_meant method month.now) }
{
    match method {
        Method::Get => {
            let month = month_of(month)?;
            Ok(Ask::Query(Query::Report(month)))
        }
        Method::Put | Method::Post | Method::Delete | Method::Other => Err(Fault::Bad(
            Bad::BadMethod,
        )),
    }
}
