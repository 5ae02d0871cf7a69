// The names and prices of a report's lines.
ghost use Rattle.std.specs.Prelude.{◌≡◌};
ghost use Rattle.usage_report.specs.Lines.{line_name, price_text};

use office_types::{LineKind, Price};

pub(crate) fn line_name(kind: LineKind) -> &'static str
    ensures { result.now ≡ line_name kind }
{
    match kind {
        LineKind::Storage => "storage",
        LineKind::Early => "early",
        LineKind::Transitions => "transitions",
    }
}

// A price as its digits; the buffer keeps them.
pub(crate) fn price_text(digits: &mut itoa::Buffer, price: Price) -> &str
    ensures { result.now ≡ price_text price }
{
    match price {
        Price::One(price) => digits.format(price),
        Price::Tiered => "tiered",
    }
}
