// What a month would cost a bucket, line by line.
ghost use Rattle.std.specs.Prelude.{◌≡◌, ◌++◌, ◌∷◌, [], filter, flat_map};
ghost use Rattle.std.specs.Prelude.{OnOk, IfOk};
ghost use Rattle.forecast.specs.Lines.{class_lines, storage_line, transition_line, has_quantity};

use class_rules::Class;
use moments::Month;
use office_base::NoMemory;
use office_types::{ClassMeters, LineKind};
use std::alloc::Global;
use tariff::{Tariff, charge, move_charge};

/// A line of a forecast: what a bucket would use of a class in a month.
#[derive(Clone, Copy, Debug, PartialEq, Eq)]
pub struct ForecastLine {
    pub kind: LineKind,
    pub class: Class,
    /// Byte-milliseconds, or a number of transitions; never 0.
    pub quantity: u128,
    /// Whole units; `None` if no tariff is in force in the month.
    pub charge: Option<u128>,
}

/// Lists the lines of what a bucket used in a month.
pub(crate) fn lines_of(
    alloc: Global,
    tariff: &Option<Tariff>,
    month: Month,
    used: &[ClassMeters; 6],
) -> Result<Vec<ForecastLine>, NoMemory>
    ensures { IfOk result (λ lines. lines.items ≡ flat_map (class_lines tariff.now month) used.now) }
{
    let mut lines = Vec::new(alloc);
    for one in used {
        push_class(&mut lines, tariff, month, one)?;
    }
    Ok(lines)
}

/// Adds the lines of what was used of a class.
fn push_class(
    lines: &mut Vec<ForecastLine>,
    tariff: &Option<Tariff>,
    month: Month,
    used: &ClassMeters,
) -> Result<(), NoMemory>
    ensures { OnOk result (lines.new.items ≡ lines.old.items ++ class_lines tariff.now month used.now) }
{
    let class = used.class;
    push_line(
        lines,
        storage(LineKind::Storage, class, used.byte_ms, tariff, month),
    )?;
    push_line(
        lines,
        storage(LineKind::Early, class, used.early_byte_ms, tariff, month),
    )?;
    push_line(lines, transitions(class, used.moves, tariff))
}

/// Charges a quantity of byte-milliseconds through the tiers of a class.
fn storage(
    kind: LineKind,
    class: Class,
    quantity: u128,
    tariff: &Option<Tariff>,
    month: Month,
) -> ForecastLine
    ensures { result ≡ storage_line tariff.now month kind class quantity }
{
    let charge = match tariff {
        Some(tariff) => Some(charge(quantity, tariff.storage_tiers(class), month)),
        None => None,
    };
    ForecastLine {
        kind,
        class,
        quantity,
        charge,
    }
}

/// Charges lifecycle transitions to a class.
fn transitions(class: Class, moves: u64, tariff: &Option<Tariff>) -> ForecastLine
    ensures { result ≡ transition_line tariff.now class moves }
{
    let charge = match tariff {
        Some(tariff) => Some(move_charge(moves, tariff.move_price(class))),
        None => None,
    };
    ForecastLine {
        kind: LineKind::Transitions,
        class,
        quantity: moves as u128,
        charge,
    }
}

/// Adds a line, if its quantity is not 0.
fn push_line(lines: &mut Vec<ForecastLine>, line: ForecastLine) -> Result<(), NoMemory>
    ensures { OnOk result (lines.new.items ≡ lines.old.items ++ filter has_quantity (line ∷ [])) }
{
    if line.quantity == 0 {
        return Ok(());
    }
    Ok(lines.push(line)?)
}
