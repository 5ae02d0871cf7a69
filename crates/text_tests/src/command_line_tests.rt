use crate::given::{self, equal_text};
use command_line::read_line;
use std::alloc::Global;
use std::process::Abort;

// Words, one space between two, and what they are read as.
const LINES: &[(&str, &str)] = &[
    ("init", "Ok(Init)"),
    ("run", "Ok(Run)"),
    (
        "serve --listen 127.0.0.1:8080",
        "Ok(Serve { listen: \"127.0.0.1:8080\", workers: 4, connections: 4294967295 })",
    ),
    (
        "serve --listen=a --workers 2 --connections 2",
        "Ok(Serve { listen: \"a\", workers: 2, connections: 2 })",
    ),
    (
        "serve --connections=4294967295 --workers=64 --listen=a",
        "Ok(Serve { listen: \"a\", workers: 64, connections: 4294967295 })",
    ),
    (
        "serve --listen a --workers 1 --connections 1",
        "Ok(Serve { listen: \"a\", workers: 1, connections: 1 })",
    ),
    (
        "report 2024-01",
        "Ok(Report(ReportAsked { month: Month { number: 648 }, as_text: false }))",
    ),
    (
        "report --text 1970-01",
        "Ok(Report(ReportAsked { month: Month { number: 0 }, as_text: true }))",
    ),
    (
        "report 2099-12 --text",
        "Ok(Report(ReportAsked { month: Month { number: 1559 }, as_text: true }))",
    ),
    ("explain", "Ok(Explain { workers: 4 })"),
    ("explain --workers 64", "Ok(Explain { workers: 64 })"),
    ("gen 1 4", "Ok(Gen { number: 1, count: 4 })"),
    ("gen 0 0", "Ok(Gen { number: 0, count: 0 })"),
    (
        "gen 18446744073709551615 1000000",
        "Ok(Gen { number: 18446744073709551615, count: 1000000 })",
    ),
    (
        "bill 2024-01",
        "Ok(Bill(BillAsked { month: Month { number: 648 } }))",
    ),
    ("bill", "Err(NotALine)"),
    ("bill 2024-13", "Err(NotALine)"),
    ("bill 2024-01 --text", "Err(NotALine)"),
    ("bill 2024-01 2024-02", "Err(NotALine)"),
    (
        "forecast logs 2024-01-31",
        "Ok(Forecast(ForecastAsked { bucket: \"logs\", day: Moment { ms: 1706659200000 } }))",
    ),
    (
        "forecast a.b-3 1970-01-01T00:00:00.000Z",
        "Ok(Forecast(ForecastAsked { bucket: \"a.b-3\", day: Moment { ms: 0 } }))",
    ),
    ("forecast", "Err(NotALine)"),
    ("forecast logs", "Err(NotALine)"),
    ("forecast lo 2024-01-31", "Err(NotALine)"),
    ("forecast Logs 2024-01-31", "Err(NotALine)"),
    ("forecast logs 2024-02-30", "Err(NotALine)"),
    ("forecast logs 2024-01", "Err(NotALine)"),
    ("forecast logs 2024-01-31T12:00:00Z", "Err(NotALine)"),
    ("forecast logs 2024-01-31 --text", "Err(NotALine)"),
    ("explain --workers 0", "Err(NotALine)"),
    ("explain 4", "Err(NotALine)"),
    ("gen", "Err(NotALine)"),
    ("gen 1", "Err(NotALine)"),
    ("gen 1 1000001", "Err(NotALine)"),
    ("gen 18446744073709551616 0", "Err(NotALine)"),
    ("gen 01 4", "Err(NotALine)"),
    ("gen +1 4", "Err(NotALine)"),
    ("gen 1 4 5", "Err(NotALine)"),
    ("report", "Err(NotALine)"),
    ("report --text", "Err(NotALine)"),
    ("report 2024-13", "Err(NotALine)"),
    ("report 1969-12", "Err(NotALine)"),
    ("report 2024-1", "Err(NotALine)"),
    ("report 2024-01 2024-02", "Err(NotALine)"),
    ("report 2024-01 --text=true", "Err(NotALine)"),
    ("report 2024-01 --text --text", "Err(NotALine)"),
    ("", "Err(NotALine)"),
    ("Init", "Err(NotALine)"),
    ("ini", "Err(NotALine)"),
    ("init x", "Err(NotALine)"),
    ("init run", "Err(NotALine)"),
    ("run --workers 2", "Err(NotALine)"),
    ("help", "Err(NotALine)"),
    ("--help", "Err(NotALine)"),
    ("serve --help", "Err(NotALine)"),
    ("--version", "Err(NotALine)"),
    ("serve", "Err(NotALine)"),
    ("serve --listen", "Err(NotALine)"),
    ("serve --listen=a --listen=b", "Err(NotALine)"),
    ("serve --listen=a b", "Err(NotALine)"),
    ("serve --listen=a --workers 0", "Err(NotALine)"),
    ("serve --listen=a --workers 65", "Err(NotALine)"),
    ("serve --listen=a --workers +4", "Err(NotALine)"),
    ("serve --listen=a --workers 04", "Err(NotALine)"),
    ("serve --listen=a --connections 0", "Err(NotALine)"),
    ("serve --listen=a --connections 4294967296", "Err(NotALine)"),
];

fn words_of(rt: &impl Abort, alloc: Global, text: &str) -> Vec<String> {
    let mut words = Vec::new(alloc);
    for word in text.split_whitespace() {
        words
            .push(given::text(rt, alloc, word))
            .expect(rt, "memory");
    }
    words
}

fn told(rt: &impl Abort, alloc: Global, text: &str) -> String {
    let words = words_of(rt, alloc, text);
    format!(in alloc; "{:?}", read_line(alloc, &words)).expect(rt, "memory")
}

#[test]
fn lines(rt: HostRuntime) {
    for (text, wanted) in LINES {
        equal_text(&rt, text, &told(&rt, rt.alloc(), text), wanted);
    }
}
