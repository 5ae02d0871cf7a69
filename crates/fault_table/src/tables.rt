// The tables of a document. README.md of office_faults says what each name means.
use anyhow::Result;
use case_table::{Fields, FromValue, Step};
use std::alloc::Global;
use toml::Value;

/// What a document has.
#[derive(Drop)]
pub struct Document {
    pub table: Vec<Table>,
}

/// What is done again and again, from one start.
#[derive(Drop)]
pub struct Table {
    pub name: String,
    /// What is done: `damage`, `stops` or `faults`.
    pub does: String,
    /// The journal file at the start, in hexadecimal digits.
    pub journal: String,
    /// Both slots, in hexadecimal digits; empty files if there are none.
    pub slots: Vec<String>,
    /// The messages of the first session.
    pub step: Vec<Step>,
    /// The messages that are sent to each disk that is left.
    pub show: Vec<Step>,
    /// Replies, each after the word that is printed for it.
    pub known: Vec<Vec<String>>,
    /// The entry that the first session adds, in hexadecimal digits.
    pub entry: String,
    /// The numbers of the disk's calls that fail, counted from 1, which is the first one of the program.
    pub failing: Vec<u64>,
    /// The first and the last of the counts of the disk's calls after which it stops.
    pub calls: Option<[u64; 2]>,
    /// The place of a byte of the journal that is set to 0x37, so that only a checkpoint behind it opens.
    pub unread: Option<usize>,
}

impl FromValue for Document {
    fn from_value(alloc: Global, value: Value) -> Result<Document> {
        let mut fields = Fields::of(alloc, value)?;
        let document = Document {
            table: fields.required("table", Vec::new(alloc)),
        };
        fields.end(document)
    }
}

impl FromValue for Table {
    fn from_value(alloc: Global, value: Value) -> Result<Table> {
        let mut fields = Fields::of(alloc, value)?;
        let table = Table {
            name: fields.required("name", String::new(alloc)),
            does: fields.required("does", String::new(alloc)),
            journal: fields.required("journal", String::new(alloc)),
            slots: fields.or("slots", Vec::new(alloc)),
            step: fields.or("step", Vec::new(alloc)),
            show: fields.required("show", Vec::new(alloc)),
            known: fields.or("known", Vec::new(alloc)),
            entry: fields.or("entry", String::new(alloc)),
            failing: fields.or("failing", Vec::new(alloc)),
            calls: fields.optional("calls"),
            unread: fields.optional("unread"),
        };
        fields.end(table)
    }
}
