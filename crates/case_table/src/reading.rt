// How the cases are read.
use crate::cases::{Case, Command, Document, Step, Stops, Write};
use crate::fields::{Fields, FromValue};
use anyhow::Result;
use std::alloc::Global;
use toml::Value;

impl FromValue for Document {
    fn from_value(alloc: Global, value: Value) -> Result<Document> {
        let mut fields = Fields::of(alloc, value)?;
        let document = Document {
            case: fields.required("case", Vec::new(alloc)),
        };
        fields.end(document)
    }
}

impl FromValue for Case {
    fn from_value(alloc: Global, value: Value) -> Result<Case> {
        let mut fields = Fields::of(alloc, value)?;
        let case = Case {
            name: fields.required("name", String::new(alloc)),
            journal: fields.optional("journal"),
            failing: fields.or("failing", Vec::new(alloc)),
            cuts: fields.or("cuts", Vec::new(alloc)),
            write: fields.or("write", Vec::new(alloc)),
            step: fields.or("step", Vec::new(alloc)),
            command: fields.or("command", Vec::new(alloc)),
            kept_months: fields.or("kept_months", Vec::new(alloc)),
            failing_keeper: fields.or("failing_keeper", Vec::new(alloc)),
            shown: fields.or("shown", false),
            stops: fields.optional("stops"),
        };
        fields.end(case)
    }
}

impl FromValue for Write {
    fn from_value(alloc: Global, value: Value) -> Result<Write> {
        let mut fields = Fields::of(alloc, value)?;
        let write = Write {
            at: fields.required("at", 0),
            bytes: fields.required("bytes", String::new(alloc)),
            synced: fields.or("synced", false),
        };
        fields.end(write)
    }
}

impl FromValue for Step {
    fn from_value(alloc: Global, value: Value) -> Result<Step> {
        let mut fields = Fields::of(alloc, value)?;
        let step = Step {
            at: fields.required("at", Value::Integer(0)),
            ask: fields.required("ask", String::new(alloc)),
            token: fields.optional("token"),
            body: fields.optional("body"),
            numbers: fields.optional("numbers"),
        };
        fields.end(step)
    }
}

impl FromValue for Command {
    fn from_value(alloc: Global, value: Value) -> Result<Command> {
        let mut fields = Fields::of(alloc, value)?;
        let command = Command {
            words: fields.required("words", Vec::new(alloc)),
            clock: fields.required("clock", Vec::new(alloc)),
            input: fields.optional("input"),
            spaces: fields.or("spaces", 0),
            failing_reads: fields.or("failing_reads", Vec::new(alloc)),
            failing_texts: fields.or("failing_texts", Vec::new(alloc)),
            connections: fields.or("connections", Vec::new(alloc)),
            failing_port: fields.or("failing_port", Vec::new(alloc)),
        };
        fields.end(command)
    }
}

impl FromValue for Stops {
    fn from_value(alloc: Global, value: Value) -> Result<Stops> {
        let mut fields = Fields::of(alloc, value)?;
        let stops = Stops {
            calls: fields.required("calls", [0, 0]),
            at: fields.required("at", Value::Integer(0)),
            ask: fields.required("ask", String::new(alloc)),
        };
        fields.end(stops)
    }
}
