// How the fields of a table of TOML are read.
use anyhow::{Context, Error, Result, anyhow, bail};
use std::alloc::Global;
use toml::{Table, Value};

/// What is read from a value of TOML.
pub trait FromValue: Sized + Drop {
    fn from_value(alloc: Global, value: Value) -> Result<Self>;
}

/// The fields of a table that are not read yet, and the first fault of those that were.
#[derive(Drop)]
pub struct Fields {
    alloc: Global,
    table: Table,
    fault: Option<Error>,
}

// What is wrong with a value of another kind.
fn wrong(value: &Value, kind: &str) -> Error {
    anyhow!("{} in place of {kind}", value.type_str())
}

impl FromValue for Value {
    fn from_value(_alloc: Global, value: Value) -> Result<Value> {
        Ok(value)
    }
}

impl FromValue for String {
    fn from_value(_alloc: Global, value: Value) -> Result<String> {
        match value {
            Value::String(text) => Ok(text),
            other => Err(wrong(&other, "string")),
        }
    }
}

impl FromValue for bool {
    fn from_value(_alloc: Global, value: Value) -> Result<bool> {
        match value {
            Value::Boolean(truth) => Ok(truth),
            other => Err(wrong(&other, "boolean")),
        }
    }
}

impl FromValue for u64 {
    fn from_value(_alloc: Global, value: Value) -> Result<u64> {
        match value {
            Value::Integer(number) => u64::try_from(number).context("a number below 0"),
            other => Err(wrong(&other, "integer")),
        }
    }
}

impl FromValue for usize {
    fn from_value(alloc: Global, value: Value) -> Result<usize> {
        Ok(u64::from_value(alloc, value)? as usize)
    }
}

impl<T: FromValue> FromValue for Vec<T> {
    fn from_value(alloc: Global, value: Value) -> Result<Vec<T>> {
        let items = match value {
            Value::Array(items) => items,
            other => return Err(wrong(&other, "array")),
        };
        let mut list = Vec::new(alloc);
        for item in items {
            let place = list.len();
            list.push(T::from_value(alloc, item).context(format_args!("[{place}]"))?)?;
        }
        Ok(list)
    }
}

impl FromValue for [u64; 2] {
    fn from_value(alloc: Global, value: Value) -> Result<[u64; 2]> {
        let numbers: Vec<u64> = Vec::from_value(alloc, value)?;
        match numbers.as_slice() {
            [first, last] => Ok([*first, *last]),
            _ => bail!("not two numbers"),
        }
    }
}

impl Fields {
    /// The fields of a table.
    pub fn of(alloc: Global, value: Value) -> Result<Fields> {
        match value {
            Value::Table(table) => Ok(Fields {
                alloc,
                table,
                fault: None,
            }),
            other => Err(wrong(&other, "table")),
        }
    }

    fn note(&mut self, fault: Error) {
        if self.fault.is_none() {
            self.fault = Some(fault);
        }
    }

    /// Reads a field that may be missing.
    pub fn optional<T: FromValue>(&mut self, name: &str) -> Option<T> {
        let value = self.table.remove(name)?;
        match T::from_value(self.alloc, value).context(name) {
            Ok(read) => Some(read),
            Err(fault) => {
                self.note(fault);
                None
            }
        }
    }

    /// Reads a field, which has this value if it is missing.
    pub fn or<T: FromValue>(&mut self, name: &str, value: T) -> T {
        self.optional(name).unwrap_or(value)
    }

    /// Reads a field. If it is missing, that is a fault, and the value goes on in its place.
    pub fn required<T: FromValue>(&mut self, name: &str, value: T) -> T {
        match self.optional(name) {
            Some(read) => read,
            None => {
                self.note(anyhow!("missing field {name}"));
                value
            }
        }
    }

    /// Gives what was read, if there was no fault and no other field.
    pub fn end<T: Drop>(self, read: T) -> Result<T> {
        let Fields { table, fault, .. } = self;
        if let Some(fault) = fault {
            return Err(fault);
        }
        match table.keys().next() {
            Some(name) => bail!("unknown field {name}"),
            None => Ok(read),
        }
    }
}

/// Reads a document.
pub fn read_document<T: FromValue>(alloc: Global, text: &str) -> Result<T> {
    T::from_value(alloc, Value::Table(toml::table_from_str(alloc, text)?))
}
