// Outcomes, each printed once.
use std::alloc::{AllocError, Global};
use std::collections::BTreeMap;
use std::fmt::Write;

/// Outcomes with how often each came.
#[derive(Drop)]
pub struct Tally {
    counts: BTreeMap<String, u64>,
}

impl Tally {
    pub fn new(alloc: Global) -> Tally {
        Tally {
            counts: BTreeMap::new(alloc),
        }
    }

    /// Counts an outcome once more.
    pub fn add(&mut self, told: String) -> Result<(), AllocError> {
        let before = self.counts.get(&told).copied().unwrap_or(0u64);
        self.counts.insert(told, before.saturating_add(1))?;
        Ok(())
    }

    /// Prints the outcomes in byte order.
    pub fn put(&self, page: &mut String) -> Result<(), AllocError> {
        for (told, times) in &self.counts {
            writeln!(page, "    {times}: {told}")?;
        }
        Ok(())
    }
}

/// Outcomes of numbers that follow one another: those that are the same are printed once, with the first and the last
/// number.
#[derive(Drop)]
pub struct Ranges {
    first: usize,
    last: usize,
    told: Option<String>,
}

impl Ranges {
    pub fn new() -> Ranges {
        Ranges {
            first: 0,
            last: 0,
            told: None,
        }
    }

    /// Takes the outcome of the next number, and prints those before it where it is another one.
    pub fn add(
        &mut self,
        page: &mut String,
        what: &str,
        number: usize,
        told: String,
    ) -> Result<(), AllocError> {
        let same = match &self.told {
            Some(before) => *before == told,
            None => false,
        };
        if !same {
            self.put(page, what)?;
            self.first = number;
            self.told = Some(told);
        }
        self.last = number;
        Ok(())
    }

    /// Prints the outcomes that are not printed yet.
    pub fn put(&self, page: &mut String, what: &str) -> Result<(), AllocError> {
        match &self.told {
            None => Ok(()),
            Some(told) => {
                let Ranges { first, last, .. } = self;
                writeln!(page, "  {what} {first} to {last}: {told}")
            }
        }
    }
}
