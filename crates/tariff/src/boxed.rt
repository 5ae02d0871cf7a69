// A tariff behind one box.
ghost use Rattle.std.specs.Prelude.{◌≡◌, IfOk};

use crate::prices::Tariff;
use std::alloc::{AllocError, Global};
use std::marker::Model;

/// A tariff on the heap. It takes 8 bytes, a `Tariff` some 630, so a type that may have a tariff stays small.
#[derive(Drop)]
pub struct BoxedTariff {
    inner: Box<Tariff>,
}

impl Model for BoxedTariff {
    ghost use Rattle.tariff.specs.Prices.{Prices};

    ghost Value = { Prices };

    ghost view = { λ b. b.inner.value };
}

impl BoxedTariff {
    /// Puts a tariff on the heap. Fails only if memory runs out.
    pub fn new(alloc: Global, tariff: Tariff) -> Result<BoxedTariff, AllocError>
        ensures { IfOk result (λ boxed. boxed ≡ tariff) }
    {
        Ok(BoxedTariff {
            inner: Box::new(alloc, tariff)?,
        })
    }

    /// Reads the tariff. Takes no memory.
    pub fn get(&self) -> &Tariff
        ensures { result.now ≡ self.now }
    {
        &self.inner
    }

    /// Copies the tariff. Fails only if memory runs out.
    pub fn copy(&self) -> Result<BoxedTariff, AllocError>
        ensures { IfOk result (λ boxed. boxed ≡ self.now) }
    {
        BoxedTariff::new(*Box::allocator(&self.inner), *self.get())
    }
}
